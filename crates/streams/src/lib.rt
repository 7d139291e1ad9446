//! Source streams: what they send, and which of them agree with what was heard of a link. Definitions, lemmas, and laws.
#![tactic(auto)]

ghost use Rattle.std.specs.Prelude.{ℕ};
ghost use Rattle.codes.specs.Link.{link_of};
ghost use Rattle.streams.specs.Law.{StreamLaw, ShareLaw};

use arithmetic::arithmetic::Arithmetic;
use codes::code::Code;

/// Promises, for every code and every arithmetic, that a stream sends just one block in each slot, and that no packet behind that
/// slot decides which. It does nothing.
pub fn a_block_each_slot<A: Arithmetic, C: Code<A::Coef>>()
    ensures { (code : C) (l : ℕ) → StreamLaw (link_of A.operations C.shape C.coefficients code l) }
{}

/// Promises, for every code and every arithmetic, that wherever some stream agrees with what was heard, all streams that agree
/// share a packet just if it is known, and that no two differ where all share. It does nothing.
pub fn what_is_shared_is_known<A: Arithmetic, C: Code<A::Coef>>()
    ensures { (code : C) (l : ℕ) → ShareLaw (link_of A.operations C.shape C.coefficients code l) }
{}
