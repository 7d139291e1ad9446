//! What can be known of the last packets of a stream, from what was heard of it: definitions, lemmas, and the law.
#![tactic(auto)]

ghost use Rattle.std.specs.Prelude.{ℕ, ◌<◌};
ghost use Rattle.codes.specs.Link.{link_of};
ghost use Rattle.windows.specs.Law.{WindowLaw};

use arithmetic::arithmetic::Arithmetic;
use codes::code::Code;

/// Promises, for every code, every arithmetic and every window that reaches back beyond the code's memory, how what is known of
/// it follows what was heard. It does nothing.
pub fn windows_follow_logs<A: Arithmetic, C: Code<A::Coef>>()
    ensures { (code : C) (l w : ℕ) → (C.shape code).memory < w
        → WindowLaw (link_of A.operations C.shape C.coefficients code l) w }
{}
