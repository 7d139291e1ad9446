//! What the parities of a stream are, for each code, and for codes made of others. Definitions, lemmas, and laws.
#![tactic(auto)]

ghost use Rattle.std.specs.Prelude.{ℕ};
ghost use Rattle.codes.specs.Link.{link_of};
ghost use Rattle.parities.specs.Laws.{ParityLaw, OverlayLaw, SpreadLaw};

use arithmetic::arithmetic::Arithmetic;
use codes::code::Code;
use codes::overlay::Overlay;
use codes::spread::Spread;

/// Promises, for every code and every arithmetic, what its parities are sums of. It does nothing.
pub fn parities_are_sums<A: Arithmetic, C: Code<A::Coef>>()
    ensures { let link = link_of A.operations C.shape C.coefficients in
        (code : C) (l : ℕ) → ParityLaw (link code l) }
{}

/// Promises, for any two codes and every arithmetic, that the parity of their overlay in a slot, up to the last one, is the first
/// code's plus the second's of the slot before by the delay. It does nothing.
pub fn overlays_add_parities<A: Arithmetic, X: Code<A::Coef>, Y: Code<A::Coef>>()
    ensures { let code = ⟦<Overlay<X, Y> as Code<A::Coef>>⟧ in
        let whole = link_of A.operations code.shape code.coefficients in
        let first = link_of A.operations X.shape X.coefficients in
        let second = link_of A.operations Y.shape Y.coefficients in
        (c : Overlay X Y) (l : ℕ)
        → OverlayLaw (whole c l) (first c.first l) (second c.second l) c.delay }
{}

/// Promises, for every code and every arithmetic, that its spread has, in the slots of one remainder, up to the last slot, the
/// parities that the code itself has of the packets of these slots alone. It does nothing.
pub fn spreads_part_the_slots<A: Arithmetic, X: Code<A::Coef>>()
    ensures { let code = ⟦<Spread<X> as Code<A::Coef>>⟧ in
        let whole = link_of A.operations code.shape code.coefficients in
        let inner = link_of A.operations X.shape X.coefficients in
        (c : Spread X) (l : ℕ) → SpreadLaw (whole c l) (inner c.code l) c.step.value }
{}
