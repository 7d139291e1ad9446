//! An unknown about which nothing is known is given its symbols.
ghost use Rattle.std.specs.Prelude.{◌≡◌, ◌<◌, length, slice_index_or, OnErr, OnOk};
ghost use Rattle.refusal.specs.Order.{refused_with};
ghost use Rattle.systems.specs.Kept.{Kept};
ghost use Rattle.systems.specs.Form.{KeptFormOf};
ghost use Rattle.systems.specs.Giving.{NothingKnown, GivenSymbols};
ghost use Rattle.rows.specs.Memory.{memory, Room, SameBehind};
ghost use Rattle.solver.specs.Refusals.{giving_refusal};

use arithmetic::arithmetic::Arithmetic;
use arithmetic::coefficients::one;
use refusal::Refusal;
use rows::memory::Memory;
use rows::size::Size;

/// Gives an unknown, about which nothing is known, its symbols: the first L of those that are
/// handed in. Refuses an unknown that is not below N (1), and a memory or symbols that are too
/// short (3).
pub fn give<A: Arithmetic>(
    size: &Size,
    coefficients: &mut [A::Coef],
    symbols: &mut [A::Sym],
    unknown: usize,
    given: &[A::Sym],
) -> Result<(), Refusal>
    requires kept { let old = memory A.operations size.now coefficients.old symbols.old in
        Room size.now (length coefficients.old) (length symbols.old)
        → Kept A.operations size.now old }
    requires nothing_known { let old = memory A.operations size.now coefficients.old symbols.old in
        Room size.now (length coefficients.old) (length symbols.old)
        → unknown < size.now.unknowns → NothingKnown A.operations size.now old unknown }
    ensures refusal { refused_with result ≡ giving_refusal size.now unknown (length given.now)
        (length coefficients.old) (length symbols.old) }
    ensures unchanged { OnErr result
        ((coefficients.new ≡ coefficients.old) × (symbols.new ≡ symbols.old)) }
    ensures form { let o = A.operations in
        let old = memory o size.now coefficients.old symbols.old in
        let new = memory o size.now coefficients.new symbols.new in
        OnOk result (KeptFormOf o size.now new (GivenSymbols o size.now old unknown
        (λ p. slice_index_or given.now p o.symbols.zero))) }
    ensures behind { SameBehind size.now coefficients.old coefficients.new symbols.old symbols.new }
{
    if unknown >= size.unknowns() {
        return Err(Refusal::OutsideLimits);
    }
    if size.exceeds(coefficients.len(), symbols.len()) || given.len() < size.symbols() {
        return Err(Refusal::ShortMemory);
    }
    let mut memory = Memory {
        size: *size,
        coefficients,
        symbols,
    };
    // No row mentions the unknown, and its own says nothing.
    memory.write_coefficient::<A>(unknown, unknown, one::<A>());
    memory.write_symbols::<A>(unknown, given);
    Ok(())
}
