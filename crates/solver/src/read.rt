//! What is known of one unknown.
ghost use Rattle.std.specs.Prelude.{◌≡◌, ℕ, ◌<◌, ◌≤◌, ◌≢◌, ◌*◌, length, IfOk, MatchOption};
ghost use Rattle.refusal.specs.Order.{refused_with};
ghost use Rattle.systems.specs.System.{rows};
ghost use Rattle.systems.specs.Kept.{Kept};
ghost use Rattle.systems.specs.Reading.{Differ};
ghost use Rattle.rows.specs.Memory.{memory, coefficient, Room};
ghost use Rattle.solver.specs.Refusals.{reading_refusal};
ghost use Rattle.solver.specs.Reading.{Known};

use arithmetic::arithmetic::Arithmetic;
use arithmetic::coefficients::{one, zero};
use arithmetic::sum::Sum;
use refusal::Refusal;
use rows::reading::{coefficient_at, symbols_of};
use rows::size::Size;

// A column besides this one where the row is not zero.
fn other_column<A: Arithmetic>(
    size: &Size,
    coefficients: &[A::Coef],
    row: usize,
    column: usize,
) -> Option<usize>
    requires room { rows size.now * size.now.unknowns ≤ length coefficients.now }
    requires within { row < rows size.now }
    ensures { let zero = A.operations.coefficients.zero in
        let value = coefficient A.operations size.now coefficients.now row in
        MatchOption result ((v : ℕ) → v < size.now.unknowns → v ≢ column → value v ≡ zero)
        (λ v. (v < size.now.unknowns) × (v ≢ column) × (value v ≢ zero)) }
{
    for other in 0..size.unknowns() {
        if other != column
            && !coefficient_at::<A>(size, coefficients, row, other).same(zero::<A>())
        {
            return Some(other);
        }
    }
    None
}

/// The symbols of an unknown, if all contents that the memory stands for share them. Refuses an
/// unknown that is not below N (1), and a memory that is too short (3).
pub fn read<'m, A: Arithmetic>(
    size: &Size,
    coefficients: &[A::Coef],
    symbols: &'m [A::Sym],
    unknown: usize,
) -> Result<Option<&'m [A::Sym]>, Refusal>
    requires kept { let held = memory A.operations size.now coefficients.now symbols.now in
        Room size.now (length coefficients.now) (length symbols.now)
        → Kept A.operations size.now held }
    ensures refusal { refused_with result
        ≡ reading_refusal size.now unknown (length coefficients.now) (length symbols.now) }
    ensures says { let held = memory A.operations size.now coefficients.now symbols.now in
        IfOk result (λ read. MatchOption read (Differ A.operations size.now held unknown)
        (λ known. Known A.operations size.now held unknown known.now)) }
{
    if unknown >= size.unknowns() {
        return Err(Refusal::OutsideLimits);
    }
    if size.exceeds(coefficients.len(), symbols.len()) {
        return Err(Refusal::ShortMemory);
    }
    if !coefficient_at::<A>(size, coefficients, unknown, unknown).same(one::<A>()) {
        return Ok(None);
    }
    // Two contents differ by what this other one holds.
    if let Some(_other) = other_column::<A>(size, coefficients, unknown, unknown) {
        return Ok(None);
    }
    Ok(Some(symbols_of::<A>(size, symbols, unknown)))
}
