//! Whether a memory is in kept form.
ghost use Rattle.std.specs.Prelude.{◌≡◌, ℕ, ◌+◌, ◌<◌, ◌≤◌, ◌*◌, ◌↔◌, false, length, slice_index_or, IfOk, IsTrue};
ghost use Rattle.refusal.specs.Order.{refused_with};
ghost use Rattle.systems.specs.System.{rows, Solves};
ghost use Rattle.systems.specs.Kept.{Empty, Kept};
ghost use Rattle.systems.specs.Form.{KeptFormOf};
ghost use Rattle.rows.specs.Memory.{memory, coefficient, Room};
ghost use Rattle.solver.specs.Refusals.{memory_refusal};
ghost use Rattle.solver.specs.Barred.{IsLeading, GivesOverLeading, BarredAround};

use arithmetic::arithmetic::Arithmetic;
use arithmetic::coefficients::{one, zero};
use arithmetic::combine::no_terms;
use arithmetic::sum::Sum;
use refusal::Refusal;
use rows::reading::coefficient_at;
use rows::size::Size;

// Says something of each unknown; there are 128 at most.
type Mask = [bool; 128];

// Whether the row at `start` is zero. It is gone over to its end whatever is found, since a loop
// that may be left early is not done for many elements at a time.
fn is_zero<T: Sum>(items: &[T], start: usize, width: usize, zero: T) -> bool
    requires within { start + width ≤ length items.now }
    ensures { IsTrue result
        ↔ ((k : ℕ) → k < width → slice_index_or items.now (start + k) zero ≡ zero) }
{
    let mut passes = true;
    for k in 0..width {
        passes &= items[start + k].same(zero);
    }
    passes
}

// Whether the row at `start` is zero wherever the mask is on; this too goes on to the end.
fn is_zero_where<T: Sum>(items: &[T], start: usize, width: usize, mask: &Mask, zero: T) -> bool
    requires within { (start + width ≤ length items.now) × (width ≤ 128) }
    ensures { IsTrue result ↔ ((k : ℕ) → k < width → IsTrue (slice_index_or mask.now k false)
        → slice_index_or items.now (start + k) zero ≡ zero) }
{
    let mut passes = true;
    for k in 0..width {
        passes &= !mask[k] | items[start + k].same(zero);
    }
    passes
}

// Which unknowns lead: those whose own row is not zero for them.
fn leading<A: Arithmetic>(size: &Size, coefficients: &[A::Coef]) -> Mask
    requires room { rows size.now * size.now.unknowns ≤ length coefficients.now }
    ensures { let held = coefficient A.operations size.now coefficients.now in
        (v : ℕ) → v < size.now.unknowns
        → IsTrue (slice_index_or result v false) ↔ IsLeading A.operations held v }
{
    let mut leads = [false; 128];
    for unknown in 0..size.unknowns() {
        let own = coefficient_at::<A>(size, coefficients, unknown, unknown);
        leads[unknown] = !own.same(zero::<A>());
    }
    leads
}

// Whether a row says nothing.
fn is_empty<A: Arithmetic>(
    size: &Size,
    coefficients: &[A::Coef],
    symbols: &[A::Sym],
    row: usize,
) -> bool
    requires room { Room size.now (length coefficients.now) (length symbols.now) }
    requires within { row < rows size.now }
    ensures { let held = memory A.operations size.now coefficients.now symbols.now in
        IsTrue result ↔ Empty A.operations size.now held row }
{
    let (n, l) = (size.unknowns(), size.symbols());
    is_zero(coefficients, row * n, n, zero::<A>()) && is_zero(symbols, row * l, l, no_terms::<A>())
}

// Whether the row of an unknown begins with a one for it, and is zero for the others that lead.
fn is_giving<A: Arithmetic>(
    size: &Size,
    coefficients: &[A::Coef],
    unknown: usize,
    mask: &Mask,
) -> bool
    requires room { rows size.now * size.now.unknowns ≤ length coefficients.now }
    requires within { unknown < size.now.unknowns }
    requires mask { let held = coefficient A.operations size.now coefficients.now in
        BarredAround A.operations size.now.unknowns held unknown mask.now }
    ensures { let held = coefficient A.operations size.now coefficients.now in
        IsTrue result ↔ GivesOverLeading A.operations size.now.unknowns held unknown }
{
    let n = size.unknowns();
    coefficient_at::<A>(size, coefficients, unknown, unknown).same(one::<A>())
        && is_zero_where(coefficients, unknown * n, n, mask, zero::<A>())
}

// Whether a memory that is long enough is in kept form. An unknown whose own row is not zero for it
// leads, and its row must give it: the columns of the unknowns before it, and of the others that
// lead, are barred to that row. So each row bars its own column to all later ones.
fn is_reduced<A: Arithmetic>(size: &Size, coefficients: &[A::Coef], symbols: &[A::Sym]) -> bool
    requires room { Room size.now (length coefficients.now) (length symbols.now) }
    ensures { let held = memory A.operations size.now coefficients.now symbols.now in
        IsTrue result ↔ Kept A.operations size.now held }
{
    let mut barred = leading::<A>(size, coefficients);
    for unknown in 0..size.unknowns() {
        let leads = barred[unknown];
        barred[unknown] = false;
        let passes = if leads {
            is_giving::<A>(size, coefficients, unknown, &barred)
        } else {
            is_empty::<A>(size, coefficients, symbols, unknown)
        };
        if !passes {
            return false;
        }
        barred[unknown] = true;
    }
    for row in size.unknowns()..size.rows() {
        if !is_empty::<A>(size, coefficients, symbols, row) {
            return false;
        }
    }
    true
}

/// Whether a memory is in kept form; refuses one that is too short (3). If it is, it stands for at
/// least one content, and no other memory in kept form stands for the same ones.
pub fn is_kept<A: Arithmetic>(
    size: &Size,
    coefficients: &[A::Coef],
    symbols: &[A::Sym],
) -> Result<bool, Refusal>
    ensures refusal { refused_with result
        ≡ memory_refusal size.now (length coefficients.now) (length symbols.now) }
    ensures decides { let held = memory A.operations size.now coefficients.now symbols.now in
        IfOk result (λ b. IsTrue b ↔ Kept A.operations size.now held) }
    ensures form { let held = memory A.operations size.now coefficients.now symbols.now in
        IfOk result (λ b. IsTrue b
        → KeptFormOf A.operations size.now held (Solves A.operations size.now held)) }
{
    if size.exceeds(coefficients.len(), symbols.len()) {
        return Err(Refusal::ShortMemory);
    }
    Ok(is_reduced::<A>(size, coefficients, symbols))
}
