//! The memory at the start.
ghost use Rattle.std.specs.Prelude.{◌≡◌, ℕ, ◌<◌, ◌≤◌, length, slice_index_or, OnErr, OnOk};
ghost use Rattle.refusal.specs.Order.{refused_with};
ghost use Rattle.systems.specs.System.{rows};
ghost use Rattle.systems.specs.Form.{SameRow, AllZero, KeptFormOf, ZeroContent};
ghost use Rattle.rows.specs.Memory.{memory, SameBehind};
ghost use Rattle.rows.specs.Lent.{system_of, SameLoan};
ghost use Rattle.solver.specs.Refusals.{memory_refusal};

use arithmetic::arithmetic::Arithmetic;
use arithmetic::coefficients::{one, zero};
use arithmetic::combine::no_terms;
use refusal::Refusal;
use rows::memory::Memory;
use rows::size::Size;

// Writes the same item into the first `count` places.
fn fill<T: Copy>(items: &mut [T], count: usize, item: T)
    requires within { count ≤ length items.old }
    ensures filled { (i : ℕ) (d : T) → i < count → slice_index_or items.new i d ≡ item }
    ensures behind { (i : ℕ) (d : T) → count ≤ i
        → slice_index_or items.new i d ≡ slice_index_or items.old i d }
{
    for k in 0..count {
        items[k] = item;
    }
}

// Each unknown's row gives it, as zero. All rows are filled at once, which is faster than one after
// the other.
fn give_zeros<A: Arithmetic>(memory: &mut Memory<A::Coef, A::Sym>)
    ensures same { SameLoan memory.old memory.new }
    ensures zeros { AllZero A.operations memory.old.size (system_of A.operations memory.new) }
    ensures behind { let old = system_of A.operations memory.old in
        let new = system_of A.operations memory.new in
        (r : ℕ) → rows memory.old.size ≤ r → SameRow memory.old.size new old r }
{
    let (rows, n, l) = (
        memory.size.rows(),
        memory.size.unknowns(),
        memory.size.symbols(),
    );
    fill(memory.coefficients, rows * n, zero::<A>());
    fill(memory.symbols, rows * l, no_terms::<A>());
    for unknown in 0..n {
        memory.write_coefficient::<A>(unknown, unknown, one::<A>());
    }
}

/// Writes the kept form in which every unknown is zero; refuses a memory that is too short (3).
pub fn write_zero<A: Arithmetic>(
    size: &Size,
    coefficients: &mut [A::Coef],
    symbols: &mut [A::Sym],
) -> Result<(), Refusal>
    ensures refusal { refused_with result
        ≡ memory_refusal size.now (length coefficients.old) (length symbols.old) }
    ensures unchanged { OnErr result
        ((coefficients.new ≡ coefficients.old) × (symbols.new ≡ symbols.old)) }
    ensures form { let new = memory A.operations size.now coefficients.new symbols.new in
        OnOk result (KeptFormOf A.operations size.now new (ZeroContent A.operations size.now)) }
    ensures behind { SameBehind size.now coefficients.old coefficients.new symbols.old symbols.new }
{
    if size.exceeds(coefficients.len(), symbols.len()) {
        return Err(Refusal::ShortMemory);
    }
    let mut memory = Memory {
        size: *size,
        coefficients,
        symbols,
    };
    give_zeros::<A>(&mut memory);
    Ok(())
}
