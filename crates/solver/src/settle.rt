//! Equations in the spare rows are brought so far that they lead.
ghost use Rattle.std.specs.Prelude.{◌≡◌, ℕ, ◌<◌, ◌≤◌, ◌≢◌, true, false};
ghost use Rattle.systems.specs.System.{rows, Holds, HoldBelow, Solves};
ghost use Rattle.systems.specs.Kept.{KeptAmong};
ghost use Rattle.systems.specs.Form.{SameRow};
ghost use Rattle.elimination.specs.Leading.{Led};
ghost use Rattle.elimination.specs.Progress.{Reduced, SettledRow, Settled};
ghost use Rattle.rows.specs.Lent.{system_of, SameLoan};

use crate::clear::clear;
use arithmetic::arithmetic::Arithmetic;
use arithmetic::coefficients::{inverse, one, zero};
use arithmetic::sum::Sum;
use rows::memory::Memory;

// Takes from spare row `row` such multiples of the rows before it that it is zero where they begin.
fn reduce<A: Arithmetic>(memory: &mut Memory<A::Coef, A::Sym>, row: usize)
    requires spare { (memory.old.size.unknowns ≤ row) × (row < rows memory.old.size) }
    requires among { let z = memory.old.size in
        KeptAmong A.operations z (system_of A.operations memory.old) z.unknowns }
    requires led { Led A.operations memory.old.size (system_of A.operations memory.old) row }
    ensures same { SameLoan memory.old memory.new }
    ensures reduced { let old = system_of A.operations memory.old in
        let new = system_of A.operations memory.new in
        Reduced A.operations memory.old.size old new row row }
{
    let unknowns = memory.size.unknowns();
    // Where the row of an unknown begins is known, and most of them are not mentioned.
    for unknown in 0..unknowns {
        if !memory.coefficient::<A>(row, unknown).same(zero::<A>())
            && !memory.coefficient::<A>(unknown, unknown).same(zero::<A>())
        {
            clear::<A>(memory, row, unknown, unknown);
        }
    }
    for earlier in unknowns..row {
        if let Some(column) = memory.first_column::<A>(earlier) {
            clear::<A>(memory, row, earlier, column);
        }
    }
}

// Brings spare row `row` so far that it says nothing, or leads after the rows before it; false if
// it contradicts them.
fn settle_row<A: Arithmetic>(memory: &mut Memory<A::Coef, A::Sym>, row: usize) -> bool
    requires spare { (memory.old.size.unknowns ≤ row) × (row < rows memory.old.size) }
    requires among { let z = memory.old.size in
        KeptAmong A.operations z (system_of A.operations memory.old) z.unknowns }
    requires led { Led A.operations memory.old.size (system_of A.operations memory.old) row }
    ensures same { SameLoan memory.old memory.new }
    ensures settled { let old = system_of A.operations memory.old in
        let new = system_of A.operations memory.new in
        result ≡ true → SettledRow A.operations memory.old.size old new row }
    ensures contradiction { let z = memory.old.size in
        let old = system_of A.operations memory.old in
        result ≡ false → (x : _) → HoldBelow A.operations z old row x
        → Holds A.operations z old x row → ⊥ }
    ensures others { let old = system_of A.operations memory.old in
        let new = system_of A.operations memory.new in
        (r : ℕ) → r ≢ row → SameRow memory.old.size new old r }
{
    reduce::<A>(memory, row);
    let Some(column) = memory.first_column::<A>(row) else {
        return memory.symbols_are_zero::<A>(row);
    };
    let first = memory.coefficient::<A>(row, column);
    if first.same(one::<A>()) {
        return true;
    }
    // A coefficient that is not zero has an inverse.
    if let Some(c) = inverse::<A>(first) {
        memory.scale_row::<A>(row, c);
    }
    true
}

// Brings the equations in the spare rows so far that each says nothing or leads, and leaves the
// rows of the unknowns as they are; false if no content satisfies all of them.
pub(crate) fn settle<A: Arithmetic>(memory: &mut Memory<A::Coef, A::Sym>) -> bool
    requires among { let z = memory.old.size in
        KeptAmong A.operations z (system_of A.operations memory.old) z.unknowns }
    ensures same { SameLoan memory.old memory.new }
    ensures settled { let old = system_of A.operations memory.old in
        let new = system_of A.operations memory.new in
        result ≡ true → Settled A.operations memory.old.size old new (rows memory.old.size) }
    ensures contradiction { let old = system_of A.operations memory.old in
        result ≡ false → (x : _) → Solves A.operations memory.old.size old x → ⊥ }
    ensures front { let old = system_of A.operations memory.old in
        let new = system_of A.operations memory.new in
        (r : ℕ) → r < memory.old.size.unknowns → SameRow memory.old.size new old r }
    ensures behind { let old = system_of A.operations memory.old in
        let new = system_of A.operations memory.new in
        (r : ℕ) → rows memory.old.size ≤ r → SameRow memory.old.size new old r }
{
    for row in memory.size.unknowns()..memory.size.rows() {
        if !settle_row::<A>(memory, row) {
            return false;
        }
    }
    true
}
