//! Equations in the spare rows become rows of unknowns.
ghost use Rattle.std.specs.Prelude.{ℕ, ◌+◌, ◌<◌, ◌≤◌, ◌↔◌};
ghost use Rattle.systems.specs.System.{rows, Solves};
ghost use Rattle.systems.specs.Form.{SameRow, KeptFormOf};
ghost use Rattle.elimination.specs.Progress.{Cleared, Joined};
ghost use Rattle.rows.specs.Lent.{system_of, SameLoan};

use crate::clear::clear;
use arithmetic::arithmetic::Arithmetic;
use rows::memory::Memory;

// Takes from each unknown's row such a multiple of row `row` that the column is zero in it.
fn clear_column<A: Arithmetic>(memory: &mut Memory<A::Coef, A::Sym>, row: usize, column: usize)
    requires spare { (memory.old.size.unknowns ≤ row) × (row < rows memory.old.size) }
    requires within { column < memory.old.size.unknowns }
    ensures same { SameLoan memory.old memory.new }
    ensures cleared { let z = memory.old.size in
        let old = system_of A.operations memory.old in
        let new = system_of A.operations memory.new in
        Cleared A.operations z old new row column z.unknowns }
{
    for other in 0..memory.size.unknowns() {
        clear::<A>(memory, other, row, column);
    }
}

// Makes what row `row` says the row of the unknown that it begins with.
fn join_row<A: Arithmetic>(memory: &mut Memory<A::Coef, A::Sym>, row: usize)
    requires spare { (memory.old.size.unknowns ≤ row) × (row < rows memory.old.size) }
    requires joined { Joined A.operations memory.old.size (system_of A.operations memory.old) row }
    ensures same { SameLoan memory.old memory.new }
    ensures joined { let new = system_of A.operations memory.new in
        Joined A.operations memory.old.size new (row + 1) }
    ensures means { let z = memory.old.size in
        let old = system_of A.operations memory.old in
        let new = system_of A.operations memory.new in
        (x : _) → Solves A.operations z new x ↔ Solves A.operations z old x }
    ensures behind { let old = system_of A.operations memory.old in
        let new = system_of A.operations memory.new in
        (r : ℕ) → rows memory.old.size ≤ r → SameRow memory.old.size new old r }
{
    if let Some(column) = memory.first_column::<A>(row) {
        clear_column::<A>(memory, row, column);
        memory.move_row::<A>(column, row);
    }
}

// Makes what the spare rows say rows of unknowns.
pub(crate) fn join<A: Arithmetic>(memory: &mut Memory<A::Coef, A::Sym>)
    requires joined { let z = memory.old.size in
        Joined A.operations z (system_of A.operations memory.old) z.unknowns }
    ensures same { SameLoan memory.old memory.new }
    ensures form { let z = memory.old.size in
        let old = system_of A.operations memory.old in
        let new = system_of A.operations memory.new in
        KeptFormOf A.operations z new (Solves A.operations z old) }
    ensures behind { let old = system_of A.operations memory.old in
        let new = system_of A.operations memory.new in
        (r : ℕ) → rows memory.old.size ≤ r → SameRow memory.old.size new old r }
{
    for row in memory.size.unknowns()..memory.size.rows() {
        join_row::<A>(memory, row);
    }
}
