//! A row is taken from another one.
ghost use Rattle.std.specs.Prelude.{◌<◌, ◌≢◌};
ghost use Rattle.systems.specs.System.{rows};
ghost use Rattle.systems.specs.Steps.{Added};
ghost use Rattle.rows.specs.Lent.{system_of, SameLoan};

use arithmetic::arithmetic::Arithmetic;
use arithmetic::coefficients::{negative, zero};
use arithmetic::sum::Sum;
use rows::memory::Memory;

// Takes from row `to` so many times row `source` as its coefficient in the column says: where row
// `source` has a one there, row `to` has zero there afterwards.
pub(crate) fn clear<A: Arithmetic>(
    memory: &mut Memory<A::Coef, A::Sym>,
    to: usize,
    source: usize,
    column: usize,
)
    requires within { (to < rows memory.old.size) × (source < rows memory.old.size) }
    requires apart { to ≢ source }
    requires column { column < memory.old.size.unknowns }
    ensures same { SameLoan memory.old memory.new }
    ensures added { let old = system_of A.operations memory.old in
        let new = system_of A.operations memory.new in
        Added A.operations memory.old.size old new to source
        (A.operations.coefficients.negative (old.coefficient to column)) }
{
    let c = memory.coefficient::<A>(to, column);
    // Most are zero, and a whole row need not be added then.
    if c.same(zero::<A>()) {
        return;
    }
    memory.add_row::<A>(to, source, negative::<A>(c));
}
