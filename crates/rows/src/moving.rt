//! Moving on to newer unknowns: the rows of the oldest ones go, and the others move up and to the
//! left.
ghost use Rattle.std.specs.Prelude.{◌≡◌, ℕ, ◌+◌, ◌*◌, ◌<◌, ◌≤◌, ◌≢◌, ◌⊎◌, length, slice_index_or};

use crate::items::change;
use crate::memory::Memory;
use arithmetic::arithmetic::Arithmetic;
use arithmetic::coefficients::zero;
use arithmetic::combine::no_terms;
use arithmetic::sum::Sum;

// Fewer columns than this are written column by column: to begin on each row takes longer than to
// write so few elements of it.
const FEW_COLUMNS: usize = 8;

// Writes `item` into one column of the first `count` rows.
fn fill_column<T: Copy>(items: &mut [T], count: usize, width: usize, column: usize, item: T)
    requires within { (count * width ≤ length items.old) × (column < width) }
    ensures filled { (r : ℕ) (d : _) → r < count
        → slice_index_or items.new (r * width + column) d ≡ item }
    ensures others { (r u : ℕ) (d : _) → u < width → (count ≤ r) ⊎ (u ≢ column)
        → slice_index_or items.new (r * width + u) d
        ≡ slice_index_or items.old (r * width + u) d }
{
    for row in 0..count {
        items[row * width + column] = item;
    }
}

// Writes `item` into each of the first `count` rows, from column `start` on.
fn fill_columns<T: Copy>(items: &mut [T], count: usize, width: usize, start: usize, item: T)
    requires within { (count * width ≤ length items.old) × (start ≤ width) }
    ensures filled { (r u : ℕ) (d : _) → r < count → u < width → start ≤ u
        → slice_index_or items.new (r * width + u) d ≡ item }
    ensures others { (r u : ℕ) (d : _) → u < width → (count ≤ r) ⊎ (u < start)
        → slice_index_or items.new (r * width + u) d
        ≡ slice_index_or items.old (r * width + u) d }
{
    if width - start < FEW_COLUMNS {
        for column in start..width {
            fill_column(items, count, width, column, item);
        }
    } else {
        for row in 0..count {
            change(items, row * width + start, width - start, |_| item);
        }
    }
}

// Of the first `rows` rows `up` go, and of the others `left` columns: what stays moves up and to
// the left, and `item` is written into all that this leaves.
fn shift<T: Copy>(items: &mut [T], rows: usize, width: usize, up: usize, left: usize, item: T)
    requires within { rows * width ≤ length items.old }
    requires some { (up ≤ rows) × (left ≤ width) }
    ensures moved { (r u : ℕ) (d : _) → r + up < rows → u + left < width
        → slice_index_or items.new (r * width + u) d
        ≡ slice_index_or items.old ((r + up) * width + (u + left)) d }
    ensures filled { (r u : ℕ) (d : _) → r < rows → u < width
        → (rows ≤ r + up) ⊎ (width ≤ u + left)
        → slice_index_or items.new (r * width + u) d ≡ item }
    ensures others { (r u : ℕ) (d : _) → rows ≤ r → u < width
        → slice_index_or items.new (r * width + u) d
        ≡ slice_index_or items.old (r * width + u) d }
{
    if up < rows {
        // A row up is `width` places back, so that all rows move at once.
        items.copy_within(up * width + left..rows * width, 0);
    }
    let staying = rows - up;
    fill_columns(items, staying, width, width - left, item);
    change(items, staying * width, up * width, |_| item);
}

impl<F: Sum, S: Sum> Memory<'_, '_, F, S> {
    ghost use Rattle.systems.specs.Moving.{Shifted};
    ghost use Rattle.rows.specs.Lent.{system_of, SameLoan};

    /// The rows of the oldest `count` unknowns go, and the others move up and to the left; the rows
    /// of the new unknowns, at the end, say nothing.
    pub fn shift_rows<A: Arithmetic<Coef = F, Sym = S>>(&mut self, count: usize)
        requires some { (1 ≤ count) × (count ≤ self.old.size.unknowns) }
        ensures same { SameLoan self.old self.new }
        ensures shifted { let old = system_of A.operations self.old in
            let new = system_of A.operations self.new in
            Shifted A.operations self.old.size count old new }
    {
        let (n, l) = (self.size.unknowns(), self.size.symbols());
        shift(self.coefficients, n, n, count, count, zero::<A>());
        shift(self.symbols, n, l, count, 0, no_terms::<A>());
    }
}
