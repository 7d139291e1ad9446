//! Steps on the elements of one slice of a memory.
ghost use Rattle.std.specs.Prelude.{◌≡◌, ℕ, ◌+◌, ◌<◌, ◌≤◌, ◌⊎◌, ◌≢◌, length, slice_index_or, slice_set, MatchOption};

use arithmetic::sum::Sum;

// Writes into each element of the row at `to` what `f` makes of it and of its fellow in the row at
// `source`.
pub(crate) fn combine<T: Copy, F: Fn(T, T) -> T>(
    items: &mut [T],
    to: usize,
    source: usize,
    width: usize,
    f: F,
)
    requires callable { F.IsAlwaysCallable f }
    requires within { (to + width ≤ length items.old) × (source + width ≤ length items.old) }
    requires apart { (to + width ≤ source) ⊎ (source + width ≤ to) }
    ensures combined { (k : ℕ) (d : _) → k < width
        → F.post f (slice_index_or items.old (to + k) d) (slice_index_or items.old (source + k) d)
        (slice_index_or items.new (to + k) d) }
    ensures others { (i : ℕ) (d : _) → (i < to) ⊎ (to + width ≤ i)
        → slice_index_or items.new i d ≡ slice_index_or items.old i d }
{
    for k in 0..width {
        items[to + k] = f(items[to + k], items[source + k]);
    }
}

// Writes into each element of the row at `to` what `f` makes of it.
pub(crate) fn change<T: Copy, F: Fn(T) -> T>(items: &mut [T], to: usize, width: usize, f: F)
    requires callable { F.IsAlwaysCallable f }
    requires within { to + width ≤ length items.old }
    ensures changed { (k : ℕ) (d : _) → k < width
        → F.post f (slice_index_or items.old (to + k) d) (slice_index_or items.new (to + k) d) }
    ensures others { (i : ℕ) (d : _) → (i < to) ⊎ (to + width ≤ i)
        → slice_index_or items.new i d ≡ slice_index_or items.old i d }
{
    for k in 0..width {
        items[to + k] = f(items[to + k]);
    }
}

// Writes into each element of the row at `to` what `f` makes of it and of its fellow among others.
pub(crate) fn combine_with<T: Copy, F: Fn(T, T) -> T>(
    items: &mut [T],
    to: usize,
    others: &[T],
    source: usize,
    width: usize,
    f: F,
)
    requires callable { F.IsAlwaysCallable f }
    requires within { (to + width ≤ length items.old) × (source + width ≤ length others.now) }
    ensures combined { (k : ℕ) (d : _) → k < width
        → F.post f (slice_index_or items.old (to + k) d) (slice_index_or others.now (source + k) d)
        (slice_index_or items.new (to + k) d) }
    ensures others { (i : ℕ) (d : _) → (i < to) ⊎ (to + width ≤ i)
        → slice_index_or items.new i d ≡ slice_index_or items.old i d }
{
    for k in 0..width {
        items[to + k] = f(items[to + k], others[source + k]);
    }
}

// One element, and, below, the writing of one. The index is a parameter here, so that it is one
// number and no product: of that the check knows that the element lies within what memory can
// address.
pub(crate) fn read<T: Copy>(items: &[T], at: usize) -> T
    requires within { at < length items.now }
    ensures { (d : _) → result ≡ slice_index_or items.now at d }
{
    items[at]
}

pub(crate) fn write<T: Copy>(items: &mut [T], at: usize, item: T)
    requires within { at < length items.old }
    ensures { items.new ≡ slice_set items.old at item }
{
    items[at] = item;
}

// The first place of the row at `start` where something else than `usual` stands.
pub(crate) fn first_other<T: Sum>(
    items: &[T],
    start: usize,
    width: usize,
    usual: T,
) -> Option<usize>
    requires within { start + width ≤ length items.now }
    ensures { MatchOption result
        ((k : ℕ) → k < width → slice_index_or items.now (start + k) usual ≡ usual)
        (λ k. (k < width) × (slice_index_or items.now (start + k) usual ≢ usual)
        × ((j : ℕ) → j < k → slice_index_or items.now (start + j) usual ≡ usual)) }
{
    for k in 0..width {
        if !items[start + k].same(usual) {
            return Some(k);
        }
    }
    None
}
