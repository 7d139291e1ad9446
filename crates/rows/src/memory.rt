//! A memory that is lent: its size, and the slices that hold its rows.
ghost use Rattle.std.specs.Prelude.{ℕ, ◌<◌, ◌≢◌, length};
ghost use Rattle.arithmetic.specs.Operations.{Operations};
ghost use Rattle.rows.specs.Memory.{Room};

use crate::items::{change, combine};
use crate::size::Size;
use arithmetic::sum::Sum;

/// A memory that is lent: its size, and the two slices that hold its rows.
#[derive(Drop)]
pub struct Memory<'c, 's, F, S> {
    /// How many rows there are, and how long they are.
    pub size: Size,
    /// The coefficients, row after row.
    pub coefficients: &'c mut [F],
    /// The symbols, row after row.
    pub symbols: &'s mut [S],
    ghost room: { Room size (length coefficients.now) (length symbols.now) },
}

impl<F: Sum, S: Sum> Memory<'_, '_, F, S> {
    ghost use Rattle.systems.specs.System.{rows};
    ghost use Rattle.systems.specs.Form.{SameRow};
    ghost use Rattle.rows.specs.Lent.{system_of, SameLoan};

    // Writes into each element of row `to` what `f`, of coefficients, and `g`, of symbols, make of
    // it and of its fellow in row `source`.
    pub(crate) fn combine_rows<C: Fn(F, F) -> F, D: Fn(S, S) -> S>(
        &mut self,
        to: usize,
        source: usize,
        f: C,
        g: D,
    )
        requires callable { C.IsAlwaysCallable f × D.IsAlwaysCallable g }
        requires within { (to < rows self.old.size) × (source < rows self.old.size) }
        requires apart { to ≢ source }
        ensures same { SameLoan self.old self.new }
        ensures coefficients { (o : Operations F S) (u : ℕ) → u < self.old.size.unknowns
            → let old = (system_of o self.old).coefficient in
            C.post f (old to u) (old source u) ((system_of o self.new).coefficient to u) }
        ensures symbols { (o : Operations F S) (p : ℕ) → p < self.old.size.symbols
            → let old = (system_of o self.old).symbol in
            D.post g (old to p) (old source p) ((system_of o self.new).symbol to p) }
        ensures others { (o : Operations F S) (r : ℕ) → r ≢ to
            → SameRow self.old.size (system_of o self.new) (system_of o self.old) r }
    {
        let (n, l) = (self.size.unknowns(), self.size.symbols());
        combine(self.coefficients, to * n, source * n, n, f);
        combine(self.symbols, to * l, source * l, l, g);
    }

    // Writes into each element of a row what `f`, of coefficients, and `g`, of symbols, make of it.
    pub(crate) fn change_row<C: Fn(F) -> F, D: Fn(S) -> S>(&mut self, row: usize, f: C, g: D)
        requires callable { C.IsAlwaysCallable f × D.IsAlwaysCallable g }
        requires within { row < rows self.old.size }
        ensures same { SameLoan self.old self.new }
        ensures coefficients { (o : Operations F S) (u : ℕ) → u < self.old.size.unknowns
            → C.post f ((system_of o self.old).coefficient row u)
            ((system_of o self.new).coefficient row u) }
        ensures symbols { (o : Operations F S) (p : ℕ) → p < self.old.size.symbols
            → D.post g ((system_of o self.old).symbol row p) ((system_of o self.new).symbol row p) }
        ensures others { (o : Operations F S) (r : ℕ) → r ≢ row
            → SameRow self.old.size (system_of o self.new) (system_of o self.old) r }
    {
        let (n, l) = (self.size.unknowns(), self.size.symbols());
        change(self.coefficients, row * n, n, f);
        change(self.symbols, row * l, l, g);
    }
}
