//! The steps on the rows of a memory.
ghost use Rattle.std.specs.Prelude.{◌≡◌, ℕ, ◌<◌, ◌≤◌, ◌≢◌, ◌+◌, ◌*◌, ◌↔◌, length, slice_index_or, IsTrue, MatchOption};

use crate::equations::Equations;
use crate::items::{combine_with, first_other, write};
use crate::memory::Memory;
use crate::reading::coefficient_at;
use arithmetic::arithmetic::Arithmetic;
use arithmetic::coefficients::{add_product, times, zero};
use arithmetic::combine::{add_scaled, no_terms};
use arithmetic::sum::Sum;

impl<F: Sum, S: Sum> Memory<'_, '_, F, S> {
    ghost use Rattle.arithmetic.specs.Operations.{Operations};
    ghost use Rattle.systems.specs.System.{rows};
    ghost use Rattle.systems.specs.Kept.{NoCoefficient, NoSymbol, FirstIn};
    ghost use Rattle.systems.specs.Steps.{Added, Scaled, Copied, Emptied, Moved, CoefficientWritten, SymbolsWritten};
    ghost use Rattle.rows.specs.Memory.{memory};
    ghost use Rattle.rows.specs.Lent.{system_of, SameLoan};

    /// Adds c times row `source` to row `to`.
    pub fn add_row<A: Arithmetic<Coef = F, Sym = S>>(&mut self, to: usize, source: usize, c: F)
        requires within { (to < rows self.old.size) × (source < rows self.old.size) }
        requires apart { to ≢ source }
        ensures same { SameLoan self.old self.new }
        ensures added { let old = system_of A.operations self.old in
            let new = system_of A.operations self.new in
            Added A.operations self.old.size old new to source c }
    {
        self.combine_rows(
            to,
            source,
            |x, y| add_product::<A>(x, c, y),
            |x, y| add_scaled::<A>(x, c, y),
        );
    }

    /// Scales a row by c.
    pub fn scale_row<A: Arithmetic<Coef = F, Sym = S>>(&mut self, row: usize, c: F)
        requires within { row < rows self.old.size }
        ensures same { SameLoan self.old self.new }
        ensures scaled { let old = system_of A.operations self.old in
            let new = system_of A.operations self.new in
            Scaled A.operations self.old.size old new row c }
    {
        self.change_row(row, |x| times::<A>(c, x), |x| A::scale(c, x));
    }

    /// Makes a row say nothing.
    pub fn empty_row<A: Arithmetic<Coef = F, Sym = S>>(&mut self, row: usize)
        requires within { row < rows self.old.size }
        ensures same { SameLoan self.old self.new }
        ensures emptied { let old = system_of A.operations self.old in
            let new = system_of A.operations self.new in
            Emptied A.operations self.old.size old new row }
    {
        self.change_row(row, |_| zero::<A>(), |_| no_terms::<A>());
    }

    /// Row `to` takes over what row `source` says, which then says nothing.
    pub fn move_row<A: Arithmetic<Coef = F, Sym = S>>(&mut self, to: usize, source: usize)
        requires within { (to < rows self.old.size) × (source < rows self.old.size) }
        requires apart { to ≢ source }
        ensures same { SameLoan self.old self.new }
        ensures moved { let old = system_of A.operations self.old in
            let new = system_of A.operations self.new in
            Moved A.operations self.old.size old new to source }
    {
        self.combine_rows(to, source, |_, y| y, |_, y| y);
        self.empty_row::<A>(source);
    }

    /// Writes an equation that was handed in into row `to`.
    pub fn copy_row<A: Arithmetic<Coef = F, Sym = S>>(
        &mut self,
        to: usize,
        equations: &Equations<A>,
        source: usize,
    )
        requires within { to < rows self.old.size }
        requires equations { let z = self.old.size in
            (source * z.unknowns + z.unknowns ≤ length equations.now.coefficients.now)
            × (source * z.symbols + z.symbols ≤ length equations.now.symbols.now) }
        ensures same { SameLoan self.old self.new }
        ensures copied { let o = A.operations in
            let lent = equations.now in
            let given = memory o self.old.size lent.coefficients.now lent.symbols.now in
            Copied self.old.size given (system_of o self.old) (system_of o self.new) to source }
    {
        let (n, l) = (self.size.unknowns(), self.size.symbols());
        let (given, say) = (equations.coefficients, equations.symbols);
        combine_with(self.coefficients, to * n, given, source * n, n, |_, y| y);
        combine_with(self.symbols, to * l, say, source * l, l, |_, y| y);
    }

    /// Writes a coefficient of a row.
    pub fn write_coefficient<A: Arithmetic<Coef = F, Sym = S>>(
        &mut self,
        row: usize,
        column: usize,
        c: F,
    )
        requires within { (row < rows self.old.size) × (column < self.old.size.unknowns) }
        ensures same { SameLoan self.old self.new }
        ensures written { let old = system_of A.operations self.old in
            let new = system_of A.operations self.new in
            CoefficientWritten self.old.size old new row column c }
    {
        let at = row * self.size.unknowns() + column;
        write(self.coefficients, at, c);
    }

    // Writes into each symbol of a row what `g` makes of it and of its fellow among others.
    fn combine_symbols<D: Fn(S, S) -> S>(&mut self, row: usize, others: &[S], g: D)
        requires callable { D.IsAlwaysCallable g }
        requires within { row < rows self.old.size }
        requires enough { self.old.size.symbols ≤ length others.now }
        ensures same { SameLoan self.old self.new }
        ensures symbols { (o : Operations F S) (p : ℕ) → p < self.old.size.symbols
            → D.post g ((system_of o self.old).symbol row p)
            (slice_index_or others.now p o.symbols.zero) ((system_of o self.new).symbol row p) }
        ensures rest { (o : Operations F S) →
            SymbolsWritten self.old.size (system_of o self.old) (system_of o self.new) row
            ((system_of o self.new).symbol row) }
    {
        let l = self.size.symbols();
        combine_with(self.symbols, row * l, others, 0, l, g);
    }

    /// Writes the symbols of a row: the first L of those that are handed in.
    pub fn write_symbols<A: Arithmetic<Coef = F, Sym = S>>(&mut self, row: usize, symbols: &[S])
        requires within { row < rows self.old.size }
        requires enough { self.old.size.symbols ≤ length symbols.now }
        ensures same { SameLoan self.old self.new }
        ensures written { let o = A.operations in
            SymbolsWritten self.old.size (system_of o self.old) (system_of o self.new) row
            (λ p. slice_index_or symbols.now p o.symbols.zero) }
    {
        self.combine_symbols(row, symbols, |_, y| y);
    }

    /// Adds c times the first L of the symbols that are handed in to those of a row.
    pub fn add_symbols<A: Arithmetic<Coef = F, Sym = S>>(&mut self, row: usize, symbols: &[S], c: F)
        requires within { row < rows self.old.size }
        requires enough { self.old.size.symbols ≤ length symbols.now }
        ensures same { SameLoan self.old self.new }
        ensures written { let o = A.operations in
            let old = system_of o self.old in
            SymbolsWritten self.old.size old (system_of o self.new) row
            (λ p. o.symbols.plus (old.symbol row p)
            (o.scale c (slice_index_or symbols.now p o.symbols.zero))) }
    {
        self.combine_symbols(row, symbols, |x, y| add_scaled::<A>(x, c, y));
    }

    /// The coefficient of a row in a column.
    pub fn coefficient<A: Arithmetic<Coef = F, Sym = S>>(&self, row: usize, column: usize) -> F
        requires within { (row < rows self.now.size) × (column < self.now.size.unknowns) }
        ensures { result ≡ (system_of A.operations self.now).coefficient row column }
    {
        coefficient_at::<A>(&self.size, self.coefficients, row, column)
    }

    /// The column of a row's first coefficient that is not zero.
    pub fn first_column<A: Arithmetic<Coef = F, Sym = S>>(&self, row: usize) -> Option<usize>
        requires within { row < rows self.now.size }
        ensures { let z = self.now.size in
            let s = system_of A.operations self.now in
            MatchOption result (NoCoefficient A.operations z s row)
            (λ u. (u < z.unknowns) × FirstIn A.operations s row u) }
    {
        let n = self.size.unknowns();
        first_other(self.coefficients, row * n, n, zero::<A>())
    }

    /// Whether a row's symbols are all zero.
    pub fn symbols_are_zero<A: Arithmetic<Coef = F, Sym = S>>(&self, row: usize) -> bool
        requires within { row < rows self.now.size }
        ensures { IsTrue result
            ↔ NoSymbol A.operations self.now.size (system_of A.operations self.now) row }
    {
        let l = self.size.symbols();
        first_other(self.symbols, row * l, l, no_terms::<A>()).is_none()
    }
}
