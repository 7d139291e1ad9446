//! What a row says.
ghost use Rattle.std.specs.Prelude.{◌≡◌, ℕ, ◌<◌, ◌≤◌, ◌*◌, length, slice_index_or};
ghost use Rattle.systems.specs.System.{rows};
ghost use Rattle.rows.specs.Memory.{coefficient, symbol};

use crate::items::read;
use crate::size::Size;
use arithmetic::arithmetic::Arithmetic;

/// The coefficient of a row in a column.
pub fn coefficient_at<A: Arithmetic>(
    size: &Size,
    coefficients: &[A::Coef],
    row: usize,
    column: usize,
) -> A::Coef
    requires room { rows size.now * size.now.unknowns ≤ length coefficients.now }
    requires within { (row < rows size.now) × (column < size.now.unknowns) }
    ensures { result ≡ coefficient A.operations size.now coefficients.now row column }
{
    read(coefficients, row * size.unknowns() + column)
}

/// The symbols of a row, L of them.
pub fn symbols_of<'m, A: Arithmetic>(size: &Size, symbols: &'m [A::Sym], row: usize) -> &'m [A::Sym]
    requires room { rows size.now * size.now.symbols ≤ length symbols.now }
    requires within { row < rows size.now }
    ensures whole { length result.now ≡ size.now.symbols }
    ensures each { let o = A.operations in
        (p : ℕ) → p < size.now.symbols
        → slice_index_or result.now p o.symbols.zero ≡ symbol o size.now symbols.now row p }
{
    let start = row * size.symbols();
    &symbols[start..start + size.symbols()]
}
