//! Symbols in the words of the arithmetic as a whole: sums and scaled sums.
ghost use Rattle.std.specs.Prelude.{◌≡◌, replicate, IfOk};

use crate::arithmetic::Arithmetic;
use crate::sum::Sum;
use std::alloc::{AllocError, Global};

/// The empty sum, where adding up begins.
pub fn no_terms<A: Arithmetic>() -> A::Sym
    ensures { result ≡ A.operations.symbols.zero }
{
    A::Sym::zero()
}

/// The sum.
pub fn add<A: Arithmetic>(to: A::Sym, x: A::Sym) -> A::Sym
    ensures { result ≡ A.operations.symbols.plus to x }
{
    to.plus(x)
}

/// One term more: the coefficient times the symbol, added to what was there.
pub fn add_scaled<A: Arithmetic>(to: A::Sym, c: A::Coef, x: A::Sym) -> A::Sym
    ensures { result ≡ A.operations.symbols.plus to (A.operations.scale c x) }
{
    to.plus(A::scale(c, x))
}

// Of a type that is not known, `vec!` says only that the elements are clones of one.
/// So many zeros: what a stream starts on, and an output before it is written. An error says that memory ran out.
pub fn zeros<A: Arithmetic>(heap: Global, count: usize) -> Result<Vec<A::Sym>, AllocError>
    ensures { IfOk result (λ v. v.items ≡ replicate count A.operations.symbols.zero) }
{
    let mut symbols = Vec::new(heap);
    symbols.resize(count, no_terms::<A>())?;
    Ok(symbols)
}
