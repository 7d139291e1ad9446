//! Coefficients in the words of the arithmetic as a whole, as `combine` has its symbols.
ghost use Rattle.std.specs.Prelude.{◌≡◌, MatchOption};

use crate::arithmetic::Arithmetic;
use crate::field::Field;
use crate::sum::Sum;

/// Zero.
pub fn zero<A: Arithmetic>() -> A::Coef
    ensures { result ≡ A.operations.coefficients.zero }
{
    A::Coef::zero()
}

/// The neutral factor.
pub fn one<A: Arithmetic>() -> A::Coef
    ensures { result ≡ A.operations.products.one }
{
    A::Coef::one()
}

/// What adds up to zero with the coefficient.
pub fn negative<A: Arithmetic>(c: A::Coef) -> A::Coef
    ensures { result ≡ A.operations.coefficients.negative c }
{
    c.negative()
}

/// The product.
pub fn times<A: Arithmetic>(a: A::Coef, b: A::Coef) -> A::Coef
    ensures { result ≡ A.operations.products.times a b }
{
    a.times(b)
}

/// One term more, of a sum of products.
pub fn add_product<A: Arithmetic>(to: A::Coef, a: A::Coef, b: A::Coef) -> A::Coef
    ensures { result ≡ A.operations.coefficients.plus to (A.operations.products.times a b) }
{
    to.plus(a.times(b))
}

/// The inverse: absent for zero and for nothing else.
pub fn inverse<A: Arithmetic>(c: A::Coef) -> Option<A::Coef>
    ensures { let o = A.operations in
        MatchOption result (c ≡ o.coefficients.zero) (λ d. o.products.times c d ≡ o.products.one) }
{
    c.inverse()
}
