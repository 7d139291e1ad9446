//! Equations that are handed in.
use arithmetic::arithmetic::Arithmetic;

/// Equations that are handed in, one after the other as the rows of a memory are.
#[derive(Drop)]
pub struct Equations<'a, A: Arithmetic> {
    /// Their coefficients: N to an equation.
    pub coefficients: &'a [A::Coef],
    /// Their symbols: L to an equation.
    pub symbols: &'a [A::Sym],
}
