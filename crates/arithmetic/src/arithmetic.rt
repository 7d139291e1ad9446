//! A whole arithmetic: its coefficients, its symbols, and how symbols are written as bytes.
ghost use Rattle.std.specs.Prelude.{◌≡◌, ℕ, ◌-◌, ◌++◌, take, replicate};
ghost use Rattle.arithmetic.specs.Operations.{Operations, Bytes};
ghost use Rattle.arithmetic.specs.Laws.{ArithmeticLaws, ByteLaws};

use crate::field::Field;
use crate::sum::Sum;

/// A whole arithmetic. Nothing above it may use more of its elements than the laws say.
pub trait Arithmetic {
    /// The coefficients.
    type Coef: Field;

    /// The symbols: they have sums, and coefficients scale them.
    type Sym: Sum;

    ghost WIDTH: { ℕ };

    /// The bytes of a symbol, 1 or 4.
    const WIDTH: usize;

    ghost operations: { Operations Self.Coef Self.Sym };

    ghost bytes: { Bytes Self.Sym };

    /// The symbol, scaled by the coefficient.
    fn scale(c: Self::Coef, x: Self::Sym) -> Self::Sym
        ensures { result ≡ operations.scale c x };

    /// A symbol that is not zero.
    fn mark() -> Self::Sym
        ensures { result ≡ operations.mark };

    /// The bytes of a symbol, as a number.
    final fn symbol_width() -> usize
        ensures { result ≡ bytes.width }
    {
        Self::WIDTH
    }

    /// The symbol's bytes first, and zeros behind them. Always four: no array's length can be the constant, and a slice could
    /// come too short.
    fn to_bytes(x: Self::Sym) -> [u8; 4]
        ensures { result ≡ bytes.write x ++ replicate (4 - bytes.width) 0 };

    /// The symbol whose bytes come first; what lies behind them is not looked at.
    fn from_bytes(four: [u8; 4]) -> Self::Sym
        ensures { result ≡ bytes.read (take bytes.width four) };

    ghost coefficients: { operations.coefficients ≡ Self.Coef.Sum.sum };

    ghost products: { operations.products ≡ Self.Coef.Field.product };

    ghost symbols: { operations.symbols ≡ Self.Sym.Sum.sum };

    ghost laws: { ArithmeticLaws operations };

    ghost strings: { ByteLaws bytes };

    ghost width: { WIDTH ≡ bytes.width };
}
