//! Byte arithmetic as a whole.
ghost use Rattle.byte.specs.Arithmetic.{byte_operations, byte_strings};
ghost use Rattle.byte.specs.Laws.{byte_laws, byte_string_laws};
ghost use Rattle.std.specs.Prelude.{refl};

use crate::element::Byte;
use crate::symbol::ByteSymbol;
use arithmetic::arithmetic::Arithmetic;

/// Byte arithmetic: a coefficient scales a symbol by the product of the two.
pub struct ByteArithmetic;

impl Arithmetic for ByteArithmetic {
    type Coef = Byte;

    type Sym = ByteSymbol;

    ghost WIDTH = { 1 };

    const WIDTH: usize = 1;

    ghost operations = { byte_operations };

    ghost bytes = { byte_strings };

    ghost coefficients = { refl };

    ghost products = { refl };

    ghost symbols = { refl };

    ghost laws = { byte_laws };

    ghost strings = { byte_string_laws };

    ghost width = { refl };

    // A hint: it is called for each symbol of each sub-symbol that a parity adds up.
    #[inline]
    fn scale(c: Byte, x: ByteSymbol) -> ByteSymbol {
        ByteSymbol::new(c.product(Byte::new(x.value())).value())
    }

    fn mark() -> ByteSymbol {
        ByteSymbol::new(1)
    }

    fn to_bytes(x: ByteSymbol) -> [u8; 4] {
        [x.value(), 0, 0, 0]
    }

    fn from_bytes(four: [u8; 4]) -> ByteSymbol {
        ByteSymbol::new(four[0])
    }
}
