//! The field: sums, products and inverses of its elements.
ghost use Rattle.std.specs.Prelude.{◌≡◌};
ghost use Rattle.galois.specs.Product.{reciprocal as reciprocal_of};
ghost use Rattle.byte.specs.Field.{byte_sums, byte_products};
ghost use Rattle.byte.specs.Equal.{byte_sum_laws};

use crate::element::Byte;
use arithmetic::field::Field;
use arithmetic::sum::Sum;

// The sum of words has the same four lines; what is said there of one trait for both holds here.
impl Sum for Byte {
    ghost sum = { byte_sums };

    ghost sums = { byte_sum_laws };

    fn zero() -> Byte {
        Byte::new(0)
    }

    fn plus(self, other: Byte) -> Byte {
        Byte::new(self.value() ^ other.value())
    }

    // Two equal bytes add up to zero, so each is its own negative.
    fn negative(self) -> Byte {
        self
    }

    fn same(self, other: Byte) -> bool {
        self == other
    }
}

impl Field for Byte {
    ghost product = { byte_products };

    fn one() -> Byte {
        Byte::new(1)
    }

    fn times(self, other: Byte) -> Byte {
        self.product(other)
    }

    fn inverse(self) -> Option<Byte> {
        if self.value() == 0 {
            None
        } else {
            Some(reciprocal(self))
        }
    }
}

// a^254, as the product of a^2, a^4, .., a^128: a^255 is 1 for every a but zero.
fn reciprocal(a: Byte) -> Byte
    ensures { result.value ≡ reciprocal_of a.value }
{
    let mut square = a;
    let mut result = Byte::one();
    for _step in 0..7_u8 {
        square = square.product(square);
        result = result.product(square);
    }
    result
}
