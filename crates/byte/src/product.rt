//! Products in the field.
ghost use Rattle.std.specs.Prelude.{◌≡◌};
ghost use Rattle.galois.specs.Product.{double as double_of, product as product_of};
ghost use Rattle.galois.specs.Remainder.{carryless, Remainder};

use crate::element::Byte;

impl Byte {
    /// The product of the two polynomials, modulo the field's: the sum of this byte's doublings at the bits of the other.
    #[inline]
    pub fn product(self, other: Byte) -> Byte
        ensures value { result.value ≡ product_of self.value other.value }
        ensures remainder { Remainder (carryless 8 self.value other.value) result.value }
    {
        let mut sum = 0;
        let mut doubled = self.value();
        let mut bits = other.value();
        for _step in 0..8_u8 {
            if bits % 2 == 1 {
                sum ^= doubled;
            }
            doubled = double(doubled);
            bits /= 2;
        }
        Byte::new(sum)
    }
}

// Times x. A ninth bit is taken off by the field's polynomial, 285.
#[inline]
fn double(value: u8) -> u8
    ensures { result ≡ double_of value }
{
    if value < 128 {
        value * 2
    } else {
        (u16::from(value) * 2 ^ 285) as u8
    }
}
