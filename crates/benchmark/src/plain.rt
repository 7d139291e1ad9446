//! The two arithmetics once more, as plain numbers: coefficients are bytes, symbols bytes or words.

/// A symbol of a plain loop, with the arithmetic that it belongs to.
pub(crate) trait Plain: Copy {
    fn zero() -> Self;

    fn number(self) -> u32;

    // The product of two coefficients.
    fn product(a: u8, b: u8) -> u8;

    // The inverse of a coefficient that is not zero.
    fn inverse(c: u8) -> u8;

    // Plus c times the other symbol.
    fn plus_scaled(self, c: u8, other: Self) -> Self;
}

// Shift and add, modulo 285.
impl Plain for u8 {
    fn zero() -> u8 {
        0
    }

    fn number(self) -> u32 {
        u32::from(self)
    }

    fn product(a: u8, b: u8) -> u8 {
        let mut sum = 0;
        let mut shifted = a;
        for bit in 0..8_u32 {
            if (b >> bit) & 1 == 1 {
                sum ^= shifted;
            }
            let carry = if shifted >= 128 { 29 } else { 0 };
            shifted = (shifted << 1) ^ carry;
        }
        sum
    }

    // c^254, since c^255 is 1.
    fn inverse(c: u8) -> u8 {
        let mut square = c;
        let mut power = 1;
        for _ in 0..7_u32 {
            square = u8::product(square, square);
            power = u8::product(power, square);
        }
        power
    }

    fn plus_scaled(self, c: u8, other: u8) -> u8 {
        self ^ u8::product(c, other)
    }
}

// Coefficients are 0 and 1.
impl Plain for u32 {
    fn zero() -> u32 {
        0
    }

    fn number(self) -> u32 {
        self
    }

    fn product(a: u8, b: u8) -> u8 {
        a & b
    }

    fn inverse(c: u8) -> u8 {
        c
    }

    fn plus_scaled(self, c: u8, other: u32) -> u32 {
        if c == 0 { self } else { self ^ other }
    }
}
