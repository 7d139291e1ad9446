//! Coefficients: single bits.
ghost use Rattle.word.specs.Bits.{bit_sums, bit_products};
ghost use Rattle.word.specs.Laws.{bit_sum_laws};

use arithmetic::field::Field;
use arithmetic::sum::Sum;

/// A coefficient: zero or one.
#[derive(Clone, Copy, PartialEq, Eq, Debug)]
pub enum Bit {
    /// Zero.
    Off,
    /// One.
    On,
}

impl Sum for Bit {
    ghost sum = { bit_sums };

    ghost sums = { bit_sum_laws };

    fn zero() -> Bit {
        Bit::Off
    }

    fn plus(self, other: Bit) -> Bit {
        match (self, other) {
            (Bit::Off, x) => x,
            (x, Bit::Off) => x,
            (Bit::On, Bit::On) => Bit::Off,
        }
    }

    // Two equal bits add up to zero, so each is its own negative.
    fn negative(self) -> Bit {
        self
    }

    fn same(self, other: Bit) -> bool {
        self == other
    }
}

impl Field for Bit {
    ghost product = { bit_products };

    fn one() -> Bit {
        Bit::On
    }

    fn times(self, other: Bit) -> Bit {
        match self {
            Bit::Off => Bit::Off,
            Bit::On => other,
        }
    }

    fn inverse(self) -> Option<Bit> {
        match self {
            Bit::Off => None,
            Bit::On => Some(Bit::On),
        }
    }
}
