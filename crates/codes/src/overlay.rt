//! Two codes on top of each other.
ghost use Rattle.std.specs.Prelude.{◌≡◌};
ghost use Rattle.codes.specs.Coefficients.{overlay_shape, overlay};
ghost use Rattle.codes.specs.Bounded.{overlay_bounded};

use crate::code::Code;
use arithmetic::field::Field;

/// Two codes added up, the second delayed by so many slots.
#[derive(Clone, Copy)]
pub struct Overlay<X, Y> {
    /// The code whose coefficients stand at their own ages.
    pub first: X,
    /// The code whose coefficients stand at ages later by the delay.
    pub second: Y,
    /// The delay in slots.
    pub delay: u32,
}

impl<F: Field, X: Code<F>, Y: Code<F>> Code<F> for Overlay<X, Y> {
    ghost shape = { λ c. overlay_shape (X.shape c.first) (Y.shape c.second) c.delay };

    ghost coefficients = { λ c.
        overlay F.Sum.sum (X.coefficients c.first) (Y.coefficients c.second) c.delay };

    ghost bounded = { λ code.
        overlay_bounded F.Sum.sum F.Sum.sums (X.shape code.first) (Y.shape code.second)
        (X.coefficients code.first) (Y.coefficients code.second) code.delay
        (X.bounded code.first) (Y.bounded code.second) };

    fn sources(&self) -> u32 {
        self.first.sources().max(self.second.sources())
    }

    fn parities(&self) -> u32 {
        self.first.parities().max(self.second.parities())
    }

    fn memory(&self) -> u32 {
        self.first
            .memory()
            .max(self.second.memory().saturating_add(self.delay))
    }

    fn coefficient(&self, parity: u32, age: u32, sub: u32) -> F {
        let first = self.first.coefficient(parity, age, sub);
        let second = if self.delay <= age {
            self.second.coefficient(parity, age - self.delay, sub)
        } else {
            F::zero()
        };
        first.plus(second)
    }
}
