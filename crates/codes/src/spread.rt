//! A code with its ages spread out.
ghost use Rattle.std.specs.Prelude.{◌≡◌};
ghost use Rattle.codes.specs.Coefficients.{spread_shape, spread};
ghost use Rattle.codes.specs.Bounded.{spread_bounded};

use crate::code::Code;
use crate::step::Step;
use arithmetic::field::Field;

/// A code with its ages spread out: B codes side by side, each on every B-th slot.
#[derive(Clone, Copy)]
pub struct Spread<X> {
    /// The code that is spread.
    pub code: X,
    /// The factor by which its ages are spread.
    pub step: Step,
}

impl<F: Field, X: Code<F>> Code<F> for Spread<X> {
    ghost shape = { λ c. spread_shape (X.shape c.code) c.step.value };

    ghost coefficients = { λ c. spread F.Sum.sum (X.coefficients c.code) c.step.value };

    ghost bounded = { λ code.
        spread_bounded F.Sum.sum (X.shape code.code) (X.coefficients code.code) code.step.value
        (X.bounded code.code) };

    fn sources(&self) -> u32 {
        self.code.sources()
    }

    fn parities(&self) -> u32 {
        self.code.parities()
    }

    fn memory(&self) -> u32 {
        self.step.slots().saturating_mul(self.code.memory())
    }

    fn coefficient(&self, parity: u32, age: u32, sub: u32) -> F {
        let step = self.step.slots();
        if age % step == 0 {
            self.code.coefficient(parity, age / step, sub)
        } else {
            F::zero()
        }
    }
}
