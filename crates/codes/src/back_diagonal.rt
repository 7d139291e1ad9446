//! The back diagonal.
ghost use Rattle.std.specs.Prelude.{◌≡◌, ◌≤◌, IfOk};
ghost use Rattle.refusal.specs.Order.{refused, accepted, refused_with};
ghost use Rattle.codes.specs.Shape.{out_of};
ghost use Rattle.codes.specs.Coefficients.{back_shape, back_coefficients};
ghost use Rattle.codes.specs.Bounded.{back_bounded};

use crate::code::Code;
use crate::limits::Sources;
use crate::step::Step;
use arithmetic::field::Field;
use refusal::Refusal;

// A plain number, with its limits beside it, as in `MainDiagonal`.
/// Sub-symbol k goes into the parity k + 1 steps later.
#[derive(Clone, Copy)]
pub struct BackDiagonal {
    width: u32,
    step: Step,
    ghost ok: { (1 ≤ width) × (width ≤ 8) },
}

impl BackDiagonal {
    /// The back diagonal of this width and step; refuses a width that is not 1 to 8 (1).
    pub fn new(width: u32, step: Step) -> Result<BackDiagonal, Refusal>
        ensures refusal { refused_with result ≡ refused (out_of 1 8 width) 1 accepted }
        ensures made { IfOk result (λ d. (d.width ≡ width) × (d.step ≡ step)) }
    {
        Ok(BackDiagonal::of(Sources::new(width)?, step))
    }

    /// The back diagonal of this width and step.
    pub fn of(width: Sources, step: Step) -> BackDiagonal
        ensures width { result.width ≡ width }
        ensures step { result.step ≡ step }
    {
        BackDiagonal {
            width: width.value(),
            step,
        }
    }
}

impl<F: Field> Code<F> for BackDiagonal {
    ghost shape = { λ d. back_shape d.width d.step.value };

    ghost coefficients = { λ d. back_coefficients F.Sum.sum F.Field.product d.width d.step.value };

    ghost bounded = { λ code. back_bounded F.Sum.sum F.Field.product code.width code.step.value };

    fn sources(&self) -> u32 {
        self.width
    }

    fn parities(&self) -> u32 {
        1
    }

    fn memory(&self) -> u32 {
        self.step.slots().saturating_mul(self.width)
    }

    fn coefficient(&self, parity: u32, age: u32, sub: u32) -> F {
        let step = u64::from(self.step.slots());
        if parity == 0 && sub < self.width && u64::from(age) == step * (u64::from(sub) + 1) {
            F::one()
        } else {
            F::zero()
        }
    }
}
