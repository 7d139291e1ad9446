//! Steps, in slots.
ghost use Rattle.std.specs.Prelude.{◌≡◌, ◌≤◌, IfOk, ◌==◌};
ghost use Rattle.refusal.specs.Order.{refused, accepted, refused_with};

use crate::limits::Ranged;
use refusal::Refusal;

// A plain type with its own field, by a rule of this project (docs/DECISIONS.md).
/// A number of slots to go by, never none: what divides by it needs no test.
#[derive(Clone, Copy)]
pub struct Step {
    value: u32,
    ghost ok: { 1 ≤ value },
}

impl Step {
    /// The step of so many slots; refuses 0 (1).
    pub fn new(value: u32) -> Result<Step, Refusal>
        ensures refusal { refused_with result ≡ refused (value == 0) 1 accepted }
        ensures made { IfOk result (λ s. s.value ≡ value) }
    {
        if value == 0 {
            return Err(Refusal::OutsideLimits);
        }
        Ok(Step { value })
    }

    /// The slots.
    pub fn slots(self) -> u32
        ensures { result ≡ self.value }
    {
        self.value
    }
}

// A number from 1 on is a step.
impl<const HIGH: u32> From<Ranged<1, HIGH>> for Step {
    ghost from_gives = { λ number step. (step.value ≡ number) × (step.value ≤ HIGH) };

    fn from(number: Ranged<1, HIGH>) -> Step {
        Step {
            value: number.value(),
        }
    }
}
