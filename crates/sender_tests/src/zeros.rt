//! A code of any shape: those of the library are within the limits, however they are made.
ghost use Rattle.std.specs.Prelude.{refl};

use arithmetic::field::Field;
use codes::code::Code;

// No parity adds up anything.
#[derive(Clone, Copy)]
pub(crate) struct Zeros {
    pub sources: u32,
    pub parities: u32,
    pub memory: u32,
}

impl<F: Field> Code<F> for Zeros {
    ghost shape = { λ z.
        record { sources = z.sources; parities = z.parities; memory = z.memory } };

    ghost coefficients = { λ _ _ _ _. F.Sum.sum.zero };

    ghost bounded = { λ _ _ _ _ _ _. refl };

    fn sources(&self) -> u32 {
        self.sources
    }

    fn parities(&self) -> u32 {
        self.parities
    }

    fn memory(&self) -> u32 {
        self.memory
    }

    fn coefficient(&self, _parity: u32, _age: u32, _sub: u32) -> F {
        F::zero()
    }
}
