//! The main diagonal.
ghost use Rattle.std.specs.Prelude.{◌≡◌, ◌≤◌, IfOk};
ghost use Rattle.refusal.specs.Order.{refused, accepted, refused_with};
ghost use Rattle.codes.specs.Shape.{out_of};
ghost use Rattle.codes.specs.Coefficients.{main_shape, main_coefficients};
ghost use Rattle.codes.specs.Bounded.{main_bounded};

use crate::code::Code;
use crate::limits::Sources;
use arithmetic::field::Field;
use refusal::Refusal;

// A plain number, with its limits beside it: a struct that holds a type which clauses see as a
// number, as `Sources` is, cannot be passed by value and used again, and whoever is handed one
// cannot know the limits.
/// Sub-symbol k of a packet of m goes into the parity m - k slots later.
#[derive(Clone, Copy)]
pub struct MainDiagonal {
    width: u32,
    ghost ok: { (1 ≤ width) × (width ≤ 8) },
}

impl MainDiagonal {
    /// The main diagonal of this width; refuses one that is not 1 to 8 (1).
    pub fn new(width: u32) -> Result<MainDiagonal, Refusal>
        ensures refusal { refused_with result ≡ refused (out_of 1 8 width) 1 accepted }
        ensures made { IfOk result (λ d. d.width ≡ width) }
    {
        Ok(MainDiagonal::of(Sources::new(width)?))
    }

    /// The main diagonal of this width.
    pub fn of(width: Sources) -> MainDiagonal
        ensures { result.width ≡ width }
    {
        MainDiagonal {
            width: width.value(),
        }
    }
}

impl<F: Field> Code<F> for MainDiagonal {
    ghost shape = { λ d. main_shape d.width };

    ghost coefficients = { λ d. main_coefficients F.Sum.sum F.Field.product d.width };

    ghost bounded = { λ code. main_bounded F.Sum.sum F.Field.product code.width };

    fn sources(&self) -> u32 {
        self.width
    }

    fn parities(&self) -> u32 {
        1
    }

    fn memory(&self) -> u32 {
        self.width
    }

    fn coefficient(&self, parity: u32, age: u32, sub: u32) -> F {
        let width = self.width;
        if parity == 0 && sub < width && age == width - sub {
            F::one()
        } else {
            F::zero()
        }
    }
}
