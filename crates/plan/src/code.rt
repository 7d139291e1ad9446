//! The code of a plan.
ghost use Rattle.std.specs.Prelude.{◌≡◌, ℕ};
ghost use Rattle.codes.specs.Shape.{Outside};
ghost use Rattle.plan.specs.Codes.{shape_of, coefficients_of, CodeOf, plan_coefficients};
ghost use Rattle.codes.specs.Bounded.{main_bounded, back_bounded, overlay_bounded, spread_bounded};
ghost use Rattle.codes.specs.Coefficients.{main_shape, main_coefficients, back_shape, back_coefficients, overlay_shape};
ghost use Rattle.codes.specs.Coefficients;
ghost use Rattle.plan.specs.declared.code.PlanCode.TheVariants.{OneDeadline, TwoDeadlines};

use arithmetic::field::Field;
use codes::back_diagonal::BackDiagonal;
use codes::code::Code;
use codes::main_diagonal::MainDiagonal;
use codes::overlay::Overlay;
use codes::spread::Spread;

/// The code of a plan, made of parts that anybody can use.
#[derive(Clone, Copy)]
pub enum PlanCode {
    /// For short runs only: the main diagonal.
    OneDeadline(Spread<MainDiagonal>),
    /// For long runs as well: the back diagonal over it, delayed.
    TwoDeadlines(Spread<Overlay<MainDiagonal, BackDiagonal>>),
}

// Each call asks the case at hand. A `dyn` code would have to be made and handed out by `Plan::code`, which the gate refuses.
impl<F: Field> Code<F> for PlanCode {
    ghost shape = { shape_of };

    ghost coefficients = { coefficients_of F.Sum.sum F.Field.product };

    ghost bounded = { elim [
      | OneDeadline c ↦
          let s = F.Sum.sum in
          let p = F.Field.product in
          let m = c.code.width in
          spread_bounded s (main_shape m) (main_coefficients s p m) c.step.value
          (main_bounded s p m)
      | TwoDeadlines c ↦
          let s = F.Sum.sum in
          let p = F.Field.product in
          let m = c.code.first.width in
          let back = c.code.second in
          let x = main_shape m in
          let y = back_shape back.width back.step.value in
          let first = main_coefficients s p m in
          let second = back_coefficients s p back.width back.step.value in
          let delay = c.code.delay in
          spread_bounded s (overlay_shape x y delay) (Coefficients.overlay s first second delay)
          c.step.value
          (overlay_bounded s F.Sum.sums x y first second delay (main_bounded s p m)
          (back_bounded s p back.width back.step.value))
    ] };

    fn sources(&self) -> u32 {
        match self {
            PlanCode::OneDeadline(code) => Code::<F>::sources(code),
            PlanCode::TwoDeadlines(code) => Code::<F>::sources(code),
        }
    }

    fn parities(&self) -> u32 {
        match self {
            PlanCode::OneDeadline(code) => Code::<F>::parities(code),
            PlanCode::TwoDeadlines(code) => Code::<F>::parities(code),
        }
    }

    fn memory(&self) -> u32 {
        match self {
            PlanCode::OneDeadline(code) => Code::<F>::memory(code),
            PlanCode::TwoDeadlines(code) => Code::<F>::memory(code),
        }
    }

    fn coefficient(&self, parity: u32, age: u32, sub: u32) -> F
        ensures value { result ≡ coefficients_of F.Sum.sum F.Field.product self.now parity age sub }
        ensures outside { Outside (shape_of self.now) parity age sub → result ≡ F.Sum.sum.zero }
        ensures plan { (b m α : ℕ) → CodeOf b m α self.now
            → result ≡ plan_coefficients F.Sum.sum F.Field.product b m α parity age sub }
    {
        match self {
            PlanCode::OneDeadline(code) => code.coefficient(parity, age, sub),
            PlanCode::TwoDeadlines(code) => code.coefficient(parity, age, sub),
        }
    }
}
