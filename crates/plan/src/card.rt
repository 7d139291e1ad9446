//! Plan cards: the numbers that truck and studio agree on, and what follows from them.
ghost use Rattle.std.specs.Prelude.{◌≡◌, ◌≤◌, IfOk};
ghost use Rattle.refusal.specs.Order.{refused_with};
ghost use Rattle.plan.specs.Numbers.{plan_refusal, IsPlan, short_deadline_of, deadline_of};
ghost use Rattle.plan.specs.Codes.{CodeOf, shape_of, plan_shape};

use crate::code::PlanCode;
use codes::back_diagonal::BackDiagonal;
use codes::limits::{Ranged, Sources, Symbols};
use codes::main_diagonal::MainDiagonal;
use codes::overlay::Overlay;
use codes::spread::Spread;
use codes::step::Step;
use refusal::Refusal;
use std::marker::Model;

/// Which arithmetic a link is run in.
#[derive(Clone, Copy, PartialEq, Eq, Debug)]
pub enum ArithmeticName {
    /// Symbols of 32 bits, coefficients 0 and 1.
    Word,
    /// Symbols of a byte, coefficients in the field of 256 elements.
    Byte,
}

/// The losses of a short run, B.
pub type Burst = Ranged<1, 63>;

/// How many times the losses of a short run a long one may have, α.
pub type Stretch = Ranged<1, 8>;

/// A plan: a link for short runs of at most B losses, and for long ones of at most α times as many. A clause sees its numbers.
#[derive(Clone, Copy)]
pub struct Plan {
    burst: Burst,
    width: Sources,
    stretch: Stretch,
    symbols: Symbols,
    arithmetic: ArithmeticName,
}

impl Model for Plan {
    ghost use Rattle.plan.specs.Numbers.{PlanNumbers};

    ghost Value = { PlanNumbers };

    ghost view = { λ p. record {
      burst = p.burst;
      width = p.width;
      stretch = p.stretch;
      symbols = p.symbols;
      arithmetic = p.arithmetic;
    } };

    ghost inverse = { λ n. record {
      burst = n.burst;
      width = n.width;
      stretch = n.stretch;
      symbols = n.symbols;
      arithmetic = n.arithmetic;
    } };
}

impl Plan {
    /// The plan of these numbers; refuses one outside its limits (1): B is 1 to 63, m 1 to 8, α 1 to 8, L 1 to 32.
    pub fn new(
        burst: u32,
        width: u32,
        stretch: u32,
        symbols: u32,
        arithmetic: ArithmeticName,
    ) -> Result<Plan, Refusal>
        ensures refusal { refused_with result ≡ plan_refusal burst width stretch symbols }
        ensures made { IfOk result (λ p. p ≡ record {
          burst = burst;
          width = width;
          stretch = stretch;
          symbols = symbols;
          arithmetic = arithmetic;
        }) }
        ensures limits { IfOk result (λ p. IsPlan p) }
    {
        Ok(Plan {
            burst: Burst::new(burst)?,
            width: Sources::new(width)?,
            stretch: Stretch::new(stretch)?,
            symbols: Symbols::new(symbols)?,
            arithmetic,
        })
    }

    /// B, the losses of a short run.
    pub fn burst(&self) -> u32
        ensures value { result ≡ self.now.burst }
        ensures range { (1 ≤ result) × (result ≤ 63) }
    {
        self.burst.value()
    }

    /// m, the sub-symbols of a packet: a short run is repaired within m times B slots.
    pub fn width(&self) -> u32
        ensures value { result ≡ self.now.width }
        ensures range { (1 ≤ result) × (result ≤ 8) }
    {
        self.width.value()
    }

    /// α, how many times the losses of a short run a long one may have; 1 for a plan with one deadline.
    pub fn stretch(&self) -> u32
        ensures value { result ≡ self.now.stretch }
        ensures range { (1 ≤ result) × (result ≤ 8) }
    {
        self.stretch.value()
    }

    /// L, the symbols of a sub-symbol.
    pub fn symbols(&self) -> u32
        ensures value { result ≡ self.now.symbols }
        ensures range { (1 ≤ result) × (result ≤ 32) }
    {
        self.symbols.value()
    }

    /// The arithmetic that the link is run in.
    pub fn arithmetic(&self) -> ArithmeticName
        ensures { result ≡ self.now.arithmetic }
    {
        self.arithmetic
    }

    /// T, the slots after its own within which a packet of a short run is repaired.
    pub fn short_deadline(&self) -> u32
        ensures value { result ≡ short_deadline_of self.now.burst self.now.width }
        ensures bound { result ≤ 504 }
    {
        self.width() * self.burst()
    }

    /// D, the slots after its own within which every packet is repaired.
    pub fn deadline(&self) -> u32
        ensures value { let p = self.now in result ≡ deadline_of p.burst p.width p.stretch }
        ensures bound { result ≤ 4095 }
    {
        let stretch = self.stretch();
        if stretch == 1 {
            self.short_deadline()
        } else {
            stretch * self.short_deadline() + self.burst()
        }
    }

    /// The plan's code. It reaches back just as far as the deadline.
    pub fn code(&self) -> PlanCode
        ensures parts { let p = self.now in CodeOf p.burst p.width p.stretch result }
        ensures shape { let p = self.now in shape_of result ≡ plan_shape p.burst p.width p.stretch }
        ensures memory { let p = self.now in
            (shape_of result).memory ≡ deadline_of p.burst p.width p.stretch }
    {
        let delay = self.width() + 1;
        let first = MainDiagonal::of(self.width);
        let step = Step::from(self.burst);
        let Ok(longer) = Step::new(self.stretch() - 1) else {
            // α is 1: no run is longer than a short one.
            return PlanCode::OneDeadline(Spread { code: first, step });
        };
        let second = BackDiagonal::of(self.width, longer);
        let code = Overlay {
            first,
            second,
            delay,
        };
        PlanCode::TwoDeadlines(Spread { code, step })
    }
}
