//! The size of a memory.
ghost use Rattle.std.specs.Prelude.{◌≡◌, ◌≤◌, false, IfOk};
ghost use Rattle.refusal.specs.Order.{refused_with};
ghost use Rattle.systems.specs.System.{rows as rows_of};
ghost use Rattle.rows.specs.Limits.{InLimits, size_refusal, short_by, short_of};
ghost use Rattle.rows.specs.Memory.{Room};

use codes::limits::{Ranged, Symbols};
use refusal::Refusal;
use std::marker::Model;

/// The unknowns, N.
pub type Unknowns = Ranged<1, 128>;

/// The spare rows, R, beyond one for each unknown: any number that is not zero.
pub type Spare = Ranged<1, 4294967295>;

/// The size of a memory: N + R rows, each of N coefficients and L symbols.
#[derive(Clone, Copy, PartialEq, Eq, Debug)]
pub struct Size {
    unknowns: Unknowns,
    spare: Spare,
    symbols: Symbols,
}

impl Model for Size {
    ghost use Rattle.systems.specs.System.{Size as Sizes};
    ghost use Rattle.rows.specs.Limits.{InLimits};

    ghost Value = { Sizes };

    ghost view = { λ s. record { unknowns = s.unknowns; spare = s.spare; symbols = s.symbols } };

    ghost inverse = { λ z. record { unknowns = z.unknowns; spare = z.spare; symbols = z.symbols } };

    ghost invariant = { λ s.
        InLimits (record { unknowns = s.unknowns; spare = s.spare; symbols = s.symbols }) };
}

impl Size {
    /// The size of so many unknowns, spare rows and symbols; refuses one outside its limits (1).
    pub fn new(unknowns: u32, spare: u32, symbols: u32) -> Result<Size, Refusal>
        ensures refusal { refused_with result
            ≡ size_refusal (record { unknowns = unknowns; spare = spare; symbols = symbols }) }
        ensures made { IfOk result (λ s.
            s ≡ record { unknowns = unknowns; spare = spare; symbols = symbols }) }
    {
        Ok(Size {
            unknowns: Unknowns::new(unknowns)?,
            spare: Spare::new(spare)?,
            symbols: Symbols::new(symbols)?,
        })
    }

    /// N, the unknowns.
    pub fn unknowns(&self) -> usize
        ensures value { result ≡ self.now.unknowns }
        ensures limits { InLimits self.now }
    {
        self.unknowns.value() as usize
    }

    /// R, the spare rows.
    pub fn spare(&self) -> usize
        ensures value { result ≡ self.now.spare }
        ensures limits { InLimits self.now }
    {
        self.spare.value() as usize
    }

    /// N + R, all rows: one for each unknown, and the spare ones.
    pub fn rows(&self) -> usize
        ensures value { result ≡ rows_of self.now }
        ensures limits { InLimits self.now }
    {
        self.unknowns() + self.spare()
    }

    /// L, the symbols of a row and of an unknown.
    pub fn symbols(&self) -> usize
        ensures value { result ≡ self.now.symbols }
        ensures limits { InLimits self.now }
    {
        self.symbols.value() as usize
    }

    /// Whether slices of so many coefficients and symbols are too short for so many rows.
    pub fn exceeds_by(&self, rows: usize, coefficients: usize, symbols: usize) -> bool
        requires { rows ≤ rows_of self.now }
        ensures { result ≡ short_by self.now rows coefficients symbols }
    {
        coefficients < rows * self.unknowns() || symbols < rows * self.symbols()
    }

    /// Whether slices of so many coefficients and symbols are too short for all rows.
    pub fn exceeds(&self, coefficients: usize, symbols: usize) -> bool
        ensures value { result ≡ short_of self.now coefficients symbols }
        ensures room { result ≡ false → Room self.now coefficients symbols }
        ensures limits { InLimits self.now }
    {
        self.exceeds_by(self.rows(), coefficients, symbols)
    }
}
