//! Numbers with limits.
ghost use Rattle.std.specs.Prelude.{◌≡◌, ◌≤◌, IfOk};
ghost use Rattle.refusal.specs.Order.{refused, accepted, refused_with};
ghost use Rattle.codes.specs.Shape.{out_of};

use refusal::Refusal;
use std::marker::Model;

/// A number from LOW to HIGH. A clause sees the number alone.
#[derive(Clone, Copy, PartialEq, Eq, Debug)]
pub struct Ranged<const LOW: u32, const HIGH: u32> {
    value: u32,
}

impl<const LOW: u32, const HIGH: u32> Model for Ranged<LOW, HIGH> {
    ghost use Rattle.std.specs.Prelude.{ℕ, ◌≤◌};

    ghost Value = { ℕ };

    ghost view = { λ r. r.value };

    ghost invariant = { λ r. (LOW ≤ r.value) × (r.value ≤ HIGH) };

    ghost inverse = { λ n. record { value = n } };
}

impl<const LOW: u32, const HIGH: u32> Ranged<LOW, HIGH> {
    /// Whether the number lies outside.
    pub fn excludes(value: u32) -> bool
        ensures { result ≡ out_of LOW HIGH value }
    {
        value < LOW || value > HIGH
    }

    /// The number; refuses one that lies outside (1).
    pub fn new(value: u32) -> Result<Ranged<LOW, HIGH>, Refusal>
        ensures refusal { refused_with result ≡ refused (out_of LOW HIGH value) 1 accepted }
        ensures made { IfOk result (λ r. r ≡ value) }
    {
        if Self::excludes(value) {
            return Err(Refusal::OutsideLimits);
        }
        Ok(Ranged { value })
    }

    /// The number.
    pub fn value(self) -> u32
        ensures value { result ≡ self.entry }
        ensures range { (LOW ≤ result) × (result ≤ HIGH) }
    {
        self.value
    }
}

/// The sub-symbols of a packet, K.
pub type Sources = Ranged<1, 8>;

/// The parities of a block, P.
pub type Parities = Ranged<1, 4>;

/// The symbols of a sub-symbol, L.
pub type Symbols = Ranged<1, 32>;
