//! What a code means.
ghost use Rattle.std.specs.Prelude.{◌≡◌, ℕ, ◌^◌, ◌<◌};
ghost use Rattle.codes.specs.Shape.{Shape, Outside};

use arithmetic::field::Field;

/// What a code means: its shape and its coefficients. Sender and receiver know a code by these alone.
pub trait Code<F: Field> {
    ghost shape: { Self → Shape };

    ghost coefficients: { Self → ℕ → ℕ → ℕ → F };

    /// K, the sub-symbols of a packet.
    fn sources(&self) -> u32
        ensures { result ≡ (shape self.now).sources };

    /// P, the parities of a block.
    fn parities(&self) -> u32
        ensures { result ≡ (shape self.now).parities };

    /// M, how many slots back a parity reaches.
    fn memory(&self) -> u32
        ensures { result ≡ (shape self.now).memory };

    /// What a sub-symbol of the packet of that age is scaled by in that parity: zero outside the shape.
    fn coefficient(&self, parity: u32, age: u32, sub: u32) -> F
        ensures value { result ≡ coefficients self.now parity age sub }
        ensures outside { Outside (shape self.now) parity age sub → result ≡ F.Sum.sum.zero };

    // Nothing lies outside the shape. Ages are 32-bit numbers.
    ghost bounded: { (code : Self) (j a k : ℕ) → a < 2 ^ 32 → Outside (shape code) j a k
        → coefficients code j a k ≡ F.Sum.sum.zero };
}
