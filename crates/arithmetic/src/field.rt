//! Coefficients: what they have besides their sums.
ghost use Rattle.std.specs.Prelude.{◌≡◌, MatchOption, ◌≢◌};
ghost use Rattle.arithmetic.specs.Operations.{Products};

use crate::sum::Sum;

/// Coefficients: sums, and products with an inverse for all but zero. The laws of products, and those that mix them with
/// sums, are the arithmetic's: here stands what each call promises.
pub trait Field: Sum {
    ghost product: { Products Self };

    /// The neutral factor, which is not zero.
    fn one() -> Self
        ensures value { result ≡ product.one }
        ensures not_zero { result ≢ Self.Sum.sum.zero };

    /// The product.
    fn times(self, other: Self) -> Self
        ensures { result ≡ product.times self other };

    /// The inverse: absent for zero and for nothing else.
    fn inverse(self) -> Option<Self>
        ensures value { result ≡ product.inverse self }
        ensures cases { let zero = Self.Sum.sum.zero in
            MatchOption result (self ≡ zero) (λ b. product.times self b ≡ product.one) };
}
