//! Elements that can be added.
ghost use Rattle.std.specs.Prelude.{◌≡◌, Decides};
ghost use Rattle.arithmetic.specs.Operations.{Sums};
ghost use Rattle.arithmetic.specs.Laws.{SumLaws};

/// Elements that can be added: coefficients and symbols alike.
pub trait Sum: Copy {
    ghost sum: { Sums Self };

    /// The empty sum.
    fn zero() -> Self
        ensures { result ≡ sum.zero };

    /// The sum of two elements.
    fn plus(self, other: Self) -> Self
        ensures { result ≡ sum.plus self other };

    /// What adds up to zero with this element.
    fn negative(self) -> Self
        ensures { result ≡ sum.negative self };

    /// Whether two elements are the same: each element's own `==`. Of a bound `Eq` generic code would not know that it tells this.
    fn same(self, other: Self) -> bool
        ensures { Decides result (self ≡ other) };

    ghost sums: { SumLaws sum };
}
