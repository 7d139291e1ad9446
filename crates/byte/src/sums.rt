//! Sums of symbols.
ghost use Rattle.byte.specs.Symbols.{symbol_sums};
ghost use Rattle.byte.specs.Equal.{symbol_sum_laws};

use crate::symbol::ByteSymbol;
use arithmetic::sum::Sum;

// The sum of words has the same four lines; what is said there of one trait for both holds here.
impl Sum for ByteSymbol {
    ghost sum = { symbol_sums };

    ghost sums = { symbol_sum_laws };

    fn zero() -> ByteSymbol {
        ByteSymbol::new(0)
    }

    fn plus(self, other: ByteSymbol) -> ByteSymbol {
        ByteSymbol::new(self.value() ^ other.value())
    }

    // Two equal symbols add up to zero, so each is its own negative.
    fn negative(self) -> ByteSymbol {
        self
    }

    fn same(self, other: ByteSymbol) -> bool {
        self == other
    }
}
