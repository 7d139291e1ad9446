//! Sums of words.
ghost use Rattle.word.specs.Words.{word_sums};
ghost use Rattle.word.specs.Laws.{word_sum_laws};

use crate::element::Word;
use arithmetic::sum::Sum;

// The sums of bytes have the same four lines. Their laws are proved once for all, and a trait from which one `impl` followed would ask for as many.
impl Sum for Word {
    ghost sum = { word_sums };

    ghost sums = { word_sum_laws };

    fn zero() -> Word {
        Word::new(0)
    }

    fn plus(self, other: Word) -> Word {
        Word::new(self.value() ^ other.value())
    }

    // Two equal words add up to zero, so each is its own negative.
    fn negative(self) -> Word {
        self
    }

    fn same(self, other: Word) -> bool {
        self == other
    }
}
