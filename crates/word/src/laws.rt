//! What word arithmetic is, in numbers.
ghost use Rattle.word.specs.Numbers.{WordNumbers};

use crate::whole::WordArithmetic;
use arithmetic::arithmetic::Arithmetic;

/// Promises what word arithmetic makes of the numbers of words: what is the number of a sum and of a word that is scaled, and by
/// which digits a word is written. It does nothing.
pub fn words_are_numbers()
    ensures { let W = ⟦<WordArithmetic as Arithmetic>⟧ in WordNumbers W.operations W.bytes }
{}
