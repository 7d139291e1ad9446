//! Word arithmetic as a whole.
ghost use Rattle.word.specs.Arithmetic.{word_operations, word_strings};
ghost use Rattle.word.specs.Laws.{word_laws};
ghost use Rattle.word.specs.Strings.{word_string_laws};
ghost use Rattle.std.specs.Prelude.{refl};

use crate::bit::Bit;
use crate::element::Word;
use arithmetic::arithmetic::Arithmetic;

/// Word arithmetic: a coefficient keeps a symbol or wipes it out.
pub struct WordArithmetic;

impl Arithmetic for WordArithmetic {
    type Coef = Bit;

    type Sym = Word;

    ghost WIDTH = { 4 };

    const WIDTH: usize = 4;

    ghost operations = { word_operations };

    ghost bytes = { word_strings };

    ghost coefficients = { refl };

    ghost products = { refl };

    ghost symbols = { refl };

    ghost laws = { word_laws };

    ghost strings = { word_string_laws };

    ghost width = { refl };

    fn scale(c: Bit, x: Word) -> Word {
        match c {
            Bit::Off => Word::new(0),
            Bit::On => x,
        }
    }

    fn mark() -> Word {
        Word::new(1)
    }

    // Most significant byte first.
    fn to_bytes(x: Word) -> [u8; 4] {
        x.value().to_be_bytes()
    }

    fn from_bytes(four: [u8; 4]) -> Word {
        Word::new(u32::from_be_bytes(four))
    }
}
