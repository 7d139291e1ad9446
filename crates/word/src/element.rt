//! Symbols: words of 32 bits.
ghost use Rattle.std.specs.Prelude.{◌≡◌, ◌^◌, ◌<◌};

// `Byte` has the same form: what is said there of one type for all holds here.
/// A symbol of 32 bits.
#[derive(Clone, Copy, PartialEq, Eq, Debug)]
pub struct Word {
    value: u32,
    ghost ok: { value < 2 ^ 32 },
}

impl Word {
    /// The word of a number.
    pub fn new(value: u32) -> Word
        ensures { result.value ≡ value }
    {
        Word { value }
    }

    /// The number of the word.
    pub fn value(self) -> u32
        ensures { result ≡ self.value }
    {
        self.value
    }
}
