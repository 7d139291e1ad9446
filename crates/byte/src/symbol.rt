//! Symbols of one byte: they have sums, and nothing else.
ghost use Rattle.std.specs.Prelude.{◌≡◌, ◌<◌};

/// A symbol of one byte. It can be added to others and scaled by a coefficient, and has no product of its own.
/// Whatever arithmetic has such symbols, a packet of them is the same bytes.
#[derive(Clone, Copy, PartialEq, Eq, Debug)]
pub struct ByteSymbol {
    value: u8,
    ghost ok: { value < 256 },
}

impl ByteSymbol {
    /// The symbol of a byte.
    pub fn new(value: u8) -> ByteSymbol
        ensures { result.value ≡ value }
    {
        ByteSymbol { value }
    }

    /// The byte of the symbol.
    pub fn value(self) -> u8
        ensures { result ≡ self.value }
    {
        self.value
    }
}
