//! Coefficients: the elements of the field.
ghost use Rattle.std.specs.Prelude.{◌≡◌, ◌<◌};

// `Word` and `ByteSymbol` have the same form. One generic type for all would have to stand below them, and `Field` could then not be implemented for it here.
/// A coefficient: an element of the field of 256 elements. The bits are the coefficients of a polynomial, the lowest that of 1.
#[derive(Clone, Copy, PartialEq, Eq, Debug)]
pub struct Byte {
    value: u8,
    ghost ok: { value < 256 },
}

impl Byte {
    /// The element whose bits are those of the byte.
    pub fn new(value: u8) -> Byte
        ensures { result.value ≡ value }
    {
        Byte { value }
    }

    /// The byte of the element.
    pub fn value(self) -> u8
        ensures { result ≡ self.value }
    {
        self.value
    }
}
