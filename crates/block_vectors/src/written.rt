//! Coefficients, symbols and refusals as text.
use anyhow::bail;
use arithmetic::arithmetic::Arithmetic;
use byte::{Byte, ByteArithmetic};
use hextext::read::read_packet;
use hextext::write::{write_bytes, write_packet};
use refusal::Refusal;
use std::alloc::{AllocError, Global};
use word::{Bit, WordArithmetic};

// Symbols as text, as the symbols of a packet are. None at all are a word too, so that a line has
// as many words as others of its kind.
pub(crate) fn read_symbols<A: Arithmetic>(heap: Global, text: &str) -> anyhow::Result<Vec<A::Sym>> {
    let digits = if text == "-" { "" } else { text };
    match read_packet::<A>(heap, digits.as_bytes()) {
        Ok(symbols) => Ok(symbols),
        Err(_) => bail!("{text:?} is not read as symbols"),
    }
}

pub(crate) fn write_symbols<A: Arithmetic>(
    text: &mut String,
    symbols: &[A::Sym],
) -> Result<(), AllocError> {
    if symbols.is_empty() {
        return text.push('-');
    }
    write_packet::<A>(text, symbols)
}

// A refusal is its number, on a line of its own.
pub(crate) fn write_refused(text: &mut String, why: Refusal) -> Result<(), AllocError> {
    let number = why.number();
    writeln!(text, "refused {number}")
}

// Coefficients as text: how depends on the arithmetic, of which no more is known here than its
// laws.
pub(crate) trait Written: Arithmetic {
    fn write_coefficient(text: &mut String, coefficient: Self::Coef) -> Result<(), AllocError>;
}

// A bit is a digit.
impl Written for WordArithmetic {
    fn write_coefficient(text: &mut String, coefficient: Bit) -> Result<(), AllocError> {
        text.push(match coefficient {
            Bit::Off => '0',
            Bit::On => '1',
        })
    }
}

// A byte is two digits.
impl Written for ByteArithmetic {
    fn write_coefficient(text: &mut String, coefficient: Byte) -> Result<(), AllocError> {
        write_bytes(text, &[coefficient.value()])
    }
}
