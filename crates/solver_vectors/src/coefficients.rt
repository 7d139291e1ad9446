//! Coefficients and symbols as text.
use anyhow::bail;
use arithmetic::arithmetic::Arithmetic;
use byte::{Byte, ByteArithmetic};
use hextext::read::read_packet;
use hextext::write::write_bytes;
use std::alloc::{AllocError, Global};
use word::{Bit, WordArithmetic};

// Symbols as text, as the symbols of a packet are.
pub(crate) fn read_symbols<A: Arithmetic>(heap: Global, text: &str) -> anyhow::Result<Vec<A::Sym>> {
    match read_packet::<A>(heap, text.as_bytes()) {
        Ok(symbols) => Ok(symbols),
        Err(_) => bail!("{text:?} is not read as symbols"),
    }
}

// Coefficients as text: how depends on the arithmetic, of which no more is known here than its
// laws.
pub(crate) trait Written: Arithmetic {
    fn read_coefficients(heap: Global, text: &str) -> anyhow::Result<Vec<Self::Coef>>;

    fn write_coefficients(text: &mut String, coefficients: &[Self::Coef]) -> Result<(), AllocError>;
}

// A bit is a digit.
impl Written for WordArithmetic {
    fn read_coefficients(heap: Global, text: &str) -> anyhow::Result<Vec<Bit>> {
        let mut bits = Vec::new(heap);
        for digit in text.chars() {
            match digit {
                '0' => bits.push(Bit::Off)?,
                '1' => bits.push(Bit::On)?,
                _ => bail!("a coefficient is 0 or 1, and not {digit:?}"),
            }
        }
        Ok(bits)
    }

    fn write_coefficients(text: &mut String, coefficients: &[Bit]) -> Result<(), AllocError> {
        for bit in coefficients {
            text.push(match bit {
                Bit::Off => '0',
                Bit::On => '1',
            })?;
        }
        Ok(())
    }
}

// A byte is two digits, as it is as a symbol.
impl Written for ByteArithmetic {
    fn read_coefficients(heap: Global, text: &str) -> anyhow::Result<Vec<Byte>> {
        let symbols = read_symbols::<ByteArithmetic>(heap, text)?;
        let bytes = symbols.iter().map(|symbol| Byte::new(symbol.value()));
        Ok(bytes.collect(heap)?)
    }

    fn write_coefficients(text: &mut String, coefficients: &[Byte]) -> Result<(), AllocError> {
        for byte in coefficients {
            write_bytes(text, &[byte.value()])?;
        }
        Ok(())
    }
}
