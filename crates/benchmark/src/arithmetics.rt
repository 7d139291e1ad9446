//! What is measured in both arithmetics, and how a plain loop has the same numbers.
use crate::plain::Plain;
use arithmetic::arithmetic::Arithmetic;
use byte::{Byte, ByteArithmetic, ByteSymbol};
use word::{Bit, Word, WordArithmetic};

/// An arithmetic whose elements are made of numbers and become plain ones.
pub(crate) trait Measured: Arithmetic {
    type Plain: Plain;

    fn coefficient(number: u8) -> Self::Coef;

    fn symbol(number: u32) -> Self::Sym;

    fn plain_coefficient(c: Self::Coef) -> u8;

    fn plain_symbol(x: Self::Sym) -> Self::Plain;
}

impl Measured for ByteArithmetic {
    type Plain = u8;

    fn coefficient(number: u8) -> Byte {
        Byte::new(number)
    }

    fn symbol(number: u32) -> ByteSymbol {
        let [.., last] = number.to_be_bytes();
        ByteSymbol::new(last)
    }

    fn plain_coefficient(c: Byte) -> u8 {
        c.value()
    }

    fn plain_symbol(x: ByteSymbol) -> u8 {
        x.value()
    }
}

impl Measured for WordArithmetic {
    type Plain = u32;

    // Half of the numbers are even.
    fn coefficient(number: u8) -> Bit {
        if number % 2 == 0 { Bit::Off } else { Bit::On }
    }

    fn symbol(number: u32) -> Word {
        Word::new(number)
    }

    fn plain_coefficient(c: Bit) -> u8 {
        match c {
            Bit::Off => 0,
            Bit::On => 1,
        }
    }

    fn plain_symbol(x: Word) -> u32 {
        x.value()
    }
}
