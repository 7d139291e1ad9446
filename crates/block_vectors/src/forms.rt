//! Codes made from numbers.
use crate::numbers::Words;
use crate::written::read_symbols;
use byte::ByteArithmetic;
use codes::back_diagonal::BackDiagonal;
use codes::main_diagonal::MainDiagonal;
use codes::overlay::Overlay;
use codes::spread::Spread;
use codes::step::Step;
use refusal::Refusal;
use std::alloc::Global;
use table::CoefficientTable;

// Why there is no code: it was refused, which is an outcome, or its numbers are broken, which is a
// mistake in the file.
#[derive(Drop)]
pub(crate) enum NoCode {
    Refused(Refusal),
    Broken(anyhow::Error),
}

impl From<Refusal> for NoCode {
    fn from(why: Refusal) -> NoCode {
        NoCode::Refused(why)
    }
}

impl From<anyhow::Error> for NoCode {
    fn from(why: anyhow::Error) -> NoCode {
        NoCode::Broken(why)
    }
}

// A form of codes. Its numbers stand as the parts of its word do: an overlay's delay before those
// of its first code and then those of its second, a spread's factor before those of its code.
// Numbers behind a part that is refused are not read.
pub(crate) trait Form: Drop {
    fn read(heap: Global, numbers: &mut Words) -> Result<Self, NoCode>;
}

// The bytes of a table.
fn read_bytes(heap: Global, text: &str) -> anyhow::Result<Vec<u8>> {
    let symbols = read_symbols::<ByteArithmetic>(heap, text)?;
    Ok(symbols.iter().map(|symbol| symbol.value()).collect(heap)?)
}

impl Form for MainDiagonal {
    fn read(_heap: Global, numbers: &mut Words) -> Result<MainDiagonal, NoCode> {
        Ok(MainDiagonal::new(numbers.number()?)?)
    }
}

impl Form for BackDiagonal {
    fn read(_heap: Global, numbers: &mut Words) -> Result<BackDiagonal, NoCode> {
        let width = numbers.number()?;
        let step = Step::new(numbers.number()?)?;
        Ok(BackDiagonal::new(width, step)?)
    }
}

impl Form for CoefficientTable {
    fn read(heap: Global, numbers: &mut Words) -> Result<CoefficientTable, NoCode> {
        let sources = numbers.number()?;
        let parities = numbers.number()?;
        let memory = numbers.number()?;
        let bytes = read_bytes(heap, numbers.word()?)?;
        Ok(CoefficientTable::new(sources, parities, memory, bytes)?)
    }
}

impl<X: Form> Form for Spread<X> {
    fn read(heap: Global, numbers: &mut Words) -> Result<Spread<X>, NoCode> {
        let step = Step::new(numbers.number()?)?;
        let code = X::read(heap, numbers)?;
        Ok(Spread { code, step })
    }
}

impl<X: Form, Y: Form> Form for Overlay<X, Y> {
    fn read(heap: Global, numbers: &mut Words) -> Result<Overlay<X, Y>, NoCode> {
        let delay = numbers.number()?;
        let first = X::read(heap, numbers)?;
        let second = Y::read(heap, numbers)?;
        Ok(Overlay {
            first,
            second,
            delay,
        })
    }
}
