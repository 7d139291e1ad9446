//! The calls that require a memory in kept form, each behind the test of it.
use arithmetic::arithmetic::Arithmetic;
use refusal::Refusal;
use rows::equations::Equations;
use rows::size::Size;
use solver::batch::BatchOutcome;
use solver::kept::is_kept;
use solver::move_on::move_on;
use solver::read::read;
use solver::take_in::take_in;
use std::error::Error;
use std::fmt;

// Why a call was not carried out.
#[derive(Clone, Copy, PartialEq, Eq, Debug)]
pub(crate) enum Fault {
    // The call before left a memory that is in no kept form.
    NotKept,
    Refused(Refusal),
}

impl fmt::Display for Fault {
    fn fmt<W: fmt::Write>(&self, f: &mut fmt::Formatter<W>) -> fmt::Result {
        match self {
            Fault::NotKept => write!(f, "the memory is not in kept form"),
            Fault::Refused(why) => {
                let number = why.number();
                write!(f, "refused with {number}")
            },
        }
    }
}

impl Error for Fault {}

impl From<Refusal> for Fault {
    fn from(why: Refusal) -> Fault {
        Fault::Refused(why)
    }
}

pub(crate) fn move_on_kept<A: Arithmetic>(
    size: &Size,
    coefficients: &mut [A::Coef],
    symbols: &mut [A::Sym],
    count: usize,
) -> Result<(), Fault> {
    if !is_kept::<A>(size, coefficients, symbols)? {
        return Err(Fault::NotKept);
    }
    move_on::<A>(size, coefficients, symbols, count)?;
    Ok(())
}

pub(crate) fn take_in_kept<A: Arithmetic>(
    size: &Size,
    coefficients: &mut [A::Coef],
    symbols: &mut [A::Sym],
    given: &Equations<A>,
    count: usize,
) -> Result<BatchOutcome, Fault> {
    if !is_kept::<A>(size, coefficients, symbols)? {
        return Err(Fault::NotKept);
    }
    Ok(take_in::<A>(size, coefficients, symbols, given, count)?)
}

pub(crate) fn read_kept<'m, A: Arithmetic>(
    size: &Size,
    coefficients: &[A::Coef],
    symbols: &'m [A::Sym],
    unknown: usize,
) -> Result<Option<&'m [A::Sym]>, Fault> {
    if !is_kept::<A>(size, coefficients, symbols)? {
        return Err(Fault::NotKept);
    }
    Ok(read::<A>(size, coefficients, symbols, unknown)?)
}
