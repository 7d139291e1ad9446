//! The memories of a solver that are measured, made by the library's own calls.
use crate::arithmetics::Measured;
use crate::numbers::Random;
use anyhow::{anyhow, bail};
use arithmetic::sum::Sum;
use refusal::Refusal;
use rows::equations::Equations;
use rows::size::Size;
use solver::batch::BatchOutcome;
use solver::kept::is_kept;
use solver::move_on::move_on;
use solver::take_in::take_in;
use solver::zero::write_zero;
use std::alloc::{AllocError, Global};

pub(crate) const UNKNOWNS: u32 = 128;

pub(crate) const SPARE: u32 = 1;

pub(crate) const SYMBOLS: u32 = 32;

// The run of unknowns that a link has lost.
pub(crate) const FIRST_LOST: usize = 55;

const BEHIND_LOST: usize = 73;

/// The rows of a memory, or an equation.
#[derive(Drop)]
pub(crate) struct Rows<C: Copy, S: Copy> {
    pub(crate) coefficients: Vec<C>,
    pub(crate) symbols: Vec<S>,
}

/// Rows as equations that are handed in.
pub(crate) fn as_equations<A: Measured>(rows: &Rows<A::Coef, A::Sym>) -> Equations<'_, A> {
    Equations {
        coefficients: rows.coefficients.as_slice(),
        symbols: rows.symbols.as_slice(),
    }
}

pub(crate) fn refused(why: Refusal) -> anyhow::Error {
    let number = why.number();
    anyhow!("refused with {number}")
}

pub(crate) fn size() -> anyhow::Result<Size> {
    Size::new(UNKNOWNS, SPARE, SYMBOLS).map_err(refused)
}

pub(crate) fn random_symbols<A: Measured>(
    heap: Global,
    random: &mut Random,
    count: usize,
) -> Result<Vec<A::Sym>, AllocError> {
    let mut symbols = Vec::new(heap);
    for _ in 0..count {
        symbols.push(A::symbol(random.next_number()))?;
    }
    Ok(symbols)
}

/// An equation of these coefficients, with symbols at random.
pub(crate) fn equation<A: Measured>(
    heap: Global,
    random: &mut Random,
    numbers: &[u8],
) -> Result<Rows<A::Coef, A::Sym>, AllocError> {
    let mut coefficients = Vec::new(heap);
    for number in numbers {
        coefficients.push(A::coefficient(*number))?;
    }
    let symbols = random_symbols::<A>(heap, random, SYMBOLS as usize)?;
    Ok(Rows {
        coefficients,
        symbols,
    })
}

/// The coefficients of an equation that has ones at these unknowns.
pub(crate) fn ones(unknowns: &[usize]) -> [u8; 128] {
    let mut numbers = [0; 128];
    for unknown in unknowns {
        if let Some(number) = numbers.get_mut(*unknown) {
            *number = 1;
        }
    }
    numbers
}

/// Coefficients at random from an unknown on.
pub(crate) fn dense(random: &mut Random, first: usize) -> [u8; 128] {
    let mut numbers = [0; 128];
    for number in numbers.iter_mut().skip(first) {
        *number = random.next_byte();
    }
    numbers
}

// Takes in an equation that has to be news.
fn take<A: Measured>(
    size: &Size,
    coefficients: &mut [A::Coef],
    symbols: &mut [A::Sym],
    equations: &Equations<A>,
) -> anyhow::Result<()> {
    let Ok(true) = is_kept::<A>(size, coefficients, symbols) else {
        bail!("the memory is not in kept form");
    };
    match take_in::<A>(size, coefficients, symbols, equations, 1) {
        Ok(BatchOutcome::Taken) => Ok(()),
        Ok(BatchOutcome::Contradiction) => bail!("an equation contradicts those before it"),
        Err(why) => Err(refused(why)),
    }
}

// Makes a memory know nothing, by moving on by all unknowns.
fn forget<A: Measured>(
    size: &Size,
    coefficients: &mut [A::Coef],
    symbols: &mut [A::Sym],
) -> anyhow::Result<()> {
    write_zero::<A>(size, coefficients, symbols).map_err(refused)?;
    let Ok(true) = is_kept::<A>(size, coefficients, symbols) else {
        bail!("the memory is not in kept form");
    };
    move_on::<A>(size, coefficients, symbols, size.unknowns()).map_err(refused)
}

// A memory that knows nothing.
fn ignorant<A: Measured>(heap: Global, size: &Size) -> anyhow::Result<Rows<A::Coef, A::Sym>> {
    let (rows, n, l) = (size.rows(), size.unknowns(), size.symbols());
    let mut coefficients = Vec::new(heap);
    coefficients.resize(rows * n, A::Coef::zero())?;
    let mut symbols = Vec::new(heap);
    symbols.resize(rows * l, A::Sym::zero())?;
    forget::<A>(size, &mut coefficients, &mut symbols)?;
    Ok(Rows {
        coefficients,
        symbols,
    })
}

/// Every second unknown leads, and its row is filled.
pub(crate) fn half<A: Measured>(
    heap: Global,
    random: &mut Random,
    size: &Size,
) -> anyhow::Result<Rows<A::Coef, A::Sym>> {
    let mut memory = ignorant::<A>(heap, size)?;
    // The last one first, so that each equation still begins with its own when it is taken in.
    for count in (0..64_usize).rev() {
        let lead = 2 * count;
        let mut numbers = dense(random, lead);
        if let Some(number) = numbers.get_mut(lead) {
            *number = 1;
        }
        let given = equation::<A>(heap, random, &numbers)?;
        let (coefficients, symbols) = (&mut memory.coefficients, &mut memory.symbols);
        take::<A>(size, coefficients, symbols, &as_equations::<A>(&given))?;
    }
    Ok(memory)
}

/// All unknowns are known but those of one run.
pub(crate) fn link<A: Measured>(
    heap: Global,
    random: &mut Random,
    size: &Size,
) -> anyhow::Result<Rows<A::Coef, A::Sym>> {
    let mut memory = ignorant::<A>(heap, size)?;
    for unknown in 0..UNKNOWNS as usize {
        if unknown < FIRST_LOST || unknown >= BEHIND_LOST {
            let given = equation::<A>(heap, random, &ones(&[unknown]))?;
            let (coefficients, symbols) = (&mut memory.coefficients, &mut memory.symbols);
            take::<A>(size, coefficients, symbols, &as_equations::<A>(&given))?;
        }
    }
    Ok(memory)
}
