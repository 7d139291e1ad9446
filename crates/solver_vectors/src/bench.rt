//! A memory under test.
use crate::calls::{Fault, move_on_kept, read_kept, take_in_kept};
use crate::coefficients::{Written, read_symbols};
use anyhow::ensure;
use arithmetic::arithmetic::Arithmetic;
use arithmetic::field::Field;
use arithmetic::sum::Sum;
use hextext::write::write_packet;
use rows::equations::Equations;
use rows::size::Size;
use solver::batch::BatchOutcome;
use solver::zero::write_zero;
use std::alloc::{AllocError, Global};

// So many elements more than the rows need are lent, which no call may touch.
const BEHIND: usize = 5;

// A memory under test, and the equations that wait to be taken in.
#[derive(Drop)]
pub(crate) struct Bench<A: Arithmetic> {
    size: Size,
    coefficients: Vec<A::Coef>,
    symbols: Vec<A::Sym>,
    given_coefficients: Vec<A::Coef>,
    given_symbols: Vec<A::Sym>,
}

fn same<T: Sum>(some: &[T], others: &[T]) -> bool {
    some.len() == others.len() && some.iter().zip(others).all(|(x, y)| x.same(*y))
}

// Whether behind so many rows of this width there is still just the filling.
fn is_untouched<T: Sum>(items: &[T], rows: usize, width: usize, filling: T) -> bool {
    let behind = items.get(rows.saturating_mul(width)..).unwrap_or(&[]);
    behind.len() == BEHIND && behind.iter().all(|x| x.same(filling))
}

impl<A: Written> Bench<A> {
    // Whatever lay in memory before: a call that leaves out a place to be written is noticed.
    pub(crate) fn new(heap: Global, size: Size) -> Result<Bench<A>, AllocError> {
        let mut coefficients = Vec::new(heap);
        coefficients.resize(size.rows() * size.unknowns() + BEHIND, A::Coef::one())?;
        let mut symbols = Vec::new(heap);
        symbols.resize(size.rows() * size.symbols() + BEHIND, A::mark())?;
        Ok(Bench {
            size,
            coefficients,
            symbols,
            given_coefficients: Vec::new(heap),
            given_symbols: Vec::new(heap),
        })
    }

    pub(crate) fn is_waiting(&self) -> bool {
        !self.given_coefficients.is_empty()
    }

    fn check_behind(&self) -> anyhow::Result<()> {
        let (rows, n, l) = (self.size.rows(), self.size.unknowns(), self.size.symbols());
        ensure!(
            is_untouched(&self.coefficients, rows, n, A::Coef::one())
                && is_untouched(&self.symbols, rows, l, A::mark()),
            "what lies behind the memory was written to"
        );
        Ok(())
    }

    // The rows that say something.
    fn show(&self, found: &mut String) -> anyhow::Result<()> {
        self.check_behind()?;
        let rows = self.size.rows();
        let coefficients = self.coefficients.chunks_exact(self.size.unknowns());
        let symbols = self.symbols.chunks_exact(self.size.symbols());
        for (row, (coefficients, symbols)) in coefficients.zip(symbols).enumerate().take(rows) {
            let last = coefficients.iter().rposition(|c| !c.same(A::Coef::zero()));
            if last.is_none() && symbols.iter().all(|s| s.same(A::Sym::zero())) {
                continue;
            }
            write!(found, "row {row} ")?;
            let end = last.map_or(0, |last| last + 1);
            A::write_coefficients(found, &coefficients[..end])?;
            found.push(' ')?;
            write_packet::<A>(found, symbols)?;
            found.push('\n')?;
        }
        Ok(())
    }

    pub(crate) fn start(&mut self, found: &mut String) -> anyhow::Result<()> {
        write_zero::<A>(&self.size, &mut self.coefficients, &mut self.symbols).map_err(
            Fault::Refused,
        )?;
        found.push_str("started\n")?;
        self.show(found)
    }

    pub(crate) fn move_on(&mut self, count: usize, found: &mut String) -> anyhow::Result<()> {
        move_on_kept::<A>(&self.size, &mut self.coefficients, &mut self.symbols, count)?;
        found.push_str("moved\n")?;
        self.show(found)
    }

    // An equation that waits to be taken in.
    pub(crate) fn give(
        &mut self,
        heap: Global,
        coefficients: &str,
        symbols: &str,
    ) -> anyhow::Result<()> {
        let coefficients = A::read_coefficients(heap, coefficients)?;
        let symbols = read_symbols::<A>(heap, symbols)?;
        ensure!(
            coefficients.len() == self.size.unknowns() && symbols.len() == self.size.symbols(),
            "an equation of another size"
        );
        self.given_coefficients.extend_from_slice(&coefficients)?;
        self.given_symbols.extend_from_slice(&symbols)?;
        Ok(())
    }

    // Takes in the first of the equations that wait; the others must not count, and none waits any
    // longer.
    pub(crate) fn take_in(
        &mut self,
        heap: Global,
        count: usize,
        found: &mut String,
    ) -> anyhow::Result<()> {
        let coefficients = self.coefficients.as_slice().to_vec(heap)?;
        let symbols = self.symbols.as_slice().to_vec(heap)?;
        let given = Equations {
            coefficients: &self.given_coefficients,
            symbols: &self.given_symbols,
        };
        let batch = take_in_kept::<A>(
            &self.size,
            &mut self.coefficients,
            &mut self.symbols,
            &given,
            count,
        )?;
        self.given_coefficients.clear();
        self.given_symbols.clear();
        match batch {
            BatchOutcome::Taken => {
                found.push_str("taken\n")?;
                self.show(found)
            },
            BatchOutcome::Contradiction => {
                ensure!(
                    same(&self.coefficients, &coefficients) && same(&self.symbols, &symbols),
                    "a batch was given up, and something has changed"
                );
                found.push_str("contradiction\n")?;
                Ok(())
            },
        }
    }

    pub(crate) fn read(&self, found: &mut String) -> anyhow::Result<()> {
        for unknown in 0..self.size.unknowns() {
            write!(found, "unknown {unknown} ")?;
            match read_kept::<A>(&self.size, &self.coefficients, &self.symbols, unknown)? {
                Some(symbols) => write_packet::<A>(found, symbols)?,
                None => found.push_str("open")?,
            }
            found.push('\n')?;
        }
        Ok(())
    }
}
