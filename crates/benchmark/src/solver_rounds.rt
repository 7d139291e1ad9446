//! The calls of the solver, beside plain loops.
ghost use Rattle.std.specs.Prelude.{length};
ghost use Rattle.systems.specs.Kept.{Kept};
ghost use Rattle.rows.specs.Memory.{memory, Room};

use crate::arithmetics::Measured;
use crate::clock::Round;
use crate::numbers::{Checksum, Random};
use crate::plain::Plain;
use crate::plain_solver::copy;
use crate::report::Report;
use crate::states::{FIRST_LOST, Rows, as_equations, dense, equation, ones, refused};
use crate::{plain_solver, states};
use anyhow::bail;
use refusal::Refusal;
use rows::equations::Equations;
use rows::size::Size;
use solver::batch::BatchOutcome;
use solver::kept::is_kept;
use solver::move_on::move_on;
use solver::read::read;
use solver::take_in::take_in;
use solver::zero::write_zero;
use std::alloc::{AllocError, Global};
use std::rt::Clock;
use std::time::{Duration, Instant};

// A call on a memory.
#[derive(Clone, Copy)]
enum Call {
    IsKeptHalf,
    IsKeptLink,
    MoveOn,
    TakeInOnesHalf,
    TakeInOnesLink,
    TakeInDense,
    // Of each unknown before the lost ones.
    Read,
    WriteZero,
}

const CALLS: [Call; 8] = [
    Call::IsKeptHalf,
    Call::IsKeptLink,
    Call::MoveOn,
    Call::TakeInOnesHalf,
    Call::TakeInOnesLink,
    Call::TakeInDense,
    Call::Read,
    Call::WriteZero,
];

impl Call {
    fn name(self) -> &'static str {
        match self {
            Call::IsKeptHalf => "is_kept, half",
            Call::IsKeptLink => "is_kept, link",
            Call::MoveOn => "move_on by 2, half",
            Call::TakeInOnesHalf => "take_in of 4 ones, half",
            Call::TakeInOnesLink => "take_in of 4 ones, link",
            Call::TakeInDense => "take_in dense, half",
            Call::Read => "read, link",
            Call::WriteZero => "write_zero",
        }
    }

    // How often a round makes it.
    fn count(self) -> u64 {
        match self {
            Call::Read => FIRST_LOST as u64,
            _ => 1,
        }
    }
}

// By how many unknowns the memory moves on.
const MOVE: usize = 2;

// Makes a call of ours; answers what it did, as a number.
fn call_ours<A: Measured>(
    call: Call,
    size: &Size,
    coefficients: &mut [A::Coef],
    symbols: &mut [A::Sym],
    equations: &Equations<A>,
) -> Result<u32, Refusal>
    requires kept { let old = memory A.operations size.now coefficients.old symbols.old in
        Room size.now (length coefficients.old) (length symbols.old)
        → Kept A.operations size.now old }
{
    match call {
        Call::IsKeptHalf | Call::IsKeptLink => {
            Ok(u32::from(is_kept::<A>(size, coefficients, symbols)?))
        },
        Call::MoveOn => {
            move_on::<A>(size, coefficients, symbols, MOVE)?;
            Ok(0)
        },
        Call::TakeInOnesHalf | Call::TakeInOnesLink | Call::TakeInDense => {
            let outcome = take_in::<A>(size, coefficients, symbols, equations, 1)?;
            Ok(u32::from(outcome == BatchOutcome::Taken))
        },
        Call::Read => {
            let mut answer = 0;
            for unknown in 0..FIRST_LOST {
                if let Some([first, ..]) = read::<A>(size, coefficients, symbols, unknown)? {
                    answer ^= A::plain_symbol(*first).number();
                }
            }
            Ok(answer)
        },
        Call::WriteZero => {
            write_zero::<A>(size, coefficients, symbols)?;
            Ok(0)
        },
    }
}

// How long a call of ours took, and what it answered.
fn timed<A: Measured, R: Clock>(
    rt: &R,
    call: Call,
    size: &Size,
    coefficients: &mut [A::Coef],
    symbols: &mut [A::Sym],
    equations: &Equations<A>,
) -> anyhow::Result<(Duration, u32)> {
    let Ok(true) = is_kept::<A>(size, coefficients, symbols) else {
        bail!("the memory is not in kept form");
    };
    let start = Instant::now(rt)?;
    let answer = call_ours::<A>(call, size, coefficients, symbols, equations);
    let time = start.elapsed(rt)?;
    Ok((time, answer.map_err(refused)?))
}

// Makes the same call by plain loops.
fn call_loops<S: Plain>(
    call: Call,
    coefficients: &mut [u8],
    symbols: &mut [S],
    given: &Rows<u8, S>,
    work: &mut Rows<u8, S>,
) -> u32 {
    match call {
        Call::IsKeptHalf | Call::IsKeptLink => {
            u32::from(plain_solver::is_kept(coefficients, symbols))
        },
        Call::MoveOn => {
            plain_solver::move_on(coefficients, symbols, MOVE);
            0
        },
        Call::TakeInOnesHalf | Call::TakeInOnesLink | Call::TakeInDense => {
            let (equation, right) = (&mut work.coefficients, &mut work.symbols);
            copy(equation, &given.coefficients);
            copy(right, &given.symbols);
            u32::from(plain_solver::take_in(coefficients, symbols, equation, right))
        },
        Call::Read => {
            let mut answer = 0;
            for unknown in 0..FIRST_LOST {
                if let Some([first, ..]) = plain_solver::read(coefficients, symbols, unknown) {
                    answer ^= first.number();
                }
            }
            answer
        },
        Call::WriteZero => {
            plain_solver::write_zero(coefficients, symbols);
            0
        },
    }
}

// A call of ours, on a memory that starts as another does.
#[derive(Drop)]
struct Ours<'s, A: Measured> {
    call: Call,
    size: Size,
    start: &'s Rows<A::Coef, A::Sym>,
    given: &'s Rows<A::Coef, A::Sym>,
    memory: Rows<A::Coef, A::Sym>,
    answer: u32,
}

impl<A: Measured> Round for Ours<'_, A> {
    fn round<R: Clock>(&mut self, rt: &R) -> anyhow::Result<Duration> {
        let coefficients = self.memory.coefficients.as_mut_slice();
        let symbols = self.memory.symbols.as_mut_slice();
        copy(coefficients, self.start.coefficients.as_slice());
        copy(symbols, self.start.symbols.as_slice());
        let given = as_equations::<A>(self.given);
        let (time, answer) = timed::<A, R>(
            rt,
            self.call,
            &self.size,
            coefficients,
            symbols,
            &given,
        )?;
        self.answer = answer;
        Ok(time)
    }

    fn checksum(&self) -> u64 {
        let mut sum = Checksum::new();
        sum.add(self.answer);
        for c in self.memory.coefficients.iter() {
            sum.add(u32::from(A::plain_coefficient(*c)));
        }
        for x in self.memory.symbols.iter() {
            sum.add(A::plain_symbol(*x).number());
        }
        sum.value
    }
}

// The same by plain loops.
#[derive(Drop)]
struct Loops<S: Plain> {
    call: Call,
    start: Rows<u8, S>,
    given: Rows<u8, S>,
    memory: Rows<u8, S>,
    // An equation is worked on.
    work: Rows<u8, S>,
    answer: u32,
}

impl<S: Plain> Round for Loops<S> {
    fn round<R: Clock>(&mut self, rt: &R) -> anyhow::Result<Duration> {
        let coefficients = self.memory.coefficients.as_mut_slice();
        let symbols = self.memory.symbols.as_mut_slice();
        copy(coefficients, self.start.coefficients.as_slice());
        copy(symbols, self.start.symbols.as_slice());
        let start = Instant::now(rt)?;
        self.answer = call_loops(
            self.call,
            coefficients,
            symbols,
            &self.given,
            &mut self.work,
        );
        Ok(start.elapsed(rt)?)
    }

    fn checksum(&self) -> u64 {
        let mut sum = Checksum::new();
        sum.add(self.answer);
        for c in self.memory.coefficients.iter() {
            sum.add(u32::from(*c));
        }
        for x in self.memory.symbols.iter() {
            sum.add(x.number());
        }
        sum.value
    }
}

// The same rows as plain numbers.
fn plain_rows<A: Measured>(
    heap: Global,
    rows: &Rows<A::Coef, A::Sym>,
) -> Result<Rows<u8, A::Plain>, AllocError> {
    let mut coefficients = Vec::new(heap);
    for c in rows.coefficients.iter() {
        coefficients.push(A::plain_coefficient(*c))?;
    }
    let mut symbols = Vec::new(heap);
    for x in rows.symbols.iter() {
        symbols.push(A::plain_symbol(*x))?;
    }
    Ok(Rows {
        coefficients,
        symbols,
    })
}

// What the calls are made on, and what is taken in.
#[derive(Drop)]
struct Subjects<A: Measured> {
    size: Size,
    half: Rows<A::Coef, A::Sym>,
    link: Rows<A::Coef, A::Sym>,
    sparse: Rows<A::Coef, A::Sym>,
    dense: Rows<A::Coef, A::Sym>,
}

impl<A: Measured> Subjects<A> {
    fn new(heap: Global) -> anyhow::Result<Subjects<A>> {
        let mut random = Random::new(1);
        let size = states::size()?;
        let half = states::half::<A>(heap, &mut random, &size)?;
        let link = states::link::<A>(heap, &mut random, &size)?;
        let sparse = equation::<A>(heap, &mut random, &ones(&[20, 41, 64, 105]))?;
        let numbers = dense(&mut random, 0);
        let dense = equation::<A>(heap, &mut random, &numbers)?;
        Ok(Subjects {
            size,
            half,
            link,
            sparse,
            dense,
        })
    }

    // The memory that a call starts on.
    fn start(&self, call: Call) -> &Rows<A::Coef, A::Sym> {
        match call {
            Call::IsKeptLink | Call::TakeInOnesLink | Call::Read => &self.link,
            _ => &self.half,
        }
    }

    fn given(&self, call: Call) -> &Rows<A::Coef, A::Sym> {
        match call {
            Call::TakeInDense => &self.dense,
            _ => &self.sparse,
        }
    }

    fn ours(&self, heap: Global, call: Call) -> Result<Ours<'_, A>, AllocError> {
        let start = self.start(call);
        Ok(Ours {
            call,
            size: self.size,
            start,
            given: self.given(call),
            memory: Rows {
                coefficients: start.coefficients.as_slice().to_vec(heap)?,
                symbols: start.symbols.as_slice().to_vec(heap)?,
            },
            answer: 0,
        })
    }

    fn loops(&self, heap: Global, call: Call) -> Result<Loops<A::Plain>, AllocError> {
        let (start, given) = (self.start(call), self.given(call));
        Ok(Loops {
            call,
            start: plain_rows::<A>(heap, start)?,
            given: plain_rows::<A>(heap, given)?,
            memory: plain_rows::<A>(heap, start)?,
            work: plain_rows::<A>(heap, given)?,
            answer: 0,
        })
    }
}

/// Measures the calls of the solver in an arithmetic.
pub(crate) fn measure<A: Measured>(
    rt: &HostRuntime,
    report: &mut Report,
    arithmetic: &str,
) -> anyhow::Result<()> {
    let heap = rt.alloc();
    let subjects = Subjects::<A>::new(heap)?;
    for call in CALLS {
        let mut ours = subjects.ours(heap, call)?;
        let mut loops = subjects.loops(heap, call)?;
        report.measure(
            rt,
            arithmetic,
            call.name(),
            call.count(),
            &mut ours,
            &mut loops,
        )?;
    }
    Ok(())
}
