//! The sending of a packet, beside a plain loop.
use crate::arithmetics::Measured;
use crate::clock::Round;
use crate::numbers::{Checksum, Random};
use crate::plain::Plain;
use crate::plain_sender;
use crate::plain_sender::Term;
use crate::plain_solver::copy;
use crate::report::Report;
use crate::states::{random_symbols, refused};
use arithmetic::combine::zeros;
use byte::ByteArithmetic;
use codes::code::Code;
use plan::{ArithmeticName, Plan, PlanCode};
use refusal::Refusal;
use sender::sender::Sender;
use std::alloc::{AllocError, Global};
use std::rt::Clock;
use std::time::{Duration, Instant};
use table::CoefficientTable;

// The symbols of a sub-symbol.
const SYMBOLS: usize = 32;

// The sends of a round, one after the other as on a link.
const SENDS: u32 = 16;

// Sends of ours, on a history that starts as another does.
#[derive(Drop)]
struct Ours<A: Measured, C: Code<A::Coef> + Drop> {
    sender: Sender<A, C>,
    start: Vec<A::Sym>,
    packet: Vec<A::Sym>,
    history: Vec<A::Sym>,
    block: Vec<A::Sym>,
}

impl<A: Measured, C: Code<A::Coef> + Drop> Ours<A, C> {
    // The history is that after many sends.
    fn new(heap: Global, sender: Sender<A, C>) -> anyhow::Result<Ours<A, C>> {
        let mut random = Random::new(2);
        let mut ours = Ours {
            start: Vec::new(heap),
            packet: Vec::new(heap),
            history: zeros::<A>(heap, sender.history_size())?,
            block: zeros::<A>(heap, sender.block_size())?,
            sender,
        };
        for _ in 0..100_u32 {
            ours.packet = random_symbols::<A>(heap, &mut random, ours.sender.packet_size())?;
            ours.send()?;
        }
        ours.start = ours.history.as_slice().to_vec(heap)?;
        ours.packet = random_symbols::<A>(heap, &mut random, ours.sender.packet_size())?;
        Ok(ours)
    }

    fn send(&mut self) -> anyhow::Result<()> {
        let slot = self.sender.next_slot();
        let packet = self.packet.as_slice();
        let sent = self
            .sender
            .send(slot, packet, &mut self.history, &mut self.block);
        sent.map_err(refused)
    }
}

impl<A: Measured, C: Code<A::Coef> + Drop> Round for Ours<A, C> {
    fn round<R: Clock>(&mut self, rt: &R) -> anyhow::Result<Duration> {
        copy(self.history.as_mut_slice(), self.start.as_slice());
        let start = Instant::now(rt)?;
        for _ in 0..SENDS {
            self.send()?;
        }
        Ok(start.elapsed(rt)?)
    }

    fn checksum(&self) -> u64 {
        let mut sum = Checksum::new();
        for x in self.block.iter() {
            sum.add(A::plain_symbol(*x).number());
        }
        for x in self.history.iter() {
            sum.add(A::plain_symbol(*x).number());
        }
        sum.value
    }
}

// The same by a plain loop.
#[derive(Drop)]
struct Loops<S: Plain> {
    terms: Vec<Term>,
    start: Vec<S>,
    packet: Vec<S>,
    // The history, and a packet behind it.
    recent: Vec<S>,
    block: Vec<S>,
}

impl<S: Plain> Round for Loops<S> {
    fn round<R: Clock>(&mut self, rt: &R) -> anyhow::Result<Duration> {
        copy(self.recent.as_mut_slice(), self.start.as_slice());
        let start = Instant::now(rt)?;
        for _ in 0..SENDS {
            plain_sender::send(
                self.terms.as_slice(),
                SYMBOLS,
                self.packet.as_slice(),
                self.recent.as_mut_slice(),
                self.block.as_mut_slice(),
            );
        }
        Ok(start.elapsed(rt)?)
    }

    fn checksum(&self) -> u64 {
        let mut sum = Checksum::new();
        for x in self.block.iter() {
            sum.add(x.number());
        }
        for x in self.recent.iter().take(self.start.len()) {
            sum.add(x.number());
        }
        sum.value
    }
}

fn plain_symbols<A: Measured>(
    heap: Global,
    symbols: &[A::Sym],
) -> Result<Vec<A::Plain>, AllocError> {
    let mut plain = Vec::new(heap);
    for x in symbols {
        plain.push(A::plain_symbol(*x))?;
    }
    Ok(plain)
}

fn measure_code<A: Measured, C: Code<A::Coef> + Drop>(
    rt: &HostRuntime,
    report: &mut Report,
    arithmetic: &str,
    name: &str,
    code: C,
    terms: Vec<Term>,
) -> anyhow::Result<()> {
    let heap = rt.alloc();
    let sender = Sender::<A, C>::new(code, SYMBOLS as u32).map_err(refused)?;
    let mut ours = Ours::new(heap, sender)?;
    let start = plain_symbols::<A>(heap, ours.start.as_slice())?;
    let packet = plain_symbols::<A>(heap, ours.packet.as_slice())?;
    let mut recent = start.as_slice().to_vec(heap)?;
    recent.extend_from_slice(packet.as_slice())?;
    let block = plain_symbols::<A>(heap, ours.block.as_slice())?;
    let mut loops = Loops {
        terms,
        start,
        packet,
        recent,
        block,
    };
    report.measure(
        rt,
        arithmetic,
        name,
        u64::from(SENDS),
        &mut ours,
        &mut loops,
    )
}

// The numbers of the plan whose code is measured.
const BURST: usize = 9;

const WIDTH: usize = 2;

const STRETCH: usize = 3;

fn plan_code() -> Result<PlanCode, Refusal> {
    Ok(Plan::new(9, 2, 3, 32, ArithmeticName::Byte)?.code())
}

// The coefficients of the plan's code that are not zero, by the two diagonals of docs/CODES.md.
fn plan_terms(heap: Global) -> Result<Vec<Term>, AllocError> {
    let memory = STRETCH * WIDTH * BURST + BURST;
    let mut terms = Vec::new(heap);
    for sub in 0..WIDTH {
        let main = BURST * (WIDTH - sub);
        let back = BURST * (WIDTH + 1 + (STRETCH - 1) * (sub + 1));
        for age in [main, back] {
            terms.push(Term {
                coefficient: 1,
                from: (memory.saturating_sub(age) * WIDTH + sub) * SYMBOLS,
                to: WIDTH * SYMBOLS,
            })?;
        }
    }
    Ok(terms)
}

/// Measures a sender of a plan's code in an arithmetic.
pub(crate) fn measure_plan<A: Measured>(
    rt: &HostRuntime,
    report: &mut Report,
    arithmetic: &str,
) -> anyhow::Result<()> {
    let heap = rt.alloc();
    let code = plan_code().map_err(refused)?;
    let name = "send, plan B=9 m=2 alpha=3";
    measure_code::<A, PlanCode>(rt, report, arithmetic, name, code, plan_terms(heap)?)
}

// The shape of the table that is measured.
const SOURCES: usize = 8;

const PARITIES: usize = 4;

const MEMORY: usize = 15;

/// Measures a sender of a table of coefficients of which none is zero.
pub(crate) fn measure_table(rt: &HostRuntime, report: &mut Report) -> anyhow::Result<()> {
    let heap = rt.alloc();
    let mut random = Random::new(3);
    let mut bytes = Vec::new(heap);
    let mut terms = Vec::new(heap);
    for parity in 0..PARITIES {
        for age in 0..=MEMORY {
            for sub in 0..SOURCES {
                let coefficient = random.next_byte().max(1);
                bytes.push(coefficient)?;
                terms.push(Term {
                    coefficient,
                    from: (MEMORY.saturating_sub(age) * SOURCES + sub) * SYMBOLS,
                    to: (SOURCES + parity) * SYMBOLS,
                })?;
            }
        }
    }
    let code = CoefficientTable::new(SOURCES as u32, PARITIES as u32, MEMORY as u32, bytes);
    let code = code.map_err(refused)?;
    let name = "send, table K=8 P=4 M=15";
    measure_code::<ByteArithmetic, CoefficientTable>(rt, report, "byte", name, code, terms)
}
