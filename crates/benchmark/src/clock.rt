//! How long something takes that is done over and over.
use std::rt::Clock;
use std::time::{Duration, Instant};

/// How often each call is made.
#[derive(Clone, Copy, PartialEq, Eq)]
pub(crate) enum Effort {
    /// Once, to compare what was computed.
    Once,
    /// So often that times can be told.
    Times,
}

/// A call that can be made over and over.
pub(crate) trait Round {
    // Makes it from the same state each time; answers how long the call alone took.
    fn round<R: Clock>(&mut self, rt: &R) -> anyhow::Result<Duration>;

    // Of all that it left behind and answered.
    fn checksum(&self) -> u64;
}

/// No call: how long the clock itself takes.
#[derive(Drop)]
pub(crate) struct Nothing;

impl Round for Nothing {
    fn round<R: Clock>(&mut self, rt: &R) -> anyhow::Result<Duration> {
        let start = Instant::now(rt)?;
        Ok(start.elapsed(rt)?)
    }

    fn checksum(&self) -> u64 {
        0
    }
}

// The rounds of a batch, and the batches of which the best counts.
const ROUNDS: u32 = 16;

const BATCHES: u32 = 100;

fn nanoseconds(time: Duration) -> u64 {
    u64::try_from(time.as_nanos()).unwrap_or(u64::MAX)
}

// Nanoseconds of a batch of rounds.
fn batch<R: Clock, W: Round>(rt: &R, work: &mut W) -> anyhow::Result<u64> {
    let mut total: u64 = 0;
    for _ in 0..ROUNDS {
        total = total.saturating_add(nanoseconds(work.round(rt)?));
    }
    Ok(total)
}

// Tenths of nanoseconds for each round of a batch.
fn tenths(batch: u64) -> u64 {
    batch.saturating_mul(10) / u64::from(ROUNDS)
}

/// Tenths of nanoseconds that a round of each takes in its best batch. The batches take turns, so
/// that both meet the same state of the machine.
pub(crate) fn best<R: Clock, X: Round, Y: Round>(
    rt: &R,
    some: &mut X,
    other: &mut Y,
) -> anyhow::Result<(u64, u64)> {
    let (mut least, mut other_least) = (u64::MAX, u64::MAX);
    for _ in 0..BATCHES {
        least = least.min(batch(rt, some)?);
        other_least = other_least.min(batch(rt, other)?);
    }
    Ok((tenths(least), tenths(other_least)))
}
