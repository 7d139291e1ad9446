//! What is printed of each measure.
use crate::clock::{Effort, Nothing, Round, best};
use anyhow::Context;
use std::rt::Clock;

/// The lines that are printed.
#[derive(Clone, Copy)]
pub(crate) struct Report {
    effort: Effort,
    // What the clock itself takes, in tenths of nanoseconds.
    clock: u64,
    differing: u32,
}

impl Report {
    pub(crate) fn new<R: Clock + Print>(rt: &R, effort: Effort) -> anyhow::Result<Report> {
        let mut clock = 0;
        if effort == Effort::Times {
            (clock, _) = best(rt, &mut Nothing, &mut Nothing)?;
            let (whole, part) = (clock / 10, clock % 10);
            println!(rt; "{whole}.{part} ns of the clock are taken off each time")?;
            println!(rt; "     ours     plain  ratio  checksum          ns a call")?;
        }
        Ok(Report {
            effort,
            clock,
            differing: 0,
        })
    }

    /// How many measures computed something else than their plain loops.
    pub(crate) fn differing(&self) -> u32 {
        self.differing
    }

    /// Measures a call over an arithmetic, made so many times in a round, beside its plain loop.
    pub(crate) fn measure<R: Clock + Print, X: Round, Y: Round>(
        &mut self,
        rt: &R,
        arithmetic: &str,
        name: &str,
        calls: u64,
        ours: &mut X,
        plain: &mut Y,
    ) -> anyhow::Result<()> {
        if self.effort == Effort::Times {
            let (ours, plain) = best(rt, ours, plain).context(name)?;
            let calls = calls.max(1);
            let ours = ours.saturating_sub(self.clock) / calls;
            let plain = plain.saturating_sub(self.clock) / calls;
            let ratio = ours.saturating_mul(10) / plain.max(1);
            let (ours, ours_part) = (ours / 10, ours % 10);
            let (plain, plain_part) = (plain / 10, plain % 10);
            let (ratio, ratio_part) = (ratio / 10, ratio % 10);
            print!(rt; "{ours:>7}.{ours_part} {plain:>7}.{plain_part} {ratio:>4}.{ratio_part}  ")?;
        } else {
            ours.round(rt).context(name)?;
            plain.round(rt).context(name)?;
        }
        let (checksum, other) = (ours.checksum(), plain.checksum());
        print!(rt; "{checksum:016x}  {arithmetic} {name}")?;
        if checksum != other {
            self.differing = self.differing.saturating_add(1);
            print!(rt; "  differ: the plain loop has {other:016x}")?;
        }
        println!(rt)?;
        Ok(())
    }
}
