//! Measures the calls of the library, each beside a plain loop that does the same job and has no
//! contract but safety. With the argument `times` it prints how long both take; without one just
//! the checksums of what both computed, which are the same on every machine.
#![tactic(auto)]

mod arithmetics;
mod clock;
mod numbers;
mod plain;
mod plain_sender;
mod plain_solver;
mod report;
mod sender_rounds;
mod solver_rounds;
mod states;

use anyhow::bail;
use byte::ByteArithmetic;
use clock::Effort;
use report::Report;
use std::env;
use std::process::ExitCode;
use word::WordArithmetic;

// What the arguments ask for.
fn effort(rt: &HostRuntime) -> anyhow::Result<Option<Effort>> {
    let mut arguments = env::args(rt)?.skip(1);
    let first = arguments.next();
    if arguments.next().is_some() {
        return Ok(None);
    }
    match first {
        None => Ok(Some(Effort::Once)),
        Some(word) if word.as_str() == "times" => Ok(Some(Effort::Times)),
        Some(_) => Ok(None),
    }
}

fn run(rt: &HostRuntime, effort: Effort) -> anyhow::Result<()> {
    let mut report = Report::new(rt, effort)?;
    solver_rounds::measure::<ByteArithmetic>(rt, &mut report, "byte")?;
    solver_rounds::measure::<WordArithmetic>(rt, &mut report, "word")?;
    sender_rounds::measure_plan::<ByteArithmetic>(rt, &mut report, "byte")?;
    sender_rounds::measure_plan::<WordArithmetic>(rt, &mut report, "word")?;
    sender_rounds::measure_table(rt, &mut report)?;
    if report.differing() > 0 {
        let count = report.differing();
        bail!("{count} measures differ");
    }
    Ok(())
}

fn main(rt: HostRuntime) -> anyhow::Result<ExitCode> {
    match effort(&rt)? {
        Some(effort) => {
            run(&rt, effort)?;
            Ok(ExitCode::SUCCESS)
        },
        None => {
            eprintln!(rt; "usage: benchmark [times]")?;
            Ok(ExitCode::from(2))
        },
    }
}
