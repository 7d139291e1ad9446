//! Compares what the solver makes of many systems of equations with what an independent program
//! computed: `data/README.md` says how.
#![tactic(auto)]

mod bench;
mod calls;
mod coefficients;
mod outcome;
#[cfg(test)]
mod tests;

use anyhow::{Context, bail};
use outcome::outcome;
use std::fs;

fn run(rt: &HostRuntime) -> anyhow::Result<()> {
    let vectors = fs::read_to_string(rt, "vectors.txt")?;
    let mut handed_in = String::new(rt.alloc());
    let mut expected = String::new(rt.alloc());
    // Counted, since a system is as many lines as it has.
    let mut systems: u32 = 0;
    for line in vectors.lines() {
        if let Some(text) = line.strip_prefix('<') {
            writeln!(handed_in, "{text}")?;
        } else if let Some(text) = line.strip_prefix('>') {
            writeln!(expected, "{text}")?;
        } else if line == "=" {
            let found = outcome(rt.alloc(), handed_in.as_str()).context(format_args!(
                "system {systems}"
            ))?;
            if found.as_str() != expected.as_str() {
                eprintln!(rt; "expected:\n{expected}found:\n{found}")?;
                bail!("system {systems} differs");
            }
            systems = systems.saturating_add(1);
            handed_in.clear();
            expected.clear();
        } else {
            bail!("a line begins with < or >, or is =, and not {line:?}");
        }
    }
    // A file that was cut off: the last system has no end.
    if !handed_in.is_empty() || !expected.is_empty() {
        bail!("system {systems} has no end");
    }
    println!(rt; "{systems} systems agree")?;
    Ok(())
}

fn main(rt: HostRuntime) -> anyhow::Result<()> {
    run(&rt)
}
