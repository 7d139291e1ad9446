//! Compares codes of every form, and what senders of them send, with what an independent program
//! computed: `data/README.md` says how.
#![tactic(auto)]

mod bench;
mod case;
mod forms;
mod numbers;
mod outcome;
mod written;

use anyhow::{Context, bail};
use outcome::outcome;
use std::fs;

// One answer of a case, counted from 0.
fn answer(answers: &str, at: usize) -> &str {
    answers.lines().nth(at).unwrap_or("no answer")
}

// How many answers agree before the first that differs.
fn agreeing(expected: &str, found: &str) -> usize {
    let pairs = expected.lines().zip(found.lines());
    pairs
        .take_while(|(expected, found)| expected == found)
        .count()
}

fn run(rt: &HostRuntime) -> anyhow::Result<()> {
    let vectors = fs::read_to_string(rt, "vectors.txt")?;
    let mut handed_in = String::new(rt.alloc());
    let mut expected = String::new(rt.alloc());
    // Counted, since a case is as many lines as it has.
    let mut cases: u32 = 0;
    for line in vectors.lines() {
        if let Some(text) = line.strip_prefix('<') {
            writeln!(handed_in, "{text}")?;
        } else if let Some(text) = line.strip_prefix('>') {
            writeln!(expected, "{text}")?;
        } else if line == "=" {
            let found = outcome(rt.alloc(), handed_in.as_str()).context(format_args!(
                "case {cases}"
            ))?;
            if found.as_str() != expected.as_str() {
                let at = agreeing(&expected, &found);
                let (expected, found) = (answer(&expected, at), answer(&found, at));
                eprintln!(rt; "expected: {expected}\nfound: {found}")?;
                bail!("case {cases} differs in answer {at}");
            }
            cases = cases.saturating_add(1);
            handed_in.clear();
            expected.clear();
        } else {
            bail!("a line begins with < or >, or is =, and not {line:?}");
        }
    }
    // A file that was cut off: the last case has no end.
    if !handed_in.is_empty() || !expected.is_empty() {
        bail!("case {cases} has no end");
    }
    println!(rt; "{cases} cases agree")?;
    Ok(())
}

fn main(rt: HostRuntime) -> anyhow::Result<()> {
    run(&rt)
}
