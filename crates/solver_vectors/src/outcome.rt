//! What comes of a system.
use crate::bench::Bench;
use crate::coefficients::Written;
use anyhow::{Context, bail};
use byte::ByteArithmetic;
use rows::size::Size;
use std::alloc::Global;
use std::str::Lines;
use word::WordArithmetic;

fn number(text: &str) -> anyhow::Result<u32> {
    text.parse::<u32>()
        .context(format_args!("{text:?} is no number"))
}

// Does what one line says, and writes down what came of it.
fn step<A: Written>(
    heap: Global,
    bench: &mut Bench<A>,
    line: &str,
    found: &mut String,
) -> anyhow::Result<()> {
    let words: Vec<&str> = line.split(' ').collect(heap)?;
    match words.as_slice() {
        ["start"] => bench.start(found),
        ["move", count] => bench.move_on(number(count)? as usize, found),
        ["given", coefficients, symbols] => bench.give(heap, coefficients, symbols),
        ["take", count] => bench.take_in(heap, number(count)? as usize, found),
        ["read"] => bench.read(found),
        _ => bail!("{line:?} is no step"),
    }
}

fn steps<A: Written>(heap: Global, size: Size, lines: Lines) -> anyhow::Result<String> {
    let mut bench = Bench::<A>::new(heap, size)?;
    let mut found = String::new(heap);
    for line in lines {
        step(heap, &mut bench, line, &mut found)?;
    }
    // Equations that no batch takes are a mistake in the file.
    if bench.is_waiting() {
        bail!("equations were given that nothing takes in");
    }
    Ok(found)
}

// What comes of a system: its first line has its arithmetic and its size, and each further one is a
// step.
pub(crate) fn outcome(heap: Global, handed_in: &str) -> anyhow::Result<String> {
    let mut lines = handed_in.lines();
    let head = lines.next().context("a system of no lines")?;
    let words: Vec<&str> = head.split(' ').collect(heap)?;
    let [letter, unknowns, spare, symbols] = words.as_slice() else {
        bail!("{head:?} has not an arithmetic and three numbers");
    };
    let Ok(size) = Size::new(number(unknowns)?, number(spare)?, number(symbols)?) else {
        bail!("{head:?} has a number outside its limits");
    };
    match *letter {
        "W" => steps::<WordArithmetic>(heap, size, lines),
        "F" => steps::<ByteArithmetic>(heap, size, lines),
        _ => bail!("{letter:?} is no arithmetic"),
    }
}
