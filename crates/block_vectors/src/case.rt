//! What comes of a case: its code is asked, and a sender of the code sends.
use crate::bench::Bench;
use crate::numbers::number;
use crate::written::{Written, write_refused};
use anyhow::{Context, bail};
use codes::code::Code;
use sender::sender::Sender;
use std::alloc::{AllocError, Global};

// What the code says of itself.
fn write_shape<A: Written, C: Code<A::Coef>>(
    code: &C,
    found: &mut String,
) -> Result<(), AllocError> {
    let (sources, parities, memory) = (code.sources(), code.parities(), code.memory());
    writeln!(found, "K={sources} P={parities} M={memory}")
}

// Asks the code for a coefficient.
fn ask<A: Written, C: Code<A::Coef>>(
    heap: Global,
    code: &C,
    line: &str,
    found: &mut String,
) -> anyhow::Result<()> {
    let words: Vec<&str> = line.split(' ').collect(heap)?;
    let ["c", parity, age, sub] = words.as_slice() else {
        bail!("no question");
    };
    let coefficient = code.coefficient(number(parity)?, number(age)?, number(sub)?);
    found.push_str("c ")?;
    A::write_coefficient(found, coefficient)?;
    found.push('\n')?;
    Ok(())
}

// Makes a sender of the code. That it is refused is an outcome too, with no sender.
fn make<A: Written, C: Code<A::Coef> + Drop>(
    heap: Global,
    code: C,
    line: &str,
    found: &mut String,
) -> anyhow::Result<Option<Bench<A, C>>> {
    let symbols = line.strip_prefix("sender ").context("no sender")?;
    match Sender::<A, C>::new(code, number(symbols)?) {
        Ok(sender) => {
            let bench = Bench::new(heap, sender);
            bench.write_sizes(found)?;
            Ok(Some(bench))
        },
        Err(why) => {
            write_refused(found, why)?;
            Ok(None)
        },
    }
}

// Does what each line says, and writes down what came of it. A sender owns its code, so the code is
// asked before one is made.
pub(crate) fn case<A: Written, C: Code<A::Coef> + Drop>(
    heap: Global,
    code: C,
    lines: &[&str],
) -> anyhow::Result<String> {
    let mut found = String::new(heap);
    write_shape::<A, C>(&code, &mut found)?;
    let asked = lines
        .iter()
        .position(|line| !line.starts_with("c "))
        .unwrap_or(lines.len());
    let (questions, others) = lines.split_at(asked);
    for line in questions {
        ask::<A, C>(heap, &code, line, &mut found).context(format_args!("{line:?}"))?;
    }
    let [line, steps @ ..] = others else {
        return Ok(found);
    };
    let made = make::<A, C>(heap, code, line, &mut found).context(format_args!("{line:?}"))?;
    let Some(mut bench) = made else {
        // Lines that nothing can carry out are a mistake in the file.
        if !steps.is_empty() {
            bail!("there is no sender, and it is to send");
        }
        return Ok(found);
    };
    for line in steps {
        bench
            .step(heap, line, &mut found)
            .context(format_args!("{line:?}"))?;
    }
    Ok(found)
}
