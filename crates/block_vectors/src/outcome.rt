//! What comes of a case, whose first line says which code it is about.
use crate::case::case;
use crate::forms::{Form, NoCode};
use crate::numbers::Words;
use crate::written::{Written, write_refused};
use anyhow::{bail, ensure};
use byte::ByteArithmetic;
use codes::back_diagonal::BackDiagonal as Back;
use codes::code::Code;
use codes::main_diagonal::MainDiagonal as Main;
use codes::overlay::Overlay;
use codes::spread::Spread;
use std::alloc::Global;
use table::CoefficientTable as Table;
use word::WordArithmetic;

// The case of a code of this form. Where the code is refused that is all: nothing is asked of it.
fn of<A: Written, C: Form + Code<A::Coef>>(
    heap: Global,
    numbers: &[&str],
    lines: &[&str],
) -> anyhow::Result<String> {
    let mut numbers = Words::new(numbers);
    match C::read(heap, &mut numbers) {
        Ok(code) => {
            numbers.end()?;
            case::<A, C>(heap, code, lines)
        },
        Err(NoCode::Refused(why)) => {
            ensure!(lines.is_empty(), "there is no code, and it is asked");
            let mut found = String::new(heap);
            write_refused(&mut found, why)?;
            Ok(found)
        },
        Err(NoCode::Broken(why)) => Err(why.context("its numbers")),
    }
}

// Forms over words: a table has bytes as coefficients, so none of them has a table in it.
fn over_words(
    heap: Global,
    form: &str,
    numbers: &[&str],
    lines: &[&str],
) -> anyhow::Result<String> {
    type A = WordArithmetic;
    match form {
        "main" => of::<A, Main>(heap, numbers, lines),
        "back" => of::<A, Back>(heap, numbers, lines),
        "spread-main" => of::<A, Spread<Main>>(heap, numbers, lines),
        "spread-back" => of::<A, Spread<Back>>(heap, numbers, lines),
        "overlay-main-back" => of::<A, Overlay<Main, Back>>(heap, numbers, lines),
        "overlay-back-main" => of::<A, Overlay<Back, Main>>(heap, numbers, lines),
        "overlay-main-main" => of::<A, Overlay<Main, Main>>(heap, numbers, lines),
        "spread-overlay-main-back" => of::<A, Spread<Overlay<Main, Back>>>(heap, numbers, lines),
        "overlay-spread-main-back" => of::<A, Overlay<Spread<Main>, Back>>(heap, numbers, lines),
        "overlay-main-spread-back" => of::<A, Overlay<Main, Spread<Back>>>(heap, numbers, lines),
        "spread-spread-back" => of::<A, Spread<Spread<Back>>>(heap, numbers, lines),
        "overlay-overlay-main-back-main" => {
            of::<A, Overlay<Overlay<Main, Back>, Main>>(heap, numbers, lines)
        },
        _ => bail!("{form:?} is no form over words"),
    }
}

fn over_bytes(
    heap: Global,
    form: &str,
    numbers: &[&str],
    lines: &[&str],
) -> anyhow::Result<String> {
    type A = ByteArithmetic;
    match form {
        "main" => of::<A, Main>(heap, numbers, lines),
        "back" => of::<A, Back>(heap, numbers, lines),
        "table" => of::<A, Table>(heap, numbers, lines),
        "spread-main" => of::<A, Spread<Main>>(heap, numbers, lines),
        "spread-back" => of::<A, Spread<Back>>(heap, numbers, lines),
        "spread-table" => of::<A, Spread<Table>>(heap, numbers, lines),
        "overlay-main-back" => of::<A, Overlay<Main, Back>>(heap, numbers, lines),
        "overlay-table-table" => of::<A, Overlay<Table, Table>>(heap, numbers, lines),
        "overlay-table-back" => of::<A, Overlay<Table, Back>>(heap, numbers, lines),
        "overlay-main-table" => of::<A, Overlay<Main, Table>>(heap, numbers, lines),
        "overlay-back-table" => of::<A, Overlay<Back, Table>>(heap, numbers, lines),
        "spread-overlay-table-table" => {
            of::<A, Spread<Overlay<Table, Table>>>(heap, numbers, lines)
        },
        "overlay-spread-table-table" => {
            of::<A, Overlay<Spread<Table>, Table>>(heap, numbers, lines)
        },
        "overlay-table-spread-table" => {
            of::<A, Overlay<Table, Spread<Table>>>(heap, numbers, lines)
        },
        "spread-spread-table" => of::<A, Spread<Spread<Table>>>(heap, numbers, lines),
        "spread-spread-overlay-table-table" => {
            of::<A, Spread<Spread<Overlay<Table, Table>>>>(heap, numbers, lines)
        },
        "overlay-overlay-table-table-table" => {
            of::<A, Overlay<Overlay<Table, Table>, Table>>(heap, numbers, lines)
        },
        "spread-overlay-spread-table-table" => {
            of::<A, Spread<Overlay<Spread<Table>, Table>>>(heap, numbers, lines)
        },
        _ => bail!("{form:?} is no form over bytes"),
    }
}

// What comes of a case: its first line has its arithmetic and its code, and each further one is a
// question or a step.
pub(crate) fn outcome(heap: Global, handed_in: &str) -> anyhow::Result<String> {
    let lines: Vec<&str> = handed_in.lines().collect(heap)?;
    let [head, lines @ ..] = lines.as_slice() else {
        bail!("a case of no lines");
    };
    let words: Vec<&str> = head.split(' ').collect(heap)?;
    let ["code", letter, form, numbers @ ..] = words.as_slice() else {
        bail!("{head:?} has not an arithmetic and a form");
    };
    match *letter {
        "W" => over_words(heap, form, numbers, lines),
        "F" => over_bytes(heap, form, numbers, lines),
        _ => bail!("{letter:?} is no arithmetic"),
    }
}
