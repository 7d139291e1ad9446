//! A link's whole text.
ghost use Rattle.std.specs.Prelude.{◌≡◌, [], ◌∷◌, ◌++◌, IfOk, string_bytes};
ghost use Rattle.plan.specs.Codes.{plan_link};
ghost use Rattle.linktext.specs.Fields.{lines_of};
ghost use Rattle.transcript.specs.Printed.{Printed};
ghost use Rattle.transcript.specs.Transcript.{PrintedIn, Transcript as TranscriptOf, heading};

use crate::lines::Lines;
use crate::link::Link;
use crate::refusing::with_refusal;
use arithmetic::arithmetic::Arithmetic;
use byte::{Byte, ByteArithmetic};
use linktext::lines::{plan_text, shape_text};
use linktext::plan_line::read_plan;
use plan::{ArithmeticName, Plan, PlanCode};
use refusal::Refusal;
use sender::sender::Sender;
use std::alloc::{AllocError, Global};
use word::WordArithmetic;

// The two lines on the plan.
fn plan_heading(heap: Global, plan: &Plan) -> Result<String, AllocError>
    ensures { IfOk result (λ s. string_bytes s ≡ heading plan.now) }
{
    let handed_in = plan_text(heap, plan)?;
    let follows = shape_text::<Byte>(heap, plan)?;
    format!(in heap; "{handed_in}\n{follows}\n")
}

// Sends the packets of a plan's link, a line each, from slot 0 on a history of zeros.
fn send_packets<A: Arithmetic>(
    heap: Global,
    plan: &Plan,
    lines: Lines<'_>,
) -> Result<String, AllocError>
    ensures { let lines = lines_of lines.entry.rest.now in
        let link = plan_link A.operations plan.now in
        IfOk result (λ s. Printed link A.bytes lines (string_bytes s)) }
{
    let sender = Sender::<A, PlanCode>::new(plan.code(), plan.symbols()).unwrap();
    Link::<A, PlanCode>::new(heap, sender)?.answer_lines(lines)
}

// The packets, sent in the arithmetic that the plan names: the same call at another type.
fn send_in(heap: Global, plan: &Plan, lines: Lines<'_>) -> Result<String, AllocError>
    ensures { let lines = lines_of lines.entry.rest.now in
        IfOk result (λ s. PrintedIn plan.now.arithmetic plan.now lines (string_bytes s)) }
{
    match plan.arithmetic() {
        ArithmeticName::Word => send_packets::<WordArithmetic>(heap, plan, lines),
        ArithmeticName::Byte => send_packets::<ByteArithmetic>(heap, plan, lines),
    }
}

/// What is printed for a link's text: the plan, and slot by slot what the stream of the text's packets sends, each packet with its
/// parities and its frame, up to the end or the first line that is refused. An error says that memory ran out.
pub fn transcript(heap: Global, text: &[u8]) -> Result<String, AllocError>
    ensures { IfOk result (λ s. TranscriptOf (lines_of text.now) (string_bytes s)) }
{
    let mut lines = Lines::new(text);
    let first = lines.next().ok_or(Refusal::BrokenLine);
    let plan = match first.and_then(read_plan) {
        Ok(plan) => plan,
        Err(why) => return with_refusal(heap, String::new(heap), why, 1),
    };
    let mut out = plan_heading(heap, &plan)?;
    out.push_str(send_in(heap, &plan, lines)?.as_str())?;
    Ok(out)
}
