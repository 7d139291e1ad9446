//! The lines that are printed.
ghost use Rattle.std.specs.Prelude.{◌≡◌, IfOk, string_bytes};
ghost use Rattle.plan.specs.Numbers.{short_deadline_of, deadline_of};
ghost use Rattle.plan.specs.Codes.{plan_shape};
ghost use Rattle.linktext.specs.Lines.{text_of_plan, text_of_shape, text_of_slot, advice, text_of_refusal};

use arithmetic::arithmetic::Arithmetic;
use arithmetic::field::Field;
use codes::code::Code;
use hextext::write::write_packet;
use plan::Plan;
use refusal::Refusal;
use std::alloc::{AllocError, Global};

// A function and no `Display`, here and below: those need an arithmetic, a field or a line's number, which no `Display` takes.
/// The plan as it was handed in. An error, here and below, says that memory ran out.
pub fn plan_text(heap: Global, plan: &Plan) -> Result<String, AllocError>
    ensures { let p = plan.now in
        let shown = text_of_plan p.burst p.width p.stretch p.symbols p.arithmetic in
        IfOk result (λ s. string_bytes s ≡ shown) }
{
    let burst = plan.burst();
    let width = plan.width();
    let stretch = plan.stretch();
    let symbols = plan.symbols();
    let name = plan.arithmetic();
    format!(in heap; "plan B={burst} m={width} alpha={stretch} L={symbols} {name} arithmetic")
}

/// What follows from a plan: its deadlines, and the shape of its code over these coefficients.
pub fn shape_text<F: Field>(heap: Global, plan: &Plan) -> Result<String, AllocError>
    ensures { let p = plan.now in
        let short = short_deadline_of p.burst p.width in
        let long = deadline_of p.burst p.width p.stretch in
        let shape = plan_shape p.burst p.width p.stretch in
        IfOk result (λ s. string_bytes s ≡ text_of_shape short long shape) }
{
    let short = plan.short_deadline();
    let long = plan.deadline();
    let code = plan.code();
    let sources = Code::<F>::sources(&code);
    let parities = Code::<F>::parities(&code);
    let memory = Code::<F>::memory(&code);
    format!(in heap; "T={short} D={long} K={sources} P={parities} M={memory}")
}

// What is wrong with a line, and what would be right: the text depends on the line too, so it is no `Display` of the refusal.
fn advice_on(refusal: Refusal, line: u64) -> &'static str
    ensures { result.now ≡ advice refusal line }
{
    match refusal {
        Refusal::OutsideLimits => {
            if line == 1 {
                "a number is outside its limits: B is 1 to 63, m 1 to 8, alpha 1 to 8, L 1 to 32"
            } else {
                "the last slot of a link is 268435455: start another link"
            }
        }
        Refusal::UnfitShape =>
            "a packet has 1 to 8 sub-symbols, and a block 1 to 4 parities: choose another plan",
        Refusal::ShortMemory =>
            "the history is too short: it holds as many packets as the code's memory says",
        Refusal::OtherLength =>
            "the packet has another length than the plan's: m times L symbols, of 8 digits each for W and 2 for F",
        Refusal::ShortOutput => "the output is too short: it takes a whole block",
        Refusal::OtherShape =>
            "the frame's symbols have another width: compare the plan cards of truck and studio",
        Refusal::BrokenLine => {
            if line == 1 {
                "the first line is B m alpha L, decimal and without leading zeros, and W or F, one blank between, as in: 1 2 2 1 F"
            } else {
                "a packet is an even number of the digits 0 to 9 and a to f, and no line is longer than 2050 characters"
            }
        }
        Refusal::SlotBelow => "this slot was sent before: send the next one",
        Refusal::SlotAbove => "a slot was left out: send the next one first",
        Refusal::PacketBelow =>
            "the packet is older than all that are still kept: ask for it before the window has moved past it",
        Refusal::PacketAbove =>
            "the packet's slot is not settled yet: hand over its frame or report it lost first",
        Refusal::UnkeptMemory =>
            "the memory is not in the form that the receiver keeps: hand in the memory that the last call left",
        Refusal::Contradiction =>
            "the block contradicts what came before it: compare the plan cards of truck and studio",
    }
}

/// The line that ends a run: which refusal, of which line, and what to do.
pub fn refusal_text(heap: Global, refusal: Refusal, line: u64) -> Result<String, AllocError>
    ensures { IfOk result (λ s. string_bytes s ≡ text_of_refusal refusal line) }
{
    let number = refusal.number();
    let words = advice_on(refusal, line);
    format!(in heap; "refused {number} line {line}: {words}")
}

/// A slot with its packet and its parities.
pub fn slot_text<A: Arithmetic>(
    heap: Global,
    slot: u32,
    packet: &[A::Sym],
    parities: &[A::Sym],
) -> Result<String, AllocError>
    ensures { let shown = text_of_slot A.bytes slot packet.now parities.now in
        IfOk result (λ s. string_bytes s ≡ shown) }
{
    let mut text = format!(in heap; "slot {slot} packet ")?;
    write_packet::<A>(&mut text, packet)?;
    text.push_str(" parities ")?;
    write_packet::<A>(&mut text, parities)?;
    Ok(text)
}
