ghost use Rattle.std.specs.Prelude.{◌≡◌, ◌*◌, take, drop, IfOk, string_bytes};
ghost use Rattle.slotframe.specs.Shown.{slot_shown};

use crate::framed::show_frame;
use arithmetic::arithmetic::Arithmetic;
use frame_writer::frame::Frame;
use linktext::lines::slot_text;
use std::alloc::{AllocError, Global};

// Shows a slot's block: the packet that it begins with and its parities, and then its frame.
pub fn show_slot<A: Arithmetic>(heap: Global, frame: &Frame<A>) -> Result<String, AllocError>
    ensures { IfOk result (λ s. string_bytes s ≡ slot_shown A.Arithmetic.bytes frame.now.slot frame.now.shape (take (frame.now.shape.sources * frame.now.shape.symbols) frame.now.block.now) (drop (frame.now.shape.sources * frame.now.shape.symbols) frame.now.block.now)) }
{
    let shape = frame.shape;
    let (packet, parities) = frame
        .block
        .split_at((shape.sources * shape.symbols) as usize);
    let slot = slot_text::<A>(heap, frame.slot, packet, parities)?;
    let framed = show_frame::<A>(heap, frame)?;
    format!(in heap; "{slot}\n{framed}")
}
