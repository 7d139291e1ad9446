//! The call that writes a block as a frame.
ghost use Rattle.std.specs.Prelude.{◌≡◌, length, IfOk, OnErr, OnOk};
ghost use Rattle.refusal.specs.Order.{refused_with};
ghost use Rattle.fills.specs.Over.{written_over};
ghost use Rattle.layout.specs.Frames.{BeginsWith, frame_of, words_of};
ghost use Rattle.frame_writer.specs.Writing.{write_refusal, NoOther};

use crate::frame::Frame;
use arithmetic::arithmetic::Arithmetic;
use codes::link::LAST_SLOT;
use layout::head::BlockShape;
use refusal::Refusal;

/// Writes the block's frame to the output's first bytes, and answers how many words it has. What
/// lies behind the frame stays.
///
/// Refuses a slot above the last one, or K, P or L outside its limits (1); a block that has not
/// (K+P)·L symbols (4); an output of fewer bytes than the frame (5).
pub fn write<A: Arithmetic>(
    slot: u32,
    shape: BlockShape,
    block: &[A::Sym],
    out: &mut [u8],
) -> Result<usize, Refusal>
    ensures refusal { refused_with result
        ≡ write_refusal A.bytes slot shape (length block.now) (length out.old) }
    ensures words { IfOk result (λ n. n ≡ words_of A.bytes slot shape) }
    ensures written { let frame = frame_of A.bytes slot shape block.now in
        OnOk result (out.new ≡ written_over frame out.old) }
    ensures begins { OnOk result (BeginsWith A.bytes out.new slot shape block.now) }
    ensures only { OnOk result (NoOther A.bytes slot shape block.now) }
    ensures unchanged { OnErr result (out.new ≡ out.old) }
{
    if slot > LAST_SLOT || shape.is_outside() {
        return Err(Refusal::OutsideLimits);
    }
    if block.len() != shape.symbol_count() as usize {
        return Err(Refusal::OtherLength);
    }
    let frame = Frame::<A>::new(slot, shape, block);
    let words = frame.word_count();
    if out.len() < 4 * words {
        return Err(Refusal::ShortOutput);
    }
    frame.write(out);
    Ok(words)
}
