ghost use Rattle.std.specs.Prelude.{◌≡◌, true, Decides, IfOk, string_bytes};
ghost use Rattle.layout.specs.Frames.{BeginsWith, words_of};
ghost use Rattle.slotframe.specs.Shown.{framed_text};

use crate::compare::is_same;
use arithmetic::arithmetic::Arithmetic;
use arithmetic::combine::zeros;
use frame_reader::read::read;
use frame_writer::frame::Frame;
use frame_writer::write::write;
use frametext::frame::{frame_text, read_back_text};
use std::alloc::{AllocError, Global};

// What came of reading bytes as a frame: how many words it took, and whether that gave the block that was framed.
#[derive(Clone, Copy)]
struct ReadBack {
    words: usize,
    same: bool,
}

// Reads these bytes back as the block's frame. The contract speaks of any bytes, so that it cannot be kept without reading them.
fn read_back<A: Arithmetic>(
    heap: Global,
    frame: &Frame<A>,
    bytes: &[u8],
) -> Result<ReadBack, AllocError>
    ensures same { IfOk result (λ r. Decides r.same (BeginsWith A.Arithmetic.bytes bytes.now frame.now.slot frame.now.shape frame.now.block.now)) }
    ensures words { IfOk result (λ r. r.same ≡ true → r.words ≡ words_of A.Arithmetic.bytes frame.now.slot frame.now.shape) }
{
    let mut block = zeros::<A>(heap, frame.block.len())?;
    let Ok(found) = read::<A>(bytes, &mut block) else {
        return Ok(ReadBack {
            words: 0,
            same: false,
        });
    };
    let same = is_same::<A>(frame, found, &block);
    Ok(ReadBack {
        words: found.words,
        same,
    })
}

// Writes a frame, shows it word by word, and reads its block back.
pub(crate) fn show_frame<A: Arithmetic>(
    heap: Global,
    frame: &Frame<A>,
) -> Result<String, AllocError>
    ensures { IfOk result (λ s. string_bytes s ≡ framed_text A.Arithmetic.bytes frame.now.slot frame.now.shape frame.now.block.now) }
{
    let mut bytes = vec![in heap; 0; 4 * frame.word_count()]?;
    write::<A>(frame.slot, frame.shape, frame.block, &mut bytes).unwrap();
    let shown = frame_text(heap, &bytes)?;
    let back = read_back::<A>(heap, frame, &bytes)?;
    let got = read_back_text(heap, back.words, back.same)?;
    format!(in heap; "{shown}{got}")
}
