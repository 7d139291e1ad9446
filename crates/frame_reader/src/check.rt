//! The call that tells whether bytes begin with a frame.
ghost use Rattle.std.specs.Prelude.{◌≡◌, IfOk};
ghost use Rattle.layout.specs.FaultNumber.{faulted_with};
ghost use Rattle.layout.specs.Faults.{frame_fault};
ghost use Rattle.frame_reader.specs.Checking.{AcceptsFrames, Framed};

use crate::steps::Expected;
use layout::fault::FrameFault;
use layout::head::Head;
use std::ops::ControlFlow;

/// A frame without fault: what it says, and how many words it has.
#[derive(Clone, Copy, PartialEq, Eq, Debug)]
pub struct Checked {
    /// The slot, the shape, and the bytes of a symbol.
    pub head: Head,
    /// The words of the frame; bytes behind them do not count.
    pub words: usize,
}

/// What the frame says that the bytes begin with, of whatever width its symbols are. Bytes behind
/// the frame are not read.
///
/// Where they begin with no frame, it answers what is wrong with the first word that is at fault:
/// the bytes end before it, or within it (6); it is of another kind than its place has (7); or other
/// bits of it are wrong (8).
pub fn check(bytes: &[u8]) -> Result<Checked, FrameFault>
    ensures fault { faulted_with result ≡ frame_fault bytes.now }
    ensures framed { IfOk result (Framed bytes.now) }
    ensures exactly { AcceptsFrames bytes.now result }
{
    let (words, _) = bytes.as_chunks::<4>();
    let mut expected = Expected::Slot;
    for (i, word) in words.iter().enumerate() {
        match expected.follow(i, u32::from_be_bytes(*word))? {
            ControlFlow::Continue(next) => expected = next,
            ControlFlow::Break(head) => return Ok(Checked { head, words: i + 1 }),
        }
    }
    Err(FrameFault::EndsEarly(words.len()))
}
