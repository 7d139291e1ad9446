//! One word of a frame after the other: what is waited for, and what it says.
ghost use Rattle.std.specs.Prelude.{◌≡◌, ◌-◌, ◌%◌, ◌^◌, ◌≤◌, not, IfOk};
ghost use Rattle.layout.specs.FaultNumber.{faulted_with};
ghost use Rattle.layout.specs.Faults.{head_in_words, wrong_head, place_fault};
ghost use Rattle.frame_reader.specs.Steps.{next_from, place_of};

use layout::fault::FrameFault;
use layout::head::{BlockShape, Head};
use layout::words::{Kind, bits, kind_of};
use std::ops::ControlFlow;

// The word that is waited for, with what the words before it have said.
#[derive(Clone, Copy)]
pub(crate) enum Expected {
    Slot,
    Shape { slot: u32 },
    // So many bytes of the block are still to come, at least one.
    Data { head: Head, left: u32 },
    Count { head: Head },
}

// What the second word says, with the slot that the first one said.
// This and the next are no methods of `Head`: they would be public calls of `layout`, for the
// reader alone.
fn head_from(slot: u32, word: u32) -> Head
    ensures { result ≡ head_in_words slot word }
{
    let shape = BlockShape {
        sources: bits(word, 27, 24),
        parities: bits(word, 23, 20),
        symbols: bits(word, 15, 0),
    };
    Head {
        slot,
        shape,
        width: bits(word, 19, 16),
    }
}

// Whether K, P, L and the width are within their limits.
fn is_lawful(head: Head) -> bool
    ensures { not result ≡ wrong_head head }
{
    !head.shape.is_outside() && (head.width == 1 || head.width == 4)
}

// The bytes of a data word behind the first so many, as a number.
fn unused(word: u32, carried: u32) -> u32
    requires { carried ≤ 3 }
    ensures { result ≡ word % 256 ^ (3 - carried) }
{
    word & (0xff_ffff >> (8 * carried))
}

impl Expected {
    // What the word is at its place: at fault, or a step on to the next word, or out with what the
    // frame says. All in one match, on what is waited for and what is met together: a rule of this
    // project (docs/DECISIONS.md).
    pub(crate) fn follow(
        self,
        i: usize,
        word: u32,
    ) -> Result<ControlFlow<Head, Expected>, FrameFault>
        ensures fault { faulted_with result ≡ place_fault (place_of self i) i word }
        ensures next { IfOk result (λ s. s ≡ next_from self word) }
    {
        match (self, kind_of(word)) {
            (Expected::Slot, Some(Kind::Slot)) => Ok(ControlFlow::Continue(Expected::Shape {
                slot: bits(word, 27, 0),
            })),
            (Expected::Shape { slot }, Some(Kind::Shape)) => {
                let head = head_from(slot, word);
                if !is_lawful(head) {
                    return Err(FrameFault::WrongBits(i));
                }
                let left = head.shape.symbol_count() * head.width;
                Ok(ControlFlow::Continue(Expected::Data { head, left }))
            }
            (Expected::Data { head, left }, Some(Kind::Data)) => {
                let carried = left.min(3);
                if bits(word, 27, 24) != carried || unused(word, carried) != 0 {
                    return Err(FrameFault::WrongBits(i));
                }
                let next = if left > 3 {
                    Expected::Data {
                        head,
                        left: left - 3,
                    }
                } else {
                    Expected::Count { head }
                };
                Ok(ControlFlow::Continue(next))
            }
            (Expected::Count { head }, Some(Kind::Count)) => {
                if bits(word, 27, 0) as usize != i {
                    return Err(FrameFault::WrongBits(i));
                }
                Ok(ControlFlow::Break(head))
            }
            _ => Err(FrameFault::OtherKind(i)),
        }
    }
}
