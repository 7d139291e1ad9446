ghost use Rattle.std.specs.Prelude.{◌≡◌, Decides};

use arithmetic::arithmetic::Arithmetic;
use arithmetic::sum::Sum;
use frame_reader::read::Found;
use frame_writer::frame::Frame;

// Whether these are the same symbols, one by one.
fn same_symbols<A: Arithmetic>(read: &[A::Sym], sent: &[A::Sym]) -> bool
    ensures { Decides result (read.now ≡ sent.now) }
{
    read.len() == sent.len() && read.iter().zip(sent).all(|(x, y)| x.same(*y))
}

// Whether what was read is the frame's block: of its slot and its shape, and with its symbols.
pub(crate) fn is_same<A: Arithmetic>(frame: &Frame<A>, found: Found, read: &[A::Sym]) -> bool
    ensures { Decides result ((found.slot ≡ frame.now.slot) × ((found.shape ≡ frame.now.shape) × (read.now ≡ frame.now.block.now))) }
{
    found.slot == frame.slot && found.shape == frame.shape && same_symbols::<A>(read, frame.block)
}
