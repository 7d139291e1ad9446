//! What a link can carry.
ghost use Rattle.std.specs.Prelude.{◌≡◌};
ghost use Rattle.codes.specs.Shape.{unfit as unfit_spec};

use crate::code::Code;
use crate::limits::{Parities, Sources};
use arithmetic::field::Field;

// A number and no `Ranged`: each test of a slot is one comparison with it.
/// The last slot of a link.
pub const LAST_SLOT: u32 = 268_435_455;

/// Whether a link cannot carry the code: a packet has 1 to 8 sub-symbols, and a block 1 to 4 parities.
pub fn unfit<F: Field, C: Code<F>>(code: &C) -> bool
    ensures { result ≡ unfit_spec (C.shape code.now) }
{
    Sources::excludes(code.sources()) || Parities::excludes(code.parities())
}
