//! Why a packet was not read.
ghost use Rattle.std.specs.Prelude.{◌≡◌};
ghost use Rattle.hextext.specs.declared.error.ReadError.TheVariants.{Refused, NoMemory};

use refusal::Refusal;
use std::alloc::{AllocError, AllocFailed};

/// Why a packet was not read: the text is at fault, or memory ran out.
#[derive(Clone, Copy, PartialEq, Eq, Debug)]
pub enum ReadError {
    /// The text is at fault, and for this reason.
    Refused(Refusal),
    /// The text is a packet, but there is no memory for its symbols.
    NoMemory,
}

impl From<Refusal> for ReadError {
    ghost from_gives = { λ why r. r ≡ Refused why };

    fn from(why: Refusal) -> ReadError {
        ReadError::Refused(why)
    }
}

impl From<AllocError> for ReadError {
    ghost from_gives = { λ _ r. r ≡ NoMemory };

    fn from(_e: AllocError) -> ReadError {
        ReadError::NoMemory
    }
}

impl<T: Drop> From<AllocFailed<T>> for ReadError {
    ghost from_gives = { λ _ r. r ≡ NoMemory };

    fn from(_e: AllocFailed<T>) -> ReadError {
        ReadError::NoMemory
    }
}
