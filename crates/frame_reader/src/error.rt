//! Why a frame was not read.
ghost use Rattle.std.specs.Prelude.{◌≡◌};
ghost use Rattle.frame_reader.specs.ErrorNumber.{failure_of};
ghost use Rattle.frame_reader.specs.declared.error.ReadError.TheVariants.{Frame, Refused};

use layout::fault::FrameFault;
use refusal::Refusal;

/// Why a frame was not read, and which layer says so.
#[derive(Clone, Copy, PartialEq, Eq, Debug)]
pub enum ReadError {
    /// 6 to 8: the frame itself is at fault, in the word that its fault names.
    Frame(FrameFault),
    /// 9 or 5: it is a frame, but this call cannot take it.
    Refused(Refusal),
}

impl ReadError {
    // A case that holds another error takes no number of its own.
    /// The refusal's number, whichever layer it comes from.
    pub fn number(self) -> u8
        ensures { result ≡ (failure_of self).number }
    {
        match self {
            ReadError::Frame(fault) => fault.number(),
            ReadError::Refused(refusal) => refusal.number(),
        }
    }
}

// A frame's fault is handed on whole.
impl From<FrameFault> for ReadError {
    ghost from_gives = { λ fault error. error ≡ Frame fault };

    fn from(fault: FrameFault) -> Self {
        Self::Frame(fault)
    }
}

// And so is a refusal of the call.
impl From<Refusal> for ReadError {
    ghost from_gives = { λ refusal error. error ≡ Refused refusal };

    fn from(refusal: Refusal) -> Self {
        Self::Refused(refusal)
    }
}
