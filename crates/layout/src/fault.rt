//! What can be wrong with a frame.
ghost use Rattle.std.specs.Prelude.{◌≡◌};
ghost use Rattle.layout.specs.FaultNumber.{fault_of};

/// What is wrong with a frame first, and in which of its words, counted from 0. Whoever is handed a
/// frame can hand this on whole.
#[derive(Clone, Copy, PartialEq, Eq, Debug)]
pub enum FrameFault {
    /// 6: the frame ends before this word, or within it.
    EndsEarly(usize),
    /// 7: the word is of another kind than its place has.
    OtherKind(usize),
    /// 8: the kind is right, and other bits are wrong.
    WrongBits(usize),
}

impl FrameFault {
    // Told here, since a case that holds a word takes no number of its own.
    /// The refusal's number: 6, 7 or 8.
    pub fn number(self) -> u8
        ensures { result ≡ (fault_of self).number }
    {
        match self {
            FrameFault::EndsEarly(_) => 6,
            FrameFault::OtherKind(_) => 7,
            FrameFault::WrongBits(_) => 8,
        }
    }

    /// The word at fault, counted from 0.
    pub fn word(self) -> usize
        ensures { result ≡ (fault_of self).word }
    {
        match self {
            FrameFault::EndsEarly(word)
            | FrameFault::OtherKind(word)
            | FrameFault::WrongBits(word) => word,
        }
    }
}
