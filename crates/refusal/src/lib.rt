//! Why a call was refused. One closed list for the whole library, so that a caller can match on it.
#![tactic(auto)]

ghost use Rattle.std.specs.Prelude.{◌≡◌};
ghost use Rattle.refusal.specs.Number.{number_of};

/// Why a call was refused. A case may come to carry more than its number: so none is a bare number.
#[derive(Clone, Copy, PartialEq, Eq, Debug)]
pub enum Refusal {
    /// 1: a number that was handed in lies outside its limits.
    OutsideLimits,
    /// 2: a code whose packets have not 1 to 8 sub-symbols, or whose blocks not 1 to 4 parities.
    UnfitShape,
    /// 3: the memory that was lent is too short: a history, or the rows of a solver and the equations or symbols that it is handed.
    ShortMemory,
    /// 4: a packet or a coefficient table of another length than its code has, or a block of another than its shape says.
    OtherLength,
    /// 5: the output that was lent is too short.
    ShortOutput,
    /// 9: a frame of another shape than the call takes: another K, P or L, or another width of symbols.
    OtherShape,
    /// 10: a line of text that breaks its form, or no text at all.
    BrokenLine,
    /// 11: a slot that was passed already.
    SlotBelow,
    /// 12: a slot whose turn has not come yet.
    SlotAbove,
    /// 13: a packet older than all that are still kept.
    PacketBelow,
    /// 14: a packet of a slot that is not settled yet.
    PacketAbove,
    /// 15: a memory of equations that is not in the form in which it is kept.
    UnkeptMemory,
    /// 16: a block that contradicts what was accepted before it.
    Contradiction,
}

impl Refusal {
    /// The number that is printed and written in reports.
    pub fn number(self) -> u8
        ensures { result ≡ number_of self }
    {
        match self {
            Refusal::OutsideLimits => 1,
            Refusal::UnfitShape => 2,
            Refusal::ShortMemory => 3,
            Refusal::OtherLength => 4,
            Refusal::ShortOutput => 5,
            Refusal::OtherShape => 9,
            Refusal::BrokenLine => 10,
            Refusal::SlotBelow => 11,
            Refusal::SlotAbove => 12,
            Refusal::PacketBelow => 13,
            Refusal::PacketAbove => 14,
            Refusal::UnkeptMemory => 15,
            Refusal::Contradiction => 16,
        }
    }
}
