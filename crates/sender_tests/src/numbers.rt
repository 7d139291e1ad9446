//! The numbers of all refusals.
use layout::fault::FrameFault;
use refusal::Refusal;

#[test]
fn refusals(rt: HostRuntime) {
    let cases = [
        (Refusal::OutsideLimits, 1),
        (Refusal::UnfitShape, 2),
        (Refusal::ShortMemory, 3),
        (Refusal::OtherLength, 4),
        (Refusal::ShortOutput, 5),
        (Refusal::OtherShape, 9),
        (Refusal::BrokenLine, 10),
        (Refusal::SlotBelow, 11),
        (Refusal::SlotAbove, 12),
        (Refusal::PacketBelow, 13),
        (Refusal::PacketAbove, 14),
        (Refusal::UnkeptMemory, 15),
        (Refusal::Contradiction, 16),
    ];
    for (refusal, number) in cases {
        assert_eq!(rt; refusal.number(), number, "{refusal:?}");
    }
}

// A fault of a frame has the word beside its number, also where the two could be taken for each other.
#[test]
fn faults(rt: HostRuntime) {
    let cases = [
        (FrameFault::EndsEarly(0), 6, 0),
        (FrameFault::EndsEarly(7), 6, 7),
        (FrameFault::OtherKind(8), 7, 8),
        (FrameFault::WrongBits(6), 8, 6),
    ];
    for (fault, number, word) in cases {
        assert_eq!(rt; fault.number(), number, "{fault:?}");
        assert_eq!(rt; fault.word(), word, "{fault:?}");
    }
}
