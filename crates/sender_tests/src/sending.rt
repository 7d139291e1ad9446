//! Sends that are accepted, and those that are refused.
use crate::zeros::Zeros;
use refusal::Refusal;
use sender::sender::Sender;
use std::process::Abort;
use word::{Word, WordArithmetic};

// What is lent to a send, and what it sends: as much of each as a case says, from its front.
const HISTORY: [u32; 9] = [1, 2, 3, 4, 5, 6, 7, 8, 9];

const OUT: [u32; 8] = [201, 202, 203, 204, 205, 206, 207, 208];

const PACKET: [u32; 5] = [101, 102, 103, 104, 105];

fn are(symbols: &[Word], values: &[u32]) -> bool {
    symbols.iter().map(|x| x.value()).eq(values.iter().copied())
}

// A sender whose packets have 4 symbols and whose blocks 6, behind so many sends.
fn sender_at(rt: &impl Abort, memory: u32, next: u32) -> Sender<WordArithmetic, Zeros> {
    let code = Zeros {
        sources: 2,
        parities: 1,
        memory,
    };
    let mut sender = Sender::<WordArithmetic, Zeros>::new(code, 2)
        .ok()
        .expect(rt, "a code and symbols within the limits");
    let packet = PACKET.map(Word::new);
    let mut history = HISTORY.map(Word::new);
    let mut out = OUT.map(Word::new);
    for slot in 0..next {
        let sent = sender.send(slot, &packet[..4], &mut history, &mut out);
        assert!(rt; sent.is_ok());
    }
    sender
}

// The packet is 101 to 104, and its parity zeros. What is lent behind the history and the block is
// left alone, as what is not lent is.
#[test]
fn accepted(rt: HostRuntime) {
    let one = [101, 102, 103, 104, 5, 6, 7, 8, 9];
    let two = [5, 6, 7, 8, 101, 102, 103, 104, 9];
    // M, the slot, the symbols of history and output, and the history afterwards.
    let cases = [
        (2, 0, 8, 6, two),
        (2, 3, 8, 6, two),
        (2, 0, 9, 6, two),
        (2, 3, 8, 7, two),
        (1, 3, 5, 8, one),
        // No history is kept, whatever is lent for it.
        (0, 0, 0, 6, HISTORY),
        (0, 3, 0, 7, HISTORY),
        (0, 0, 1, 6, HISTORY),
        (0, 3, 4, 6, HISTORY),
        (0, 3, 5, 7, HISTORY),
    ];
    for (memory, slot, h, o, history_after) in cases {
        let mut sender = sender_at(&rt, memory, slot);
        let packet = PACKET.map(Word::new);
        let mut history = HISTORY.map(Word::new);
        let mut out = OUT.map(Word::new);
        // What is lent is cut from these.
        assert!(rt; h <= 9 && o <= 8);
        let sent = sender.send(slot, &packet[..4], &mut history[..h], &mut out[..o]);
        assert!(rt; sent.is_ok(), "M={memory} slot {slot}: {h}, {o}");
        assert!(rt; sender.next_slot() == slot.wrapping_add(1));
        assert!(rt;
            are(&history, &history_after),
            "M={memory} slot {slot}: {h}"
        );
        assert!(rt; are(&out, &[101, 102, 103, 104, 0, 0, 207, 208]));
    }
}

// The first check that fails decides, and then nothing has changed. No slot can be below the next
// one and be above it or behind the last.
#[test]
fn refused(rt: HostRuntime) {
    // M, the next slot, the slot, the symbols of history, packet and output, and the number.
    let cases = [
        // One fault.
        (2, 3, 3, 7, 4, 6, 3),
        (2, 0, 0, 7, 4, 6, 3),
        (2, 3, 3, 0, 4, 6, 3),
        (2, 3, 3, 8, 3, 6, 4),
        (2, 3, 3, 8, 5, 6, 4),
        (2, 0, 0, 8, 0, 6, 4),
        (0, 0, 0, 0, 3, 6, 4),
        (0, 3, 3, 1, 5, 6, 4),
        (2, 3, 3, 8, 4, 5, 5),
        (2, 0, 0, 9, 4, 4, 5),
        (0, 3, 3, 0, 4, 5, 5),
        (2, 3, 2, 8, 4, 6, 11),
        (2, 3, 0, 8, 4, 6, 11),
        (0, 3, 2, 0, 4, 6, 11),
        (2, 3, 4, 8, 4, 6, 12),
        (2, 0, 1, 8, 4, 6, 12),
        (2, 3, 268_435_455, 8, 4, 6, 12),
        (0, 0, 1, 1, 4, 6, 12),
        // Two faults. A slot behind the last is above the next one too; that it is refused alone is
        // among the worked examples.
        (2, 3, 268_435_456, 8, 4, 6, 1),
        (2, 0, 268_435_456, 8, 4, 6, 1),
        (2, 3, 4_294_967_295, 8, 4, 6, 1),
        (2, 3, 268_435_456, 7, 4, 6, 1),
        (2, 3, 268_435_456, 8, 3, 6, 1),
        (2, 3, 268_435_456, 8, 5, 6, 1),
        (2, 3, 268_435_456, 8, 4, 5, 1),
        (2, 3, 3, 7, 3, 6, 3),
        (2, 3, 3, 7, 5, 6, 3),
        (2, 3, 3, 7, 4, 5, 3),
        (2, 3, 2, 7, 4, 6, 3),
        (2, 3, 4, 7, 4, 6, 3),
        (2, 3, 3, 8, 3, 5, 4),
        (2, 3, 3, 8, 5, 5, 4),
        (2, 3, 2, 8, 3, 6, 4),
        (2, 3, 2, 8, 5, 6, 4),
        (2, 3, 4, 8, 3, 6, 4),
        (2, 3, 4, 8, 5, 6, 4),
        (2, 3, 2, 8, 4, 5, 5),
        (2, 3, 4, 8, 4, 5, 5),
    ];
    for (memory, next, slot, h, p, o, number) in cases {
        let mut sender = sender_at(&rt, memory, next);
        let packet = PACKET.map(Word::new);
        let mut history = HISTORY.map(Word::new);
        let mut out = OUT.map(Word::new);
        // What is lent is cut from these.
        assert!(rt; h <= 9 && p <= 5 && o <= 8);
        let sent = sender.send(slot, &packet[..p], &mut history[..h], &mut out[..o]);
        assert!(rt;
            sent.err().map(Refusal::number) == Some(number),
            "M={memory} slot {slot} at {next}: {h}, {p}, {o}"
        );
        assert!(rt; sender.next_slot() == next);
        assert!(rt; are(&history, &HISTORY) && are(&out, &OUT));
    }
}
