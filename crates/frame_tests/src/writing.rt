//! Blocks that are written as frames.
use byte::{ByteArithmetic, ByteSymbol};
use frame_writer::write::write;
use layout::head::BlockShape;
use refusal::Refusal;

fn shape(sources: u32, parities: u32, symbols: u32) -> BlockShape {
    BlockShape {
        sources,
        parities,
        symbols,
    }
}

// Packet 5, 6 with parity 5, in slot 2. What lies behind the frame stays.
#[test]
fn one_frame(rt: HostRuntime) {
    let block = [ByteSymbol::new(5), ByteSymbol::new(6), ByteSymbol::new(5)];
    let mut out = [0xee; 18];
    let words = write::<ByteArithmetic>(2, shape(2, 1, 1), &block, &mut out);
    assert!(rt; words == Ok(4));
    assert!(rt;
        out == *b"\x10\x00\x00\x02\x22\x11\x00\x01\x33\x05\x06\x05\x40\x00\x00\x03\xee\xee"
    );
}

// Five bytes: the last data word carries two, and its last byte is zero.
#[test]
fn last_word(rt: HostRuntime) {
    let block = [
        ByteSymbol::new(1),
        ByteSymbol::new(2),
        ByteSymbol::new(3),
        ByteSymbol::new(4),
        ByteSymbol::new(5),
    ];
    let mut out = [0xee; 20];
    let words = write::<ByteArithmetic>(268_435_455, shape(4, 1, 1), &block, &mut out);
    assert!(rt; words == Ok(5));
    assert!(rt;
        out == *b"\x1f\xff\xff\xff\x24\x11\x00\x01\x33\x01\x02\x03\x32\x04\x05\x00\x40\x00\x00\x04"
    );
}

// Nothing is written where a call is refused; the checks run in rising order.
#[test]
fn refused(rt: HostRuntime) {
    let cases = [
        (268_435_456, shape(2, 1, 1), Refusal::OutsideLimits),
        (0, shape(0, 1, 1), Refusal::OutsideLimits),
        (0, shape(9, 1, 1), Refusal::OutsideLimits),
        (0, shape(2, 0, 1), Refusal::OutsideLimits),
        (0, shape(2, 5, 1), Refusal::OutsideLimits),
        (0, shape(2, 1, 0), Refusal::OutsideLimits),
        (0, shape(2, 1, 33), Refusal::OutsideLimits),
        (0, shape(1, 1, 1), Refusal::OtherLength),
        (0, shape(2, 2, 1), Refusal::OtherLength),
        (0, shape(2, 1, 1), Refusal::ShortOutput),
    ];
    let block = [ByteSymbol::new(5), ByteSymbol::new(6), ByteSymbol::new(5)];
    for (slot, shape, why) in cases {
        let mut out = [0xee; 15];
        let words = write::<ByteArithmetic>(slot, shape, &block, &mut out);
        assert!(rt; words == Err(why));
        assert!(rt; out == [0xee; 15]);
    }
}
