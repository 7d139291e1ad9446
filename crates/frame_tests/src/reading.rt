//! Frames that are read, whole and damaged.
use byte::{ByteArithmetic, ByteSymbol};
use frame_reader::error::ReadError;
use frame_reader::read::{Found, read};
use frame_writer::write::write;
use layout::fault::FrameFault;
use layout::head::BlockShape;
use refusal::Refusal;
use std::test::Fail;
use word::{Word, WordArithmetic};

// The refusal's number and the word of damaged frames; the output stays as it was.
#[test]
fn damaged_frames(rt: HostRuntime) -> Result<(), Fail> {
    let cases: [(&[u8], u8, usize); 38] = [
        // The frame ends early, before a word or within one.
        (b"", 6, 0),
        (b"\x10\x00\x00", 6, 0),
        (b"\x10\x00\x00\x02", 6, 1),
        (b"\x10\x00\x00\x02\x22\x11\x00", 6, 1),
        (b"\x10\x00\x00\x02\x22\x11\x00\x01", 6, 2),
        (b"\x10\x00\x00\x02\x22\x11\x00\x01\x33\x05\x06\x05", 6, 3),
        (
            b"\x10\x00\x00\x02\x22\x11\x00\x01\x33\x05\x06\x05\x40\x00\x00",
            6,
            3,
        ),
        (b"\x10\x00\x00\x02\x24\x11\x00\x01\x33\x01\x02\x03", 6, 3),
        // A word of another kind than its place has.
        (
            b"\x00\x00\x00\x02\x22\x11\x00\x01\x33\x05\x06\x05\x40\x00\x00\x03",
            7,
            0,
        ),
        (
            b"\x20\x00\x00\x02\x22\x11\x00\x01\x33\x05\x06\x05\x40\x00\x00\x03",
            7,
            0,
        ),
        (
            b"\xf0\x00\x00\x02\x22\x11\x00\x01\x33\x05\x06\x05\x40\x00\x00\x03",
            7,
            0,
        ),
        (
            b"\x10\x00\x00\x02\x32\x11\x00\x01\x33\x05\x06\x05\x40\x00\x00\x03",
            7,
            1,
        ),
        (b"\x10\x00\x00\x02\x22\x11\x00\x01\x40\x00\x00\x02", 7, 2),
        (
            b"\x10\x00\x00\x02\x22\x11\x00\x01\x53\x05\x06\x05\x40\x00\x00\x03",
            7,
            2,
        ),
        (
            b"\x10\x00\x00\x02\x22\x11\x00\x01\x33\x05\x06\x05\x31\x05\x00\x00",
            7,
            3,
        ),
        (
            b"\x10\x00\x00\x02\x22\x11\x00\x01\x33\x05\x06\x05\x50\x00\x00\x03",
            7,
            3,
        ),
        // K, P, the width or L outside its limits.
        (
            b"\x10\x00\x00\x02\x20\x11\x00\x01\x33\x05\x06\x05\x40\x00\x00\x03",
            8,
            1,
        ),
        (
            b"\x10\x00\x00\x02\x29\x11\x00\x01\x33\x05\x06\x05\x40\x00\x00\x03",
            8,
            1,
        ),
        (
            b"\x10\x00\x00\x02\x22\x01\x00\x01\x33\x05\x06\x05\x40\x00\x00\x03",
            8,
            1,
        ),
        (
            b"\x10\x00\x00\x02\x22\x51\x00\x01\x33\x05\x06\x05\x40\x00\x00\x03",
            8,
            1,
        ),
        (
            b"\x10\x00\x00\x02\x22\x10\x00\x01\x33\x05\x06\x05\x40\x00\x00\x03",
            8,
            1,
        ),
        (
            b"\x10\x00\x00\x02\x22\x12\x00\x01\x33\x05\x06\x05\x40\x00\x00\x03",
            8,
            1,
        ),
        (
            b"\x10\x00\x00\x02\x22\x15\x00\x01\x33\x05\x06\x05\x40\x00\x00\x03",
            8,
            1,
        ),
        (
            b"\x10\x00\x00\x02\x22\x11\x00\x00\x33\x05\x06\x05\x40\x00\x00\x03",
            8,
            1,
        ),
        (
            b"\x10\x00\x00\x02\x22\x11\x00\x21\x33\x05\x06\x05\x40\x00\x00\x03",
            8,
            1,
        ),
        // A data word that says another number of bytes than its place carries.
        (
            b"\x10\x00\x00\x02\x22\x11\x00\x01\x30\x05\x06\x05\x40\x00\x00\x03",
            8,
            2,
        ),
        (
            b"\x10\x00\x00\x02\x22\x11\x00\x01\x32\x05\x06\x00\x40\x00\x00\x03",
            8,
            2,
        ),
        (
            b"\x10\x00\x00\x02\x22\x11\x00\x01\x34\x05\x06\x05\x40\x00\x00\x03",
            8,
            2,
        ),
        (
            b"\x10\x00\x00\x02\x24\x11\x00\x01\x32\x01\x02\x00\x33\x03\x04\x05\x40\x00\x00\x04",
            8,
            2,
        ),
        (
            b"\x10\x00\x00\x02\x24\x11\x00\x01\x33\x01\x02\x03\x33\x04\x05\x00\x40\x00\x00\x04",
            8,
            3,
        ),
        // An unused byte that is not zero.
        (
            b"\x10\x00\x00\x02\x24\x11\x00\x01\x33\x01\x02\x03\x32\x04\x05\x06\x40\x00\x00\x04",
            8,
            3,
        ),
        (
            b"\x10\x00\x00\x02\x23\x11\x00\x01\x33\x01\x02\x03\x31\x04\x05\x00\x40\x00\x00\x04",
            8,
            3,
        ),
        (
            b"\x10\x00\x00\x02\x23\x11\x00\x01\x33\x01\x02\x03\x31\x04\x00\x05\x40\x00\x00\x04",
            8,
            3,
        ),
        // A count of other words than those before it.
        (
            b"\x10\x00\x00\x02\x22\x11\x00\x01\x33\x05\x06\x05\x40\x00\x00\x02",
            8,
            3,
        ),
        (
            b"\x10\x00\x00\x02\x22\x11\x00\x01\x33\x05\x06\x05\x40\x00\x00\x04",
            8,
            3,
        ),
        (
            b"\x10\x00\x00\x02\x22\x11\x00\x01\x33\x05\x06\x05\x48\x00\x00\x03",
            8,
            3,
        ),
        // Of several faults the first word's counts.
        (b"\x10\x00\x00\x02\x29\x11\x00\x01", 8, 1),
        (b"\x20\x00\x00\x02\x29\x11\x00\x01\x33", 7, 0),
    ];
    for (bytes, number, word) in cases {
        let mut out = [ByteSymbol::new(0xee); 5];
        let Err(ReadError::Frame(fault)) = read::<ByteArithmetic>(bytes, &mut out) else {
            return Err(Fail::new("a damaged frame is not found at fault"));
        };
        assert_eq!(rt; fault.number(), number);
        assert_eq!(rt; fault.word(), word);
        assert!(rt; out == [ByteSymbol::new(0xee); 5]);
    }
    Ok(())
}

// A frame is read, with other bytes behind it; the output behind the block stays as it was.
#[test]
fn one_frame(rt: HostRuntime) {
    let mut out = [ByteSymbol::new(0xee); 4];
    let answer = read::<ByteArithmetic>(
        b"\x10\x00\x00\x02\x22\x11\x00\x01\x33\x05\x06\x05\x40\x00\x00\x03\xff\xff",
        &mut out,
    );
    let shape = BlockShape {
        sources: 2,
        parities: 1,
        symbols: 1,
    };
    assert!(rt;
        answer
            == Ok(Found {
                slot: 2,
                shape,
                words: 4,
            })
    );
    assert!(rt;
        out == [
            ByteSymbol::new(5),
            ByteSymbol::new(6),
            ByteSymbol::new(5),
            ByteSymbol::new(0xee)
        ]
    );
}

// A frame of words of four bytes is refused where symbols are single bytes, whatever the output
// holds; but a fault of the frame comes first.
#[test]
fn other_width(rt: HostRuntime) {
    let frame: &[u8] =
        b"\x10\x00\x00\x07\x21\x14\x00\x01\x33\x01\x02\x03\x33\x04\x05\x06\x32\x07\x08\x00\x40\x00\x00\x05";
    let mut none: [ByteSymbol; 0] = [];
    let answer = read::<ByteArithmetic>(frame, &mut none);
    assert!(rt; answer == Err(ReadError::Refused(Refusal::OtherShape)));
    assert_eq!(rt; ReadError::Refused(Refusal::OtherShape).number(), 9);
    assert!(rt;
        read::<ByteArithmetic>(&frame[..23], &mut none)
            == Err(ReadError::Frame(FrameFault::EndsEarly(5)))
    );
    let mut words = [Word::new(0); 2];
    assert!(rt; read::<WordArithmetic>(frame, &mut words).is_ok());
    assert!(rt; words == [Word::new(0x0102_0304), Word::new(0x0506_0708)]);
}

// An output of one symbol less than the block is too short, and stays as it was.
#[test]
fn short_output(rt: HostRuntime) {
    let mut out = [ByteSymbol::new(0xee); 2];
    let answer = read::<ByteArithmetic>(
        b"\x10\x00\x00\x02\x22\x11\x00\x01\x33\x05\x06\x05\x40\x00\x00\x03",
        &mut out,
    );
    assert!(rt; answer == Err(ReadError::Refused(Refusal::ShortOutput)));
    assert_eq!(rt; ReadError::Refused(Refusal::ShortOutput).number(), 5);
    assert!(rt; out == [ByteSymbol::new(0xee); 2]);
}

// Words with differing bytes.
fn many_words() -> [Word; 384] {
    let mut words = [Word::new(0); 384];
    for i in 0..384_u32 {
        words[i as usize] = Word::new(i.wrapping_mul(2_654_435_761));
    }
    words
}

// The largest block: 384 words of four bytes, in a frame of 515 words.
#[test]
fn largest_frame(rt: HostRuntime) {
    let shape = BlockShape {
        sources: 8,
        parities: 4,
        symbols: 32,
    };
    let block = many_words();
    let mut frame = [0; 2060];
    assert!(rt; write::<WordArithmetic>(3, shape, &block, &mut frame) == Ok(515));
    assert!(rt; frame.starts_with(b"\x10\x00\x00\x03\x28\x44\x00\x20"));
    assert!(rt; frame.ends_with(b"\x40\x00\x02\x02"));
    let mut back = [Word::new(0); 384];
    let answer = read::<WordArithmetic>(&frame, &mut back);
    assert!(rt;
        answer
            == Ok(Found {
                slot: 3,
                shape,
                words: 515,
            })
    );
    assert!(rt; back == block);
}
