//! Frames and their words as text.
use frametext::frame::{frame_text, read_back_text};
use frametext::word::word_text;
use std::test::Fail;

// A word of each kind, and what an engineer may hold up besides: a kind that there is not, and a
// data word that says more bytes than it has.
#[test]
fn words(rt: HostRuntime) -> Result<(), Fail> {
    let cases = [
        (0x1fff_ffff, "word 7 1fffffff slot 268435455"),
        (0x2844_0020, "word 7 28440020 shape K=8 P=4 width=4 L=32"),
        (0x3305_0605, "word 7 33050605 data 3 bytes 050605"),
        (0x3104_0000, "word 7 31040000 data 1 bytes 04"),
        (0x3f01_0203, "word 7 3f010203 data 15 bytes 010203"),
        (0x3000_0000, "word 7 30000000 data 0 bytes "),
        (0x4000_0202, "word 7 40000202 count 514"),
        (0x0000_0001, "word 7 00000001 unknown kind 0"),
        (0xf000_0000, "word 7 f0000000 unknown kind 15"),
    ];
    for (word, line) in cases {
        let shown = word_text(rt.alloc(), 7, word)?;
        assert_eq!(rt; shown.as_str(), line);
    }
    Ok(())
}

// The bytes behind the last whole word are not shown.
#[test]
fn words_of_bytes(rt: HostRuntime) -> Result<(), Fail> {
    let shown = frame_text(rt.alloc(), b"\x10\x00\x00\x02\x22\x11\x00\x01\x33\x05\x06")?;
    assert_eq!(rt;
        shown.as_str(),
        "word 0 10000002 slot 2\nword 1 22110001 shape K=2 P=1 width=1 L=1\n"
    );
    Ok(())
}

#[test]
fn read_back(rt: HostRuntime) -> Result<(), Fail> {
    let same = read_back_text(rt.alloc(), 4, true)?;
    assert_eq!(rt; same.as_str(), "read back 4 words: the same block");
    let another = read_back_text(rt.alloc(), 515, false)?;
    assert_eq!(rt; another.as_str(), "read back 515 words: another block");
    Ok(())
}
