//! The lines about the end of a link. No test sends as many packets as come before it, so the call
//! that decides on a line is asked.
use arithmetic::arithmetic::Arithmetic;
use byte::ByteArithmetic;
use hextext::error::ReadError;
use std::alloc::{AllocError, Global};
use std::test::Fail;
use transcript::reading::read_line;
use word::WordArithmetic;

// The number that a line is refused with in this slot, if it does not hand in a packet of two
// symbols.
fn refused<A: Arithmetic>(heap: Global, slot: u32, line: &str) -> Result<Option<u8>, AllocError> {
    match read_line::<A>(heap, line.as_bytes(), slot, 2) {
        Ok(_) => Ok(None),
        Err(ReadError::Refused(why)) => Ok(Some(why.number())),
        Err(ReadError::NoMemory) => Err(AllocError),
    }
}

// The form of a line comes first, then the slot, and the packet's length last.
#[test]
fn end_of_a_link(rt: HostRuntime) -> Result<(), Fail> {
    // The line in byte and in word arithmetic, and its number in the last slot and behind it.
    let cases = [
        ("0102", "0102030405060708", None, Some(1)),
        ("01", "01020304", Some(4), Some(1)),
        ("010203", "010203040506070809", Some(4), Some(1)),
        ("", "", Some(4), Some(1)),
        ("010", "010203040506070", Some(10), Some(10)),
        ("010g", "010203040506070g", Some(10), Some(10)),
        ("0", "0102030g", Some(10), Some(10)),
    ];
    let heap = rt.alloc();
    for (bytes, words, last, behind) in cases {
        for (slot, number) in [
            (268_435_455, last),
            (268_435_456, behind),
            (4_294_967_295, behind),
        ] {
            assert_eq!(rt;
                refused::<ByteArithmetic>(heap, slot, bytes)?,
                number,
                "{slot}: {bytes}"
            );
            assert_eq!(rt;
                refused::<WordArithmetic>(heap, slot, words)?,
                number,
                "{slot}: {words}"
            );
        }
    }
    Ok(())
}
