use linktext::lines::refusal_text;
use refusal::Refusal;
use std::alloc::Global;
use std::process::Abort;
use std::test::Fail;
use transcript::whole::transcript;

// The last line that is printed begins so; the words behind it say what to do.
fn last_line(rt: &impl Abort, heap: Global, text: &str, start: &str) -> Result<(), Fail> {
    let shown = transcript(heap, text.as_bytes())?;
    match shown.as_str().lines().last() {
        Some(line) => {
            assert!(rt; line.starts_with(start), "{}", start);
            Ok(())
        },
        None => Err(Fail::new("nothing was printed")),
    }
}

#[test]
fn six_packets(rt: HostRuntime) -> Result<(), Fail> {
    let shown = transcript(rt.alloc(), b"1 2 2 1 F\n0102\n0304\n0506\n0708\n090a\n0b0c")?;
    assert_eq!(rt;
        shown.as_str(),
        "plan B=1 m=2 alpha=2 L=1 byte arithmetic\nT=2 D=5 K=2 P=1 M=5\nslot 0 packet 0102 parities 00\nword 0 10000000 slot 0\nword 1 22110001 shape K=2 P=1 width=1 L=1\nword 2 33010200 data 3 bytes 010200\nword 3 40000003 count 3\nread back 4 words: the same block\nslot 1 packet 0304 parities 02\nword 0 10000001 slot 1\nword 1 22110001 shape K=2 P=1 width=1 L=1\nword 2 33030402 data 3 bytes 030402\nword 3 40000003 count 3\nread back 4 words: the same block\nslot 2 packet 0506 parities 05\nword 0 10000002 slot 2\nword 1 22110001 shape K=2 P=1 width=1 L=1\nword 2 33050605 data 3 bytes 050605\nword 3 40000003 count 3\nread back 4 words: the same block\nslot 3 packet 0708 parities 05\nword 0 10000003 slot 3\nword 1 22110001 shape K=2 P=1 width=1 L=1\nword 2 33070805 data 3 bytes 070805\nword 3 40000003 count 3\nread back 4 words: the same block\nslot 4 packet 090a parities 0c\nword 0 10000004 slot 4\nword 1 22110001 shape K=2 P=1 width=1 L=1\nword 2 33090a0c data 3 bytes 090a0c\nword 3 40000003 count 3\nread back 4 words: the same block\nslot 5 packet 0b0c parities 0c\nword 0 10000005 slot 5\nword 1 22110001 shape K=2 P=1 width=1 L=1\nword 2 330b0c0c data 3 bytes 0b0c0c\nword 3 40000003 count 3\nread back 4 words: the same block\n"
    );
    Ok(())
}

// Symbols of four bytes, which the data words cut, and a last line without an end.
#[test]
fn words_unended(rt: HostRuntime) -> Result<(), Fail> {
    let shown = transcript(rt.alloc(), b"1 1 1 1 W\n01020304\n05060708")?;
    assert_eq!(rt;
        shown.as_str(),
        "plan B=1 m=1 alpha=1 L=1 word arithmetic\nT=1 D=1 K=1 P=1 M=1\nslot 0 packet 01020304 parities 00000000\nword 0 10000000 slot 0\nword 1 21140001 shape K=1 P=1 width=4 L=1\nword 2 33010203 data 3 bytes 010203\nword 3 33040000 data 3 bytes 040000\nword 4 32000000 data 2 bytes 0000\nword 5 40000005 count 5\nread back 6 words: the same block\nslot 1 packet 05060708 parities 01020304\nword 0 10000001 slot 1\nword 1 21140001 shape K=1 P=1 width=4 L=1\nword 2 33050607 data 3 bytes 050607\nword 3 33080102 data 3 bytes 080102\nword 4 32030400 data 2 bytes 0304\nword 5 40000005 count 5\nread back 6 words: the same block\n"
    );
    Ok(())
}

// The largest packet of a plan, 2,048 digits: its block has 1,152 bytes, in 384 data words.
#[test]
fn largest_packet(rt: HostRuntime) -> Result<(), Fail> {
    let mut text = String::from_str(rt.alloc(), "1 8 1 32 W\n")?;
    for _ in 0..1024_u16 {
        text.push_str("a5")?;
    }
    last_line(
        &rt,
        rt.alloc(),
        &text,
        "read back 387 words: the same block",
    )
}

// A plan's line that breaks its form, and one whose numbers are outside their limits.
#[test]
fn plans_refused(rt: HostRuntime) -> Result<(), Fail> {
    let cases = [
        ("", "refused 10 line 1: "),
        ("\n", "refused 10 line 1: "),
        ("1 2 2 1\n", "refused 10 line 1: "),
        ("1 2 2 1 X\n", "refused 10 line 1: "),
        ("1 2 2 1 f\n", "refused 10 line 1: "),
        ("1 2 2 1 F \n", "refused 10 line 1: "),
        (" 1 2 2 1 F\n", "refused 10 line 1: "),
        ("1  2 2 1 F\n", "refused 10 line 1: "),
        ("01 2 2 1 F\n", "refused 10 line 1: "),
        ("1 2 00 1 F\n", "refused 10 line 1: "),
        ("+1 2 2 1 F\n", "refused 10 line 1: "),
        ("1 2 2 1 F\r\n", "refused 10 line 1: "),
        ("0 2 2 1 F\n", "refused 1 line 1: "),
        ("64 2 2 1 F\n", "refused 1 line 1: "),
        ("1 9 2 1 W\n", "refused 1 line 1: "),
        ("1 2 9 1 W\n", "refused 1 line 1: "),
        ("1 0 2 1 W\n", "refused 1 line 1: "),
        ("1 2 0 1 W\n", "refused 1 line 1: "),
        ("1 2 2 0 W\n", "refused 1 line 1: "),
        ("1 2 2 33 W\n", "refused 1 line 1: "),
        ("99999999999999999999999 2 2 1 F\n", "refused 1 line 1: "),
        ("4294967297 2 2 1 F\n", "refused 1 line 1: "),
        ("63 8 8 32 W\n", "T=504 D=4095 K=8 P=1 M=4095"),
    ];
    for (text, start) in cases {
        last_line(&rt, rt.alloc(), text, start)?;
    }
    Ok(())
}

// A packet's line that breaks its form, or has another length; the packets before it are shown.
#[test]
fn packets_refused(rt: HostRuntime) -> Result<(), Fail> {
    let cases = [
        ("1 2 1 1 F\n0102\n030\n0506\n", "refused 10 line 3: "),
        ("1 2 1 1 F\n0102\n03 4\n", "refused 10 line 3: "),
        ("1 2 1 1 F\n010A\n", "refused 10 line 2: "),
        ("1 2 1 1 F\n010g\n", "refused 10 line 2: "),
        ("1 2 1 1 F\n0102\r\n", "refused 10 line 2: "),
        ("1 2 1 1 F\n01\n", "refused 4 line 2: "),
        ("1 2 1 1 F\n\n", "refused 4 line 2: "),
        ("1 2 1 1 F\n010203\n", "refused 4 line 2: "),
        ("1 1 1 1 W\n010203\n", "refused 4 line 2: "),
        ("1 1 1 1 W\n0102030405060708\n", "refused 4 line 2: "),
    ];
    for (text, start) in cases {
        last_line(&rt, rt.alloc(), text, start)?;
    }
    Ok(())
}

// A line of 2,050 digits is read; with one more its form is broken.
#[test]
fn longest_line(rt: HostRuntime) -> Result<(), Fail> {
    let mut text = String::from_str(rt.alloc(), "1 1 1 1 F\n")?;
    for _ in 0..1025_u16 {
        text.push_str("00")?;
    }
    last_line(&rt, rt.alloc(), text.as_str(), "refused 4 line 2: ")?;
    text.push('0')?;
    last_line(&rt, rt.alloc(), text.as_str(), "refused 10 line 2: ")
}

// A plan's line of 2,049 and of 2,050 characters is read, and its number is too large; with one more
// its form is broken.
#[test]
fn longest_plan(rt: HostRuntime) -> Result<(), Fail> {
    let cases = [
        (2041_u16, "refused 1 line 1: "),
        (2042, "refused 1 line 1: "),
        (2043, "refused 10 line 1: "),
    ];
    for (digits, start) in cases {
        let mut text = String::new(rt.alloc());
        for _ in 0..digits {
            text.push('1')?;
        }
        text.push_str(" 2 2 1 F\n0102\n")?;
        last_line(&rt, rt.alloc(), text.as_str(), start)?;
    }
    Ok(())
}

// The whole of the line that ends a run, of each refusal that a text of less than all slots can come to.
#[test]
fn last_lines(rt: HostRuntime) -> Result<(), Fail> {
    let cases = [
        (
            "",
            "refused 10 line 1: the first line is B m alpha L, decimal and without leading zeros, and W or F, one blank between, as in: 1 2 2 1 F\n",
        ),
        (
            "1 2 2 1\n0102\n",
            "refused 10 line 1: the first line is B m alpha L, decimal and without leading zeros, and W or F, one blank between, as in: 1 2 2 1 F\n",
        ),
        (
            "1 9 2 1 F\n0102\n",
            "refused 1 line 1: a number is outside its limits: B is 1 to 63, m 1 to 8, alpha 1 to 8, L 1 to 32\n",
        ),
        (
            "1 2 2 1 F\n010\n0102\n",
            "plan B=1 m=2 alpha=2 L=1 byte arithmetic\nT=2 D=5 K=2 P=1 M=5\nrefused 10 line 2: a packet is an even number of the digits 0 to 9 and a to f, and no line is longer than 2050 characters\n",
        ),
        (
            "1 2 2 1 F\n01\n0102\n",
            "plan B=1 m=2 alpha=2 L=1 byte arithmetic\nT=2 D=5 K=2 P=1 M=5\nrefused 4 line 2: the packet has another length than the plan's: m times L symbols, of 8 digits each for W and 2 for F\n",
        ),
    ];
    for (text, printed) in cases {
        let shown = transcript(rt.alloc(), text.as_bytes())?;
        assert_eq!(rt; shown.as_str(), printed);
    }
    Ok(())
}

// What is said of the other refusals, and of a packet behind the last slot.
#[test]
fn other_refusals(rt: HostRuntime) -> Result<(), Fail> {
    let cases = [
        (
            Refusal::OutsideLimits,
            268_435_458,
            "refused 1 line 268435458: the last slot of a link is 268435455: start another link",
        ),
        (
            Refusal::UnfitShape,
            1,
            "refused 2 line 1: a packet has 1 to 8 sub-symbols, and a block 1 to 4 parities: choose another plan",
        ),
        (
            Refusal::ShortMemory,
            2,
            "refused 3 line 2: the history is too short: it holds as many packets as the code's memory says",
        ),
        (
            Refusal::ShortOutput,
            2,
            "refused 5 line 2: the output is too short: it takes a whole block",
        ),
        (
            Refusal::OtherShape,
            2,
            "refused 9 line 2: the frame's symbols have another width: compare the plan cards of truck and studio",
        ),
        (
            Refusal::SlotBelow,
            2,
            "refused 11 line 2: this slot was sent before: send the next one",
        ),
        (
            Refusal::SlotAbove,
            2,
            "refused 12 line 2: a slot was left out: send the next one first",
        ),
        (
            Refusal::PacketBelow,
            2,
            "refused 13 line 2: the packet is older than all that are still kept: ask for it before the window has moved past it",
        ),
        (
            Refusal::PacketAbove,
            2,
            "refused 14 line 2: the packet's slot is not settled yet: hand over its frame or report it lost first",
        ),
        (
            Refusal::UnkeptMemory,
            2,
            "refused 15 line 2: the memory is not in the form that the receiver keeps: hand in the memory that the last call left",
        ),
        (
            Refusal::Contradiction,
            2,
            "refused 16 line 2: the block contradicts what came before it: compare the plan cards of truck and studio",
        ),
    ];
    for (refusal, line, printed) in cases {
        let shown = refusal_text(rt.alloc(), refusal, line)?;
        assert_eq!(rt; shown.as_str(), printed);
    }
    Ok(())
}
