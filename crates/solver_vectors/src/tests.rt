//! What is a kept form, and what each call refuses, and that it then changes nothing. The memory
//! has two unknowns of one symbol, and one spare row.
ghost use Rattle.std.specs.Prelude.{◌≡◌};

use crate::calls::{Fault, move_on_kept, read_kept, take_in_kept};
use byte::{Byte, ByteArithmetic, ByteSymbol};
use refusal::Refusal;
use rows::equations::Equations;
use rows::size::Size;
use solver::kept::is_kept;
use solver::move_on::move_on;
use solver::read::read;
use solver::take_in::take_in;
use solver::zero::write_zero;
use std::process::Abort;
use word::{Bit, Word, WordArithmetic};

// Which size it is stands in the contract: some calls need no kept form where a memory is too
// short, and that has to be seen.
fn size(rt: &impl Abort) -> Size
    ensures { result ≡ record { unknowns = 2; spare = 1; symbols = 1 } }
{
    Size::new(2, 1, 1)
        .ok()
        .expect(rt, "a size within the limits")
}

#[test]
fn sizes(rt: HostRuntime) {
    for (unknowns, spare, symbols) in [(0, 1, 1), (129, 1, 1), (1, 0, 1), (1, 1, 0), (1, 1, 33)] {
        let refused = Size::new(unknowns, spare, symbols).err();
        assert!(rt; refused == Some(Refusal::OutsideLimits));
    }
    assert!(rt; Size::new(1, 1, 1).is_ok());
    assert!(rt; Size::new(128, 4_294_967_295, 32).is_ok());
}

#[test]
fn short_memory(rt: HostRuntime) {
    let size = size(&rt);
    let (coefficient, symbol) = (Byte::new(7), ByteSymbol::new(7));
    for (c, s) in [(5, 3), (6, 2), (0, 0)] {
        let mut coefficients = [coefficient; 6];
        let mut symbols = [symbol; 3];
        let written = write_zero::<ByteArithmetic>(
            &size,
            &mut coefficients[..c],
            &mut symbols[..s],
        );
        assert!(rt; written == Err(Refusal::ShortMemory));
        assert!(rt; coefficients == [coefficient; 6]);
        assert!(rt; symbols == [symbol; 3]);
        let kept = is_kept::<ByteArithmetic>(&size, &coefficients[..c], &symbols[..s]);
        assert!(rt; kept == Err(Refusal::ShortMemory));
    }
}

// Each number but zero is one.
fn bit(number: u8) -> Bit {
    if number == 0 {
        return Bit::Off;
    }
    Bit::On
}

fn word(number: u8) -> Word {
    Word::new(u32::from(number))
}

// Memories in kept form and others, by their coefficients and symbols. Each is tried over both
// arithmetics.
#[test]
fn forms(rt: HostRuntime) {
    let size = size(&rt);
    let cases = [
        ([1, 0, 0, 1, 0, 0], [7, 8, 0], true),
        ([0, 0, 0, 0, 0, 0], [0, 0, 0], true),
        ([1, 5, 0, 0, 0, 0], [7, 0, 0], true),
        ([0, 0, 0, 1, 0, 0], [0, 8, 0], true),
        // A row says nothing of any unknown, but has a symbol.
        ([1, 5, 0, 0, 0, 0], [7, 8, 0], false),
        ([1, 0, 0, 1, 0, 0], [7, 8, 9], false),
        // The spare row says something.
        ([1, 0, 0, 1, 0, 1], [7, 8, 0], false),
        ([0, 0, 0, 0, 1, 0], [0, 0, 0], false),
        // A row begins in another column than its own.
        ([0, 1, 0, 0, 0, 0], [7, 0, 0], false),
        // An unknown that is given stands in another row too.
        ([1, 5, 0, 1, 0, 0], [7, 8, 0], false),
        ([1, 0, 3, 1, 0, 0], [7, 8, 0], false),
    ];
    for (coefficients, symbols, is) in cases {
        let bits: [Bit; 6] = coefficients.map(bit);
        let words: [Word; 3] = symbols.map(word);
        let kept = is_kept::<WordArithmetic>(&size, &bits, &words);
        assert!(rt; kept == Ok(is));
        let coefficients: [Byte; 6] = coefficients.map(Byte::new);
        let symbols: [ByteSymbol; 3] = symbols.map(ByteSymbol::new);
        let kept = is_kept::<ByteArithmetic>(&size, &coefficients, &symbols);
        assert!(rt; kept == Ok(is));
    }
    // A row begins with another coefficient than one, and no bit is that.
    let coefficients: [Byte; 6] = [2, 0, 0, 1, 0, 0].map(Byte::new);
    let symbols: [ByteSymbol; 3] = [7, 8, 0].map(ByteSymbol::new);
    let kept = is_kept::<ByteArithmetic>(&size, &coefficients, &symbols);
    assert!(rt; kept == Ok(false));
}

// Numbers outside their limits come first, and then a memory that is too short, here by one
// coefficient.
#[test]
fn order(rt: HostRuntime) {
    let size = size(&rt);
    let (coefficient, symbol) = (Byte::new(7), ByteSymbol::new(7));
    let given = Equations::<ByteArithmetic> {
        coefficients: &[coefficient; 2],
        symbols: &[symbol],
    };
    let mut coefficients = [coefficient; 5];
    let mut symbols = [symbol; 3];
    for (count, why) in [
        (1, Refusal::ShortMemory),
        (2, Refusal::ShortMemory),
        (0, Refusal::OutsideLimits),
        (3, Refusal::OutsideLimits),
        (usize::MAX, Refusal::OutsideLimits),
    ] {
        let moved = move_on::<ByteArithmetic>(&size, &mut coefficients, &mut symbols, count);
        assert!(rt; moved == Err(why));
    }
    for (count, why) in [
        (0, Refusal::ShortMemory),
        (1, Refusal::ShortMemory),
        (2, Refusal::OutsideLimits),
        (usize::MAX, Refusal::OutsideLimits),
    ] {
        let taken = take_in::<ByteArithmetic>(
            &size,
            &mut coefficients,
            &mut symbols,
            &given,
            count,
        );
        assert!(rt; taken == Err(why));
    }
    for (unknown, why) in [
        (0, Refusal::ShortMemory),
        (1, Refusal::ShortMemory),
        (2, Refusal::OutsideLimits),
        (usize::MAX, Refusal::OutsideLimits),
    ] {
        let known = read::<ByteArithmetic>(&size, &coefficients, &symbols, unknown).err();
        assert!(rt; known == Some(why));
    }
    assert!(rt; coefficients == [coefficient; 5]);
    assert!(rt; symbols == [symbol; 3]);
}

// Numbers outside their limits, where the memory is long enough and in kept form.
#[test]
fn moves(rt: HostRuntime) {
    let size = size(&rt);
    let (zero, one) = (Byte::new(0), Byte::new(1));
    let nothing = ByteSymbol::new(0);
    let mut coefficients = [zero; 6];
    let mut symbols = [nothing; 3];
    let written = write_zero::<ByteArithmetic>(&size, &mut coefficients, &mut symbols);
    assert!(rt; written == Ok(()));
    for count in [0, 3, usize::MAX] {
        let moved = move_on_kept::<ByteArithmetic>(&size, &mut coefficients, &mut symbols, count);
        assert!(rt; moved == Err(Fault::Refused(Refusal::OutsideLimits)));
        assert!(rt; coefficients == [one, zero, zero, one, zero, zero]);
        assert!(rt; symbols == [nothing; 3]);
    }
    let known = read_kept::<ByteArithmetic>(&size, &coefficients, &symbols, 2).err();
    assert!(rt; known == Some(Fault::Refused(Refusal::OutsideLimits)));
}

// More equations than there are spare rows, and fewer handed in than are to be taken.
#[test]
fn batches(rt: HostRuntime) {
    let size = size(&rt);
    let (zero, one, coefficient) = (Byte::new(0), Byte::new(1), Byte::new(7));
    let (nothing, symbol) = (ByteSymbol::new(0), ByteSymbol::new(7));
    let cases = [
        (2, 4, 2, Refusal::OutsideLimits),
        (2, 0, 0, Refusal::OutsideLimits),
        (1, 1, 1, Refusal::ShortMemory),
        (1, 2, 0, Refusal::ShortMemory),
    ];
    for (count, c, s, why) in cases {
        let mut coefficients = [zero; 6];
        let mut symbols = [nothing; 3];
        let written = write_zero::<ByteArithmetic>(&size, &mut coefficients, &mut symbols);
        assert!(rt; written == Ok(()));
        let given = Equations::<ByteArithmetic> {
            coefficients: &[coefficient; 4][..c],
            symbols: &[symbol; 2][..s],
        };
        let taken = take_in_kept::<ByteArithmetic>(
            &size,
            &mut coefficients,
            &mut symbols,
            &given,
            count,
        );
        assert!(rt; taken == Err(Fault::Refused(why)));
        assert!(rt; coefficients == [one, zero, zero, one, zero, zero]);
        assert!(rt; symbols == [nothing; 3]);
    }
}
