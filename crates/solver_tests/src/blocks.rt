//! What is known behind each of a few blocks. The expected values were added up by hand.
ghost use Rattle.std.specs.Prelude.{◌≡◌};

use crate::hearing::hear;
use byte::{Byte, ByteArithmetic, ByteSymbol};
use refusal::Refusal;
use rows::size::Size;
use solver::batch::BatchOutcome;
use solver::give::give;
use solver::move_on::move_on;
use solver::read::read;
use solver::zero::write_zero;
use std::process::Abort;
use word::{Bit, Word, WordArithmetic};

fn size(rt: &impl Abort, spare: u32, symbols: u32) -> Size
    ensures { result ≡ record { unknowns = 4; spare = spare; symbols = symbols } }
{
    Size::new(4, spare, symbols)
        .ok()
        .expect(rt, "a size within the limits")
}

// All is zero before the start. The first packet is lost, and the parities of the next give it.
#[test]
fn lost_packet(rt: HostRuntime) {
    let size = size(&rt, 2, 1);
    let mut coefficients = [Byte::new(7); 24];
    let mut symbols = [ByteSymbol::new(7); 6];
    let written = write_zero::<ByteArithmetic>(&size, &mut coefficients, &mut symbols);
    assert!(rt; written == Ok(()));
    let moved = move_on::<ByteArithmetic>(&size, &mut coefficients, &mut symbols, 2);
    assert!(rt; moved == Ok(()));
    // Tried on a copy, which must stay one.
    let (mut lent, mut said) = (coefficients, symbols);
    let packet = [0x31, 0x32].map(ByteSymbol::new);
    // The second of these parities should be 0x32, whatever the lost packet is.
    let contradiction = hear::<ByteArithmetic>(
        &size,
        &mut lent,
        &mut said,
        &[[1, 0, 1, 0].map(Byte::new), [1, 1, 0, 0].map(Byte::new)],
        &[[1, 0].map(Byte::new), [0, 1].map(Byte::new)],
        &packet,
        &[0x10, 0x30].map(ByteSymbol::new),
    );
    assert!(rt; contradiction == Ok(BatchOutcome::Contradiction));
    assert!(rt; lent == coefficients && said == symbols);
    let older = [[1, 0, 1, 0].map(Byte::new), [0, 1, 1, 2].map(Byte::new)];
    let own = [[1, 0].map(Byte::new), [0, 2].map(Byte::new)];
    let parities = [0x10, 0x01].map(ByteSymbol::new);
    let heard = hear::<ByteArithmetic>(
        &size,
        &mut coefficients,
        &mut symbols,
        &older,
        &own,
        &packet,
        &parities,
    );
    assert!(rt; heard == Ok(BatchOutcome::Taken));
    for (unknown, value) in [(0, 0x21), (1, 0x22), (2, 0x31), (3, 0x32)] {
        let known = read::<ByteArithmetic>(&size, &coefficients, &symbols, unknown);
        let known = known.ok().expect(&rt, "an unknown below 4");
        assert!(rt; known.map(|symbols| symbols[0].value()) == Some(value));
    }
}

// All packets are known, and a parity says something else of them.
#[test]
fn wrong_parity(rt: HostRuntime) {
    let size = size(&rt, 1, 1);
    let mut coefficients = [Bit::On; 20];
    let mut symbols = [Word::new(7); 5];
    let written = write_zero::<WordArithmetic>(&size, &mut coefficients, &mut symbols);
    assert!(rt; written == Ok(()));
    // Tried on a copy, which must stay one.
    let (mut lent, mut said) = (coefficients, symbols);
    let packet = [0x11, 0x12].map(Word::new);
    let older = [[Bit::On, Bit::Off, Bit::On, Bit::Off]];
    let own = [[Bit::On, Bit::On]];
    let contradiction = hear::<WordArithmetic>(
        &size,
        &mut lent,
        &mut said,
        &older,
        &own,
        &packet,
        &[Word::new(0x13)],
    );
    assert!(rt; contradiction == Ok(BatchOutcome::Contradiction));
    assert!(rt; lent == coefficients && said == symbols);
    let heard = hear::<WordArithmetic>(
        &size,
        &mut coefficients,
        &mut symbols,
        &older,
        &own,
        &packet,
        &[Word::new(0x03)],
    );
    assert!(rt; heard == Ok(BatchOutcome::Taken));
    for (unknown, value) in [(0, 0), (1, 0), (2, 0x11), (3, 0x12)] {
        let known = read::<WordArithmetic>(&size, &coefficients, &symbols, unknown);
        let known = known.ok().expect(&rt, "an unknown below 4");
        assert!(rt; known.map(|symbols| symbols[0].value()) == Some(value));
    }
}

// An unknown that is not there is told before the lengths are looked at.
#[test]
fn refused_giving(rt: HostRuntime) {
    let size = size(&rt, 1, 1);
    let mut coefficients = [Bit::Off; 20];
    let mut symbols = [Word::new(7); 5];
    let (lent, said) = (&mut coefficients[..19], &mut symbols);
    let refused = give::<WordArithmetic>(&size, lent, said, 4, &[]);
    assert!(rt; refused == Err(Refusal::OutsideLimits));
    let refused = give::<WordArithmetic>(&size, lent, said, 3, &[Word::new(1)]);
    assert!(rt; refused == Err(Refusal::ShortMemory));
    assert!(rt; coefficients == [Bit::Off; 20] && symbols == [Word::new(7); 5]);
}

// All is forgotten, and the newest unknown is then given symbols.
fn give_newest(
    size: &Size,
    coefficients: &mut [Bit],
    symbols: &mut [Word],
    given: &[Word],
) -> Result<(), Refusal>
    requires size { size.now.unknowns ≡ 4 }
{
    write_zero::<WordArithmetic>(size, coefficients, symbols)?;
    move_on::<WordArithmetic>(size, coefficients, symbols, 4)?;
    give::<WordArithmetic>(size, coefficients, symbols, 3, given)
}

// Symbols are missing, not memory: all stays as the moving left it.
#[test]
fn too_few_symbols(rt: HostRuntime) {
    let size = size(&rt, 1, 1);
    let mut coefficients = [Bit::On; 20];
    let mut symbols = [Word::new(7); 5];
    let refused = give_newest(&size, &mut coefficients, &mut symbols, &[]);
    assert!(rt; refused == Err(Refusal::ShortMemory));
    assert!(rt; coefficients == [Bit::Off; 20] && symbols == [Word::new(0); 5]);
}

// Its row says the symbols, each at its place, and nothing of others.
#[test]
fn given_symbols(rt: HostRuntime) {
    let size = size(&rt, 1, 2);
    let mut coefficients = [Bit::On; 20];
    let mut symbols = [Word::new(7); 10];
    let packet = [5, 6, 8].map(Word::new);
    let given = give_newest(&size, &mut coefficients, &mut symbols, &packet);
    assert!(rt; given == Ok(()));
    let mut row = [Bit::Off; 20];
    row[15] = Bit::On;
    assert!(rt; coefficients == row);
    assert!(rt; symbols == [0, 0, 0, 0, 0, 0, 5, 6, 0, 0].map(Word::new));
}
