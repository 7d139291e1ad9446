//! A block is looked at before the unknowns move on: the equations of its parities are written into
//! the spare rows, where a contradiction leaves the memory as it was. Here a packet is two unknowns
//! of one symbol.
ghost use Rattle.std.specs.Prelude.{◌≡◌, ℕ, ◌<◌, ◌≤◌, length, Ok};
ghost use Rattle.systems.specs.System.{rows};
ghost use Rattle.systems.specs.Kept.{Kept};
ghost use Rattle.systems.specs.Form.{SameRow};
ghost use Rattle.rows.specs.Lent.{system_of, SameLoan};
ghost use Rattle.solver.specs.declared.batch.BatchOutcome.TheVariants.{Taken, Contradiction};
ghost use Rattle.rows.specs.Memory.{memory as memory_of, Room};
ghost use Rattle.solver_tests.specs.Front.{SameFront};

use arithmetic::arithmetic::Arithmetic;
use arithmetic::coefficients::negative;
use refusal::Refusal;
use rows::memory::Memory;
use rows::size::Size;
use solver::batch::BatchOutcome;
use solver::give::give;
use solver::move_on::move_on;
use solver::take_in::solve;

// Writes what a parity says of the unknowns into a spare row: less the share of its own packet.
fn write_parity<A: Arithmetic>(
    memory: &mut Memory<A::Coef, A::Sym>,
    row: usize,
    older: &[A::Coef],
    own: &[A::Coef],
    packet: &[A::Sym],
    parity: &[A::Sym],
)
    requires spare { (memory.old.size.unknowns ≤ row) × (row < rows memory.old.size) }
    requires shape { (memory.old.size.symbols ≡ 1)
        × (memory.old.size.unknowns ≤ length older.now) × (length own.now ≡ 2)
        × (length packet.now ≡ 2) × (1 ≤ length parity.now) }
    ensures { SameFront A.operations memory.old memory.new }
{
    for column in 0..memory.size.unknowns() {
        memory.write_coefficient::<A>(row, column, older[column]);
    }
    memory.write_symbols::<A>(row, parity);
    memory.add_symbols::<A>(row, &packet[..1], negative::<A>(own[0]));
    memory.add_symbols::<A>(row, &packet[1..], negative::<A>(own[1]));
}

// Writes what the parities of a block say into the spare rows, and solves: whether it agrees with
// what the memory holds.
fn take_parities<A: Arithmetic>(
    memory: &mut Memory<A::Coef, A::Sym>,
    older: &[[A::Coef; 4]],
    own: &[[A::Coef; 2]],
    packet: &[A::Sym],
    parities: &[A::Sym],
) -> BatchOutcome
    requires kept { Kept A.operations memory.old.size (system_of A.operations memory.old) }
    requires shape { (memory.old.size.unknowns ≡ 4) × (memory.old.size.symbols ≡ 1)
        × (length packet.now ≡ 2) × (length older.now ≤ memory.old.size.spare)
        × (length own.now ≡ length older.now) × (length parities.now ≡ length older.now) }
    ensures same { SameLoan memory.old memory.new }
    ensures kept { result ≡ Taken
        → Kept A.operations memory.old.size (system_of A.operations memory.new) }
    ensures unchanged { let old = system_of A.operations memory.old in
        let new = system_of A.operations memory.new in
        result ≡ Contradiction → (r : ℕ) → SameRow memory.old.size new old r }
{
    let unknowns = memory.size.unknowns();
    for row in 0..older.len() {
        let (older, own) = (&older[row], &own[row]);
        write_parity::<A>(memory, unknowns + row, older, own, packet, &parities[row..]);
    }
    solve::<A>(memory)
}

/// What comes of a block of which all was heard. One that contradicts what the memory holds is
/// refused before anything moves; else its packet is the newest that is known.
pub fn hear<A: Arithmetic>(
    size: &Size,
    coefficients: &mut [A::Coef],
    symbols: &mut [A::Sym],
    older: &[[A::Coef; 4]],
    own: &[[A::Coef; 2]],
    packet: &[A::Sym],
    parities: &[A::Sym],
) -> Result<BatchOutcome, Refusal>
    requires kept { let old = memory_of A.operations size.now coefficients.old symbols.old in
        Room size.now (length coefficients.old) (length symbols.old)
        → Kept A.operations size.now old }
    requires shape { (size.now.unknowns ≡ 4) × (size.now.symbols ≡ 1) × (length packet.now ≡ 2)
        × (length older.now ≤ size.now.spare) × (length own.now ≡ length older.now)
        × (length parities.now ≡ length older.now) }
    ensures kept { let new = memory_of A.operations size.now coefficients.new symbols.new in
        result ≡ Ok Taken → Kept A.operations size.now new }
    ensures unchanged { result ≡ Ok Contradiction
        → (coefficients.new ≡ coefficients.old) × (symbols.new ≡ symbols.old) }
{
    if size.exceeds(coefficients.len(), symbols.len()) {
        return Err(Refusal::ShortMemory);
    }
    let outcome = {
        let mut memory = Memory {
            size: *size,
            coefficients: &mut *coefficients,
            symbols: &mut *symbols,
        };
        take_parities::<A>(&mut memory, older, own, packet, parities)
    };
    if outcome == BatchOutcome::Contradiction {
        return Ok(outcome);
    }
    move_on::<A>(size, coefficients, symbols, 2)?;
    give::<A>(size, coefficients, symbols, 2, &packet[..1])?;
    give::<A>(size, coefficients, symbols, 3, &packet[1..])?;
    Ok(outcome)
}
