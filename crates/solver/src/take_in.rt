//! Taking in a batch of equations.
ghost use Rattle.std.specs.Prelude.{◌≡◌, ℕ, ◌+◌, ◌*◌, ◌<◌, ◌≤◌, length, IfOk, OnErr};
ghost use Rattle.refusal.specs.Order.{refused_with};
ghost use Rattle.systems.specs.System.{rows};
ghost use Rattle.systems.specs.Kept.{Kept, KeptAmong, Empty};
ghost use Rattle.systems.specs.Form.{SameRow};
ghost use Rattle.rows.specs.Memory.{memory as memory_of, Room, SameBehind};
ghost use Rattle.rows.specs.Lent.{system_of, SameLoan};
ghost use Rattle.solver.specs.Refusals.{batch_refusal};
ghost use Rattle.solver.specs.BatchOutcome.{BatchSays, SolveSays};
ghost use Rattle.solver.specs.Copying.{CopiedIn};

use crate::batch::BatchOutcome;
use crate::join::join;
use crate::settle::settle;
use arithmetic::arithmetic::Arithmetic;
use refusal::Refusal;
use rows::equations::Equations;
use rows::memory::Memory;
use rows::size::Size;

// Makes all spare rows say nothing.
fn empty_spare<A: Arithmetic>(memory: &mut Memory<A::Coef, A::Sym>)
    ensures same { SameLoan memory.old memory.new }
    ensures empty { let z = memory.old.size in
        let new = system_of A.operations memory.new in
        (r : ℕ) → z.unknowns ≤ r → r < rows z → Empty A.operations z new r }
    ensures front { let old = system_of A.operations memory.old in
        let new = system_of A.operations memory.new in
        (r : ℕ) → r < memory.old.size.unknowns → SameRow memory.old.size new old r }
    ensures behind { let old = system_of A.operations memory.old in
        let new = system_of A.operations memory.new in
        (r : ℕ) → rows memory.old.size ≤ r → SameRow memory.old.size new old r }
{
    for row in memory.size.unknowns()..memory.size.rows() {
        memory.empty_row::<A>(row);
    }
}

/// Solves a memory whose spare rows hold equations: they are joined to the rows of the unknowns,
/// or, where they contradict these, given up.
pub fn solve<A: Arithmetic>(memory: &mut Memory<A::Coef, A::Sym>) -> BatchOutcome
    requires among { let z = memory.old.size in
        KeptAmong A.operations z (system_of A.operations memory.old) z.unknowns }
    ensures same { SameLoan memory.old memory.new }
    ensures says { let old = system_of A.operations memory.old in
        let new = system_of A.operations memory.new in
        SolveSays A.operations memory.old.size old new result }
    ensures behind { let old = system_of A.operations memory.old in
        let new = system_of A.operations memory.new in
        (r : ℕ) → rows memory.old.size ≤ r → SameRow memory.old.size new old r }
{
    if !settle::<A>(memory) {
        empty_spare::<A>(memory);
        return BatchOutcome::Contradiction;
    }
    join::<A>(memory);
    BatchOutcome::Taken
}

// Writes the first `count` of the given equations into the spare rows.
fn copy_in<A: Arithmetic>(
    memory: &mut Memory<A::Coef, A::Sym>,
    equations: &Equations<A>,
    count: usize,
)
    requires few { count ≤ memory.old.size.spare }
    requires equations { let z = memory.old.size in
        (count * z.unknowns ≤ length equations.now.coefficients.now)
        × (count * z.symbols ≤ length equations.now.symbols.now) }
    ensures same { SameLoan memory.old memory.new }
    ensures copied { let z = memory.old.size in
        let lent = equations.now in
        let given = memory_of A.operations z lent.coefficients.now lent.symbols.now in
        let old = system_of A.operations memory.old in
        CopiedIn z count given old (system_of A.operations memory.new) }
{
    let unknowns = memory.size.unknowns();
    for source in 0..count {
        memory.copy_row::<A>(unknowns + source, equations, source);
    }
}

/// Takes in the first `count` of the given equations: the memory then says what they and its rows
/// say together. Where that leaves no content nothing is changed. Refuses a count above R (1), and
/// a memory or equations that are too short (3).
pub fn take_in<A: Arithmetic>(
    size: &Size,
    coefficients: &mut [A::Coef],
    symbols: &mut [A::Sym],
    equations: &Equations<A>,
    count: usize,
) -> Result<BatchOutcome, Refusal>
    requires kept { let old = memory_of A.operations size.now coefficients.old symbols.old in
        Room size.now (length coefficients.old) (length symbols.old)
        → Kept A.operations size.now old }
    ensures refusal { refused_with result ≡ batch_refusal size.now count
        (length equations.now.coefficients.now) (length equations.now.symbols.now)
        (length coefficients.old) (length symbols.old) }
    ensures unchanged { OnErr result
        ((coefficients.new ≡ coefficients.old) × (symbols.new ≡ symbols.old)) }
    ensures says { let lent = equations.now in
        let given = memory_of A.operations size.now lent.coefficients.now lent.symbols.now in
        IfOk result (BatchSays A.operations size.now count given
        coefficients.old symbols.old coefficients.new symbols.new) }
    ensures behind { SameBehind size.now coefficients.old coefficients.new symbols.old symbols.new }
{
    if count > size.spare() {
        return Err(Refusal::OutsideLimits);
    }
    if size.exceeds(coefficients.len(), symbols.len())
        || size.exceeds_by(count, equations.coefficients.len(), equations.symbols.len())
    {
        return Err(Refusal::ShortMemory);
    }
    let mut memory = Memory {
        size: *size,
        coefficients,
        symbols,
    };
    copy_in::<A>(&mut memory, equations, count);
    Ok(solve::<A>(&mut memory))
}
