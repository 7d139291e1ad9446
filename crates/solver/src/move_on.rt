//! Moving on to newer unknowns.
ghost use Rattle.std.specs.Prelude.{◌≡◌, length, OnErr, OnOk};
ghost use Rattle.refusal.specs.Order.{refused_with};
ghost use Rattle.systems.specs.Kept.{Kept};
ghost use Rattle.systems.specs.Form.{KeptFormOf};
ghost use Rattle.systems.specs.Moving.{Continues};
ghost use Rattle.rows.specs.Memory.{memory, Room, SameBehind};
ghost use Rattle.solver.specs.Refusals.{move_refusal};

use arithmetic::arithmetic::Arithmetic;
use refusal::Refusal;
use rows::memory::Memory;
use rows::size::Size;

/// The oldest `count` unknowns go, and as many new ones come in at the end, about which nothing is
/// known. What the rows say about the others together remains. Refuses a count that is not 1 to N
/// (1), and a memory that is too short (3).
pub fn move_on<A: Arithmetic>(
    size: &Size,
    coefficients: &mut [A::Coef],
    symbols: &mut [A::Sym],
    count: usize,
) -> Result<(), Refusal>
    requires kept { let old = memory A.operations size.now coefficients.old symbols.old in
        Room size.now (length coefficients.old) (length symbols.old)
        → Kept A.operations size.now old }
    ensures refusal { refused_with result
        ≡ move_refusal size.now count (length coefficients.old) (length symbols.old) }
    ensures unchanged { OnErr result
        ((coefficients.new ≡ coefficients.old) × (symbols.new ≡ symbols.old)) }
    ensures form { let old = memory A.operations size.now coefficients.old symbols.old in
        let new = memory A.operations size.now coefficients.new symbols.new in
        OnOk result
        (KeptFormOf A.operations size.now new (Continues A.operations size.now count old)) }
    ensures behind { SameBehind size.now coefficients.old coefficients.new symbols.old symbols.new }
{
    if count < 1 || count > size.unknowns() {
        return Err(Refusal::OutsideLimits);
    }
    if size.exceeds(coefficients.len(), symbols.len()) {
        return Err(Refusal::ShortMemory);
    }
    let mut memory = Memory {
        size: *size,
        coefficients,
        symbols,
    };
    memory.shift_rows::<A>(count);
    Ok(())
}
