//! What the block of a slot is made from, and how.
ghost use Rattle.std.specs.Prelude.{◌≡◌, ℕ, ◌+◌, ◌*◌, ◌<◌, ◌≤◌, false, ◌++◌, length, drop, slice_index_or};
ghost use Rattle.fills.specs.Over.{written_over};
ghost use Rattle.codes.specs.Shape.{block_size, unfit};
ghost use Rattle.codes.specs.Link.{link_of};
ghost use Rattle.codes.specs.Parity.{sum_of_age, parity as parity_spec};
ghost use Rattle.sender.specs.Block.{recent, Fits, block_of, parities_of};

use arithmetic::arithmetic::Arithmetic;
use arithmetic::coefficients::zero;
use arithmetic::combine::{add_scaled, no_terms};
use arithmetic::sum::Sum;
use codes::code::Code;

// What the block of a slot is made from: the code, the packet, and the packets before it.
#[derive(Drop)]
pub(crate) struct Window<'a, A: Arithmetic, C: Code<A::Coef>> {
    pub code: &'a C,
    // As an index, since it is a factor of each.
    pub symbols: usize,
    pub history: &'a [A::Sym],
    pub packet: &'a [A::Sym],
    ghost some: { 1 ≤ symbols },
    ghost fit: { unfit (C.shape code.now) ≡ false },
    ghost fits: { Fits (C.shape code.now) symbols (length history.now) (length packet.now) },
}

impl<A: Arithmetic, C: Code<A::Coef>> Window<'_, A, C> {
    // Sub-symbol `sub` of the packet `age` slots ago.
    fn recent_row(&self, age: u32, sub: u32) -> &[A::Sym]
        requires place { let shape = C.shape self.now.code.now in
            (age ≤ shape.memory) × (sub < shape.sources) }
        ensures width { length result.now ≡ self.now.symbols }
        ensures symbols { let made = self.now in
            let link = link_of A.operations C.shape C.coefficients made.code.now made.symbols in
            let past = recent link made.history.now made.packet.now in
            (i : ℕ) → i < made.symbols
            → slice_index_or result.now i link.operations.symbols.zero ≡ past age sub i }
    {
        // Slices of their own: where an index lies in memory is then known to fit.
        let (history, packet) = (self.history, self.packet);
        if age == 0 {
            let start = sub as usize * self.symbols;
            return &packet[start..start + self.symbols];
        }
        let back = (self.code.memory() - age) as usize;
        let start = (back * self.code.sources() as usize + sub as usize) * self.symbols;
        &history[start..start + self.symbols]
    }

    // Whether a parity takes anything from the packet `age` slots ago. Nothing is written here, so
    // that the code's own numbers need not be read, and divided by, anew for each sub-symbol.
    fn takes_from(&self, parity: u32, age: u32) -> bool
        ensures { let code = self.now.code.now in
            result ≡ false → (k : ℕ) → k < (C.shape code).sources
            → C.coefficients code parity age k ≡ A.operations.coefficients.zero }
    {
        // A code is asked by number, so the sub-symbols are counted.
        for sub in 0..self.code.sources() {
            if !self.code.coefficient(parity, age, sub).same(zero::<A>()) {
                return true;
            }
        }
        false
    }

    // Adds to a parity what the packet `age` slots ago adds to it. A coefficient of zero adds
    // nothing, and in a code that reaches far back most packets have no other.
    fn add_age(&self, parity: u32, age: u32, row: &mut [A::Sym])
        requires reached { age ≤ (C.shape self.now.code.now).memory }
        requires width { length row.old ≡ self.now.symbols }
        ensures { let made = self.now in
            let link = link_of A.operations C.shape C.coefficients made.code.now made.symbols in
            let past = recent link made.history.now made.packet.now in
            let s = link.operations.symbols in
            (i : ℕ) → i < made.symbols → slice_index_or row.new i s.zero
            ≡ s.plus (slice_index_or row.old i s.zero) (sum_of_age link past parity i age) }
    {
        if !self.takes_from(parity, age) {
            return;
        }
        for sub in 0..self.code.sources() {
            let c = self.code.coefficient(parity, age, sub);
            if !c.same(zero::<A>()) {
                add_multiple::<A>(row, c, self.recent_row(age, sub));
            }
        }
    }

    // Writes a parity of the slot: over all ages, youngest first.
    fn write_parity(&self, parity: u32, row: &mut [A::Sym])
        requires width { length row.old ≡ self.now.symbols }
        ensures { let made = self.now in
            let link = link_of A.operations C.shape C.coefficients made.code.now made.symbols in
            let past = recent link made.history.now made.packet.now in
            (i : ℕ) → i < made.symbols → slice_index_or row.new i link.operations.symbols.zero
            ≡ parity_spec link past parity i }
    {
        // Of a type that is not known, `fill` does not say what its clones are.
        for symbol in row.iter_mut() {
            *symbol = no_terms::<A>();
        }
        for age in 0..=self.code.memory() {
            self.add_age(parity, age, row);
        }
    }

    // The parities of the slot, one after the other.
    fn write_parities(&self, out: &mut [A::Sym])
        requires room { (C.shape self.now.code.now).parities * self.now.symbols ≤ length out.old }
        ensures { let made = self.now in
            let link = link_of A.operations C.shape C.coefficients made.code.now made.symbols in
            out.new ≡ parities_of link made.history.now made.packet.now
            ++ drop (link.shape.parities * link.symbols) out.old }
    {
        // Counted: of what is written through `chunks_exact_mut` no invariant can speak.
        for parity in 0..self.code.parities() {
            let start = parity as usize * self.symbols;
            self.write_parity(parity, &mut out[start..start + self.symbols]);
        }
    }

    // The packet, and behind it the parities of its slot.
    pub(crate) fn write_block(&self, out: &mut [A::Sym])
        requires room { block_size (C.shape self.now.code.now) self.now.symbols ≤ length out.old }
        ensures { let made = self.now in
            let link = link_of A.operations C.shape C.coefficients made.code.now made.symbols in
            out.new ≡ written_over (block_of link made.history.now made.packet.now) out.old }
    {
        let (front, behind) = out.split_at_mut(self.packet.len());
        front.copy_from_slice(self.packet);
        self.write_parities(behind);
    }
}

// Adds to each symbol of a row its fellow in another row, scaled by the coefficient.
fn add_multiple<A: Arithmetic>(row: &mut [A::Sym], c: A::Coef, other: &[A::Sym])
    requires { length row.old ≡ length other.now }
    ensures { let o = A.operations in
        (i : ℕ) (d : A.Sym) → i < length row.old → slice_index_or row.new i d
        ≡ o.symbols.plus (slice_index_or row.old i d) (o.scale c (slice_index_or other.now i d)) }
{
    // By number: of what is written through a `zip` no invariant can speak.
    for (i, symbol) in row.iter_mut().enumerate() {
        *symbol = add_scaled::<A>(*symbol, c, other[i]);
    }
}
