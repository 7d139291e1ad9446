//! The sender.
ghost use Rattle.std.specs.Prelude.{◌≡◌, ◌≤◌, false};
ghost use Rattle.codes.specs.Shape.{packet_size, block_size, unfit as unfit_spec};
ghost use Rattle.codes.specs.Link.{link_of};
ghost use Rattle.layout.specs.Layout.{outside_shape};
ghost use Rattle.sender.specs.Block.{history_size, block_shape};
ghost use Rattle.sender.specs.Sending.{lent, MakeSays, SendSays};

use crate::history::advance;
use crate::window::Window;
use arithmetic::arithmetic::Arithmetic;
use codes::code::Code;
use codes::limits::Symbols;
use codes::link::{LAST_SLOT, unfit};
use layout::head::BlockShape;
use refusal::Refusal;
use std::marker::{Model, PhantomData};

/// The sending end of one link: its code, the symbols of a sub-symbol, and the slot that comes next.
#[derive(Drop)]
pub struct Sender<A: Arithmetic, C: Code<A::Coef>> {
    arithmetic: PhantomData<A>,
    code: C,
    symbols: Symbols,
    next: u32,
}

impl<A: Arithmetic, C: Code<A::Coef>> Model for Sender<A, C> {
    ghost use Rattle.std.specs.Prelude.{◌≡◌, ◌≤◌, false};
    ghost use Rattle.codes.specs.Shape.{unfit};
    ghost use Rattle.sender.specs.State.{SenderState};

    ghost Value = { SenderState C };

    ghost view = { λ s. record { code = s.code; symbols = s.symbols; next = s.next } };

    // A link can carry its code, and the slot behind the last one is the last that can come next.
    ghost invariant = { λ s. (unfit (C.shape s.code) ≡ false) × (s.next ≤ 268435456) };
}

impl<A: Arithmetic, C: Code<A::Coef> + Drop> Sender<A, C> {
    /// A sender for this code and so many symbols to a sub-symbol, at slot 0. Refuses symbols that are not 1 to 32 (1), and a code
    /// that a link cannot carry (2).
    pub fn new(code: C, symbols: u32) -> Result<Sender<A, C>, Refusal>
        ensures { MakeSays (link_of A.operations C.shape C.coefficients) code symbols result }
    {
        let symbols = Symbols::new(symbols)?;
        if unfit::<A::Coef, C>(&code) {
            return Err(Refusal::UnfitShape);
        }
        Ok(Sender {
            arithmetic: PhantomData,
            code,
            symbols,
            next: 0,
        })
    }

    /// The slot that `send` takes next.
    pub fn next_slot(&self) -> u32
        ensures value { result ≡ self.now.next }
        ensures bound { result ≤ 268435456 }
    {
        self.next
    }

    /// The symbols of a packet.
    pub fn packet_size(&self) -> usize
        ensures value { result ≡ packet_size (C.shape self.now.code) self.now.symbols }
        ensures bound { result ≤ 256 }
    {
        self.code.sources() as usize * self.symbols.value() as usize
    }

    /// The symbols of the history: it holds as many packets as the code's memory says.
    pub fn history_size(&self) -> usize
        ensures { result ≡ history_size (C.shape self.now.code) self.now.symbols }
    {
        self.code.memory() as usize * self.packet_size()
    }

    /// The symbols of a block: a packet and its parities.
    pub fn block_size(&self) -> usize
        ensures { result ≡ block_size (C.shape self.now.code) self.now.symbols }
    {
        self.packet_size() + self.code.parities() as usize * self.symbols.value() as usize
    }

    /// How a block is made up, as its frame says it.
    pub fn block_shape(&self) -> BlockShape
        ensures value { result ≡ block_shape (C.shape self.now.code) self.now.symbols }
        ensures limits { outside_shape result ≡ false }
        ensures fit { unfit_spec (C.shape self.now.code) ≡ false }
    {
        BlockShape {
            sources: self.code.sources(),
            parities: self.code.parities(),
            symbols: self.symbols.value(),
        }
    }

    /// Sends the packet of this slot, which must be the next one: the block goes to the output's front, and the history, which
    /// holds the last packets, oldest first, takes the new one in. Refuses a slot behind the last one of a link (1), a history
    /// that is too short (3), a packet of another length (4), an output that is too short (5), and a slot below (11) or above
    /// (12) the next one. A refused send changes nothing.
    pub fn send(
        &mut self,
        slot: u32,
        packet: &[A::Sym],
        history: &mut [A::Sym],
        out: &mut [A::Sym],
    ) -> Result<(), Refusal>
        ensures { let sender = self.old in
            let link = link_of A.operations C.shape C.coefficients sender.code sender.symbols in
            let old = lent self.old history.old out.old in
            let new = lent self.new history.new out.new in
            SendSays link slot packet.now old new result }
    {
        if slot > LAST_SLOT {
            return Err(Refusal::OutsideLimits);
        }
        let kept = self.history_size();
        if history.len() < kept {
            return Err(Refusal::ShortMemory);
        }
        if packet.len() != self.packet_size() {
            return Err(Refusal::OtherLength);
        }
        if out.len() < self.block_size() {
            return Err(Refusal::ShortOutput);
        }
        if slot < self.next {
            return Err(Refusal::SlotBelow);
        }
        if slot > self.next {
            return Err(Refusal::SlotAbove);
        }
        let window = Window::<A, C> {
            code: &self.code,
            symbols: self.symbols.value() as usize,
            history,
            packet,
        };
        window.write_block(out);
        advance(&mut history[..kept], packet);
        self.next = slot + 1;
        Ok(())
    }
}
