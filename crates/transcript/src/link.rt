//! A link while it runs.
ghost use Rattle.std.specs.Prelude.{◌≡◌, ◌+◌, ◌++◌, length, take, vec_len, IfOk, OnOk, string_bytes};
ghost use Rattle.codes.specs.Shape.{packet_size, block_size};
ghost use Rattle.codes.specs.Link.{link_of};
ghost use Rattle.sender.specs.Block.{history_size, zero_history};
ghost use Rattle.sender.specs.Sending.{FollowsStreams};
ghost use Rattle.linktext.specs.Fields.{lines_of};
ghost use Rattle.transcript.specs.Steps.{Ready, Answers, IfLineRefused, PrintedFrom};

use crate::lines::Lines;
use crate::reading::read_line;
use crate::refusing::end_run;
use arithmetic::arithmetic::Arithmetic;
use arithmetic::combine::zeros;
use codes::code::Code;
use frame_writer::frame::Frame;
use hextext::error::ReadError;
use sender::sender::Sender;
use slotframe::show::show_slot;
use std::alloc::{AllocError, Global};

// A link while it runs: its sender, the packets that it sent last, and the block of a slot.
#[derive(Drop)]
pub(crate) struct Link<A: Arithmetic, C: Code<A::Coef>> {
    heap: Global,
    sender: Sender<A, C>,
    history: Vec<A::Sym>,
    block: Vec<A::Sym>,
    ghost reaches: { vec_len history ≡ history_size (C.shape sender.code) sender.symbols },
    ghost room: { vec_len block ≡ block_size (C.shape sender.code) sender.symbols },
}

impl<A: Arithmetic, C: Code<A::Coef> + Drop> Link<A, C> {
    // A link at the sender's slot, on a history of zeros.
    pub(crate) fn new(heap: Global, sender: Sender<A, C>) -> Result<Link<A, C>, AllocError>
        ensures sender { IfOk result (λ l. l.sender ≡ sender) }
        ensures history { let l = sender.symbols in
            let link = link_of A.operations C.shape C.coefficients sender.code l in
            IfOk result (λ l. l.history.items ≡ zero_history link) }
    {
        let history = zeros::<A>(heap, sender.history_size())?;
        let block = zeros::<A>(heap, sender.block_size())?;
        Ok(Link {
            heap,
            sender,
            history,
            block,
        })
    }

    // Sends the packet of the next slot: the block is then what goes on air. `Ready` tells some of what the type tells too, and all in one word.
    fn send(&mut self, packet: &[A::Sym])
        requires { let sender = self.old.sender in
            let history = vec_len self.old.history in
            let block = vec_len self.old.block in
            let shape = C.shape sender.code in
            Ready shape sender.symbols sender.next history (length packet.now) block }
        ensures packet { let sender = self.old.sender in
            let size = packet_size (C.shape sender.code) sender.symbols in
            take size self.new.block.items ≡ packet.now }
        ensures streams { let sender = self.old.sender in
            let link = link_of A.operations C.shape C.coefficients sender.code sender.symbols in
            let was = self.old.history.items in
            let now = self.new.history.items in
            let block = self.new.block.items in
            FollowsStreams link sender.next packet.now was block now }
        ensures sender { let sender = self.old.sender in
            self.new.sender ≡ record sender { next = sender.next + 1 } }
    {
        let slot = self.sender.next_slot();
        let history = self.history.as_mut_slice();
        let block = self.block.as_mut_slice();
        self.sender.send(slot, packet, history, block).unwrap();
    }

    // Takes in one line: the packet of the next slot is read, sent, and shown with its parities and its frame.
    fn answer_line(&mut self, line: &[u8]) -> Result<String, ReadError>
        ensures answers { let sender = self.old.sender in
            let link = link_of A.operations C.shape C.coefficients sender.code sender.symbols in
            let was = self.old.history.items in
            let now = self.new.history.items in
            Answers string_bytes link A.bytes sender.next line.now was now result }
        ensures unchanged { IfLineRefused result (self.new ≡ self.old) }
        ensures code { self.new.sender.code ≡ self.old.sender.code }
        ensures symbols { self.new.sender.symbols ≡ self.old.sender.symbols }
        ensures next { OnOk result (self.new.sender.next ≡ self.old.sender.next + 1) }
    {
        let slot = self.sender.next_slot();
        let shape = self.sender.block_shape();
        let size = self.sender.packet_size();
        let packet = read_line::<A>(self.heap, line, slot, size)?;
        self.send(packet.as_slice());
        let frame = Frame::<A>::new(slot, shape, &self.block);
        Ok(show_slot::<A>(self.heap, &frame)?)
    }

    // Takes in the lines, from the next slot on, until one is refused.
    pub(crate) fn answer_lines(&mut self, lines: Lines<'_>) -> Result<String, AllocError>
        ensures { let sender = self.old.sender in
            let link = link_of A.operations C.shape C.coefficients sender.code sender.symbols in
            let history = self.old.history.items in
            let lines = lines_of lines.entry.rest.now in
            IfOk result (λ s. PrintedFrom link A.bytes history sender.next lines (string_bytes s)) }
    {
        let mut out = String::new(self.heap);
        for line in lines {
            // A match and no `?`: an error becomes the last line, and ends the run well.
            let number = u64::from(self.sender.next_slot()) + 2;
            match self.answer_line(line) {
                Ok(shown) => writeln!(out, "{shown}")?,
                Err(error) => return end_run(self.heap, out, error, number),
            }
        }
        Ok(out)
    }
}
