//! A sender under test, and the memory that is lent to it.
use crate::numbers::number;
use crate::written::{Written, read_symbols, write_refused, write_symbols};
use anyhow::bail;
use codes::code::Code;
use sender::sender::Sender;
use std::alloc::{AllocError, Global};

// The memory may be longer than needed: what a call writes where it must not is then seen.
#[derive(Drop)]
pub(crate) struct Bench<A: Written, C: Code<A::Coef> + Drop> {
    sender: Sender<A, C>,
    history: Vec<A::Sym>,
    output: Vec<A::Sym>,
}

impl<A: Written, C: Code<A::Coef> + Drop> Bench<A, C> {
    // Nothing is lent yet.
    pub(crate) fn new(heap: Global, sender: Sender<A, C>) -> Bench<A, C> {
        Bench {
            sender,
            history: Vec::new(heap),
            output: Vec::new(heap),
        }
    }

    // How much memory the sender wants.
    pub(crate) fn write_sizes(&self, found: &mut String) -> Result<(), AllocError> {
        let packet = self.sender.packet_size();
        let history = self.sender.history_size();
        let block = self.sender.block_size();
        writeln!(found, "packet {packet} history {history} block {block}")
    }

    fn send(&mut self, slot: u32, packet: &[A::Sym], found: &mut String) -> Result<(), AllocError> {
        match self
            .sender
            .send(slot, packet, &mut self.history, &mut self.output)
        {
            Ok(()) => found.push_str("sent\n"),
            Err(why) => write_refused(found, why),
        }
    }

    // Both memories whole.
    fn show(&self, found: &mut String) -> Result<(), AllocError> {
        found.push_str("output ")?;
        write_symbols::<A>(found, &self.output)?;
        found.push_str("\nhistory ")?;
        write_symbols::<A>(found, &self.history)?;
        found.push('\n')
    }

    // Does what one line says, and writes down what came of it.
    pub(crate) fn step(
        &mut self,
        heap: Global,
        line: &str,
        found: &mut String,
    ) -> anyhow::Result<()> {
        let words: Vec<&str> = line.split(' ').collect(heap)?;
        match words.as_slice() {
            ["history", symbols] => self.history = read_symbols::<A>(heap, symbols)?,
            ["output", symbols] => self.output = read_symbols::<A>(heap, symbols)?,
            ["send", slot, packet] => {
                let packet = read_symbols::<A>(heap, packet)?;
                self.send(number(slot)?, &packet, found)?;
            },
            ["show"] => self.show(found)?,
            _ => bail!("no step"),
        }
        Ok(())
    }
}
