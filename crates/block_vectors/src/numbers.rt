//! Numbers in a line.
use anyhow::{Context, bail, ensure};

// A number as text.
pub(crate) fn number(text: &str) -> anyhow::Result<u32> {
    text.parse::<u32>()
        .context(format_args!("{text:?} is no number"))
}

// The words of a line that were not read yet.
#[derive(Drop)]
pub(crate) struct Words<'a> {
    rest: &'a [&'a str],
}

impl<'a> Words<'a> {
    pub(crate) fn new(rest: &'a [&'a str]) -> Words<'a> {
        Words { rest }
    }

    pub(crate) fn word(&mut self) -> anyhow::Result<&'a str> {
        let [first, rest @ ..] = self.rest else {
            bail!("too few numbers");
        };
        self.rest = rest;
        Ok(*first)
    }

    pub(crate) fn number(&mut self) -> anyhow::Result<u32> {
        number(self.word()?)
    }

    // Numbers that nothing reads are a mistake in the file.
    pub(crate) fn end(&self) -> anyhow::Result<()> {
        ensure!(self.rest.is_empty(), "too many numbers");
        Ok(())
    }
}
