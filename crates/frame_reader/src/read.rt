//! The call that reads a block back from its frame.
ghost use Rattle.std.specs.Prelude.{◌≡◌, ◌+◌, ◌*◌, ◌<◌, ◌≤◌, ◌++◌, length, drop, IfOk, OnErr};
ghost use Rattle.layout.specs.Layout.{count_of_data};
ghost use Rattle.frame_reader.specs.ErrorNumber.{failed_with};
ghost use Rattle.frame_reader.specs.Reading.{read_refusal, ReadAs, AcceptsBlocks};
ghost use Rattle.frame_reader.specs.Reading.{block_in, symbol_in};

use crate::check::{Checked, check};
use crate::error::ReadError;
use arithmetic::arithmetic::Arithmetic;
use layout::head::BlockShape;
use refusal::Refusal;

/// What a frame said of the block that was read from it, and how many words it took.
#[derive(Clone, Copy, PartialEq, Eq, Debug)]
pub struct Found {
    /// The slot that the block belongs to.
    pub slot: u32,
    /// K, P and L.
    pub shape: BlockShape,
    /// The words of the frame; bytes behind them do not count.
    pub words: usize,
}

// Symbol i of the block that the bytes carry.
fn symbol_at<A: Arithmetic>(bytes: &[u8], i: usize) -> A::Sym
    requires small { i < 384 }
    requires within { let words = count_of_data ((i + 1) * A.bytes.width) in
        4 * (2 + words) ≤ length bytes.now }
    ensures { result ≡ symbol_in A.bytes bytes.now i }
{
    let width = A::symbol_width();
    let mut four = [0; 4];
    for (j, byte) in four[..width].iter_mut().enumerate() {
        let n = i * width + j;
        *byte = bytes[4 * (2 + n / 3) + 1 + n % 3];
    }
    A::from_bytes(four)
}

// Fills a block with the first symbols that the bytes carry.
fn read_block<A: Arithmetic>(bytes: &[u8], block: &mut [A::Sym])
    requires small { length block.old ≤ 384 }
    requires within { let words = count_of_data (length block.old * A.bytes.width) in
        4 * (2 + words) ≤ length bytes.now }
    ensures { block.new ≡ block_in A.bytes bytes.now (length block.old) }
{
    for (i, symbol) in block.iter_mut().enumerate() {
        *symbol = symbol_at::<A>(bytes, i);
    }
}

/// Reads the frame that the bytes begin with, and lays its block over the output's first symbols.
/// Bytes behind the frame are not read, and the output behind the block stays.
///
/// Refuses bytes that begin with no frame, and names the word at fault, as `check` does (6 to 8); a
/// frame whose symbols have another width than those of A (9); an output of fewer symbols than the
/// block (5).
pub fn read<A: Arithmetic>(bytes: &[u8], out: &mut [A::Sym]) -> Result<Found, ReadError>
    ensures refusal { failed_with result ≡ read_refusal A.bytes.width bytes.now (length out.old) }
    ensures block { IfOk result (λ f. ReadAs A.bytes bytes.now out.old out.new f) }
    ensures exactly { AcceptsBlocks A.bytes bytes.now out.old out.new result }
    ensures unchanged { OnErr result (out.new ≡ out.old) }
{
    let Checked { head, words } = check(bytes)?;
    if head.width as usize != A::symbol_width() {
        return Err(Refusal::OtherShape.into());
    }
    let count = head.shape.symbol_count() as usize;
    if out.len() < count {
        return Err(Refusal::ShortOutput.into());
    }
    read_block::<A>(bytes, &mut out[..count]);
    Ok(Found {
        slot: head.slot,
        shape: head.shape,
        words,
    })
}
