//! Packets read from text.
ghost use Rattle.std.specs.Prelude.{◌≡◌, ◌*◌, true, length};
ghost use Rattle.refusal.specs.Order.{refused_with};
ghost use Rattle.hextext.specs.Digits.{all_digits};
ghost use Rattle.hextext.specs.Packet.{symbol_text, packet_refusal};
ghost use Rattle.hextext.specs.Reading.{Reads};

use crate::digits::{byte_value, is_hex};
use crate::error::ReadError;
use arithmetic::arithmetic::Arithmetic;
use refusal::Refusal;
use std::alloc::Global;

// Refuses a text that is no row of bytes (10), or has no whole symbols (4).
fn check<A: Arithmetic>(text: &[u8]) -> Result<(), Refusal>
    ensures { refused_with result ≡ packet_refusal A.bytes text.now }
{
    if !is_hex(text) {
        return Err(Refusal::BrokenLine);
    }
    if text.len() / 2 % A::symbol_width() != 0 {
        return Err(Refusal::OtherLength);
    }
    Ok(())
}

// The symbol whose text this is.
fn read_symbol<A: Arithmetic>(text: &[u8]) -> A::Sym
    requires digits { all_digits text.now ≡ true }
    requires whole { length text.now ≡ 2 * A.bytes.width }
    ensures { symbol_text A.bytes result ≡ text.now }
{
    let mut four = [0; 4];
    let (pairs, _) = text.as_chunks::<2>();
    // Written by number: tried with `zip` and `iter_mut`, and the invariant of the loop cannot then name what is written.
    for (i, [high, low]) in pairs.iter().enumerate() {
        four[i] = byte_value(*high, *low);
    }
    A::from_bytes(four)
}

/// The symbols of a packet whose text this is. Refuses a text that is not an even number of the digits 0 to 9 and a to f (10),
/// and one of other than whole symbols (4); where the text is a packet and memory runs out, that is the error.
pub fn read_packet<A: Arithmetic>(heap: Global, text: &[u8]) -> Result<Vec<A::Sym>, ReadError>
    ensures { Reads A.bytes text.now result }
{
    check::<A>(text)?;
    let digits = 2 * A::symbol_width();
    let mut symbols = Vec::with_capacity(heap, text.len() / digits)?;
    for symbol in text.chunks_exact(digits) {
        symbols.push(read_symbol::<A>(symbol))?;
    }
    Ok(symbols)
}
