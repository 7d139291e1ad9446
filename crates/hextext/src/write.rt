//! Packets, and plain bytes, written as text.
ghost use Rattle.std.specs.Prelude.{ℕ, List, string_bytes};
ghost use Rattle.std.specs.Fn.{FnOnceReturnsAtMut};
ghost use Rattle.std.specs.List.{flat_map};
ghost use Rattle.hextext.specs.Digits.{byte_text};
ghost use Rattle.hextext.specs.Packet.{packet_text, symbol_text};
ghost use Rattle.hextext.specs.Writing.{Appends, Begins, Begun};

use crate::digits::digit_char;
use arithmetic::arithmetic::Arithmetic;
use std::alloc::AllocError;

// Two digits, the high one first. Pushed, since `write!` to a text says nothing of what it leaves where memory runs out.
fn push_byte(text: &mut String, byte: u8) -> Result<(), AllocError>
    ensures { let old = string_bytes text.old in let new = string_bytes text.new in
        Begins (byte_text byte) old new result }
{
    text.push(digit_char(byte / 16))?;
    text.push(digit_char(byte % 16))
}

// Where memory runs out, what was appended so far stays: `whole` cuts it off again.
fn push_bytes(text: &mut String, bytes: &[u8]) -> Result<(), AllocError>
    ensures { let old = string_bytes text.old in let new = string_bytes text.new in
        Begins (flat_map byte_text bytes.now) old new result }
{
    for byte in bytes {
        push_byte(text, *byte)?;
    }
    Ok(())
}

// The digits of the symbol's bytes.
fn push_symbol<A: Arithmetic>(text: &mut String, x: A::Sym) -> Result<(), AllocError>
    ensures { let old = string_bytes text.old in let new = string_bytes text.new in
        Begins (symbol_text A.bytes x) old new result }
{
    let four = A::to_bytes(x);
    push_bytes(text, &four[..A::symbol_width()])
}

// The loop of `push_bytes`, by symbols: one for both needs a closure, and a contract on what each of its calls leaves, and reads no plainer.
fn push_symbols<A: Arithmetic>(text: &mut String, symbols: &[A::Sym]) -> Result<(), AllocError>
    ensures { let old = string_bytes text.old in let new = string_bytes text.new in
        Begins (packet_text A.bytes symbols.now) old new result }
{
    for x in symbols {
        push_symbol::<A>(text, *x)?;
    }
    Ok(())
}

// Appends what `append` appends; where memory runs out, the text stays as it was.
fn whole<F: FnOnce(&mut String) -> Result<(), AllocError>>(
    text: &mut String,
    append: F,
) -> Result<(), AllocError>
    requires callable { F.IsAlwaysCallable append }
    requires begun { (more : List ℕ)
        × Begun (FnOnceReturnsAtMut F.FnOnce append text.old) more (string_bytes text.old) }
    ensures { let old = string_bytes text.old in let new = string_bytes text.new in
        (more : List ℕ) → Begun (FnOnceReturnsAtMut F.FnOnce append text.old) more old
        → Appends more old new result }
{
    let end = text.len();
    let written = append(text);
    if written.is_err() {
        text.truncate(end);
    }
    written
}

/// Appends these bytes as text; where memory runs out, the text stays as it was.
pub fn write_bytes(text: &mut String, bytes: &[u8]) -> Result<(), AllocError>
    ensures { let old = string_bytes text.old in let new = string_bytes text.new in
        Appends (flat_map byte_text bytes.now) old new result }
{
    whole(text, |text| push_bytes(text, bytes))
}

/// Appends the packet's text; where memory runs out, the text stays as it was.
pub fn write_packet<A: Arithmetic>(text: &mut String, symbols: &[A::Sym]) -> Result<(), AllocError>
    ensures { let old = string_bytes text.old in let new = string_bytes text.new in
        Appends (packet_text A.bytes symbols.now) old new result }
{
    whole(text, |text| push_symbols::<A>(text, symbols))
}
