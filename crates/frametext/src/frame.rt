ghost use Rattle.std.specs.Prelude.{◌≡◌, IfOk, string_bytes};
ghost use Rattle.frametext.specs.FrameText.{text_of_frame, text_of_read_back, words_in};

use crate::word::word_text;
use std::alloc::{AllocError, Global};

// The lines of a frame, a word each. Bytes behind the last whole word are not shown.
pub fn frame_text(heap: Global, bytes: &[u8]) -> Result<String, AllocError>
    ensures { IfOk result (λ s. string_bytes s ≡ text_of_frame (words_in bytes.now)) }
{
    let mut text = String::new(heap);
    for (i, four) in bytes.as_chunks::<4>().0.iter().enumerate() {
        let line = word_text(heap, i, u32::from_be_bytes(*four))?;
        writeln!(text, "{line}")?;
    }
    Ok(text)
}

// What came of reading a frame of so many words back.
pub fn read_back_text(heap: Global, words: usize, same: bool) -> Result<String, AllocError>
    ensures { IfOk result (λ s. string_bytes s ≡ text_of_read_back words same) }
{
    let got = if same { "the same" } else { "another" };
    format!(in heap; "read back {words} words: {got} block")
}
