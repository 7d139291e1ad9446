ghost use Rattle.std.specs.Prelude.{◌≡◌, Some, IfOk, string_bytes};
ghost use Rattle.frametext.specs.WordText.{kind_numbered, says, text_of_word};
ghost use Rattle.layout.specs.Kinds.{kind_of};
ghost use Rattle.layout.specs.declared.words.Kind.TheVariants.{Data};

use hextext::write::write_bytes;
use layout::words::{Kind, bits, kind_of};
use std::alloc::{AllocError, Global};

// The bytes that a word of data says it carries; one that says more than three has three.
fn data_text(heap: Global, word: u32) -> Result<String, AllocError>
    ensures { IfOk result (λ s. string_bytes s ≡ says (Some Data) word) }
{
    let count = bits(word, 27, 24);
    let mut text = format!(in heap; "data {count} bytes ")?;
    let four = word.to_be_bytes();
    write_bytes(&mut text, &four[1..1 + count.min(3) as usize])?;
    Ok(text)
}

// What a word says, by its kind. Functions here and no `Display`: a frame's word is a plain number.
fn says_text(heap: Global, word: u32) -> Result<String, AllocError>
    ensures { IfOk result (λ s. string_bytes s ≡ says (kind_numbered (kind_of word)) word) }
{
    match kind_of(word) {
        Some(Kind::Slot) => format!(in heap; "slot {}", bits(word, 27, 0)),
        // The reader reads these into a `Head`, which has a slot too; a word alone does not tell it.
        Some(Kind::Shape) => {
            let sources = bits(word, 27, 24);
            let parities = bits(word, 23, 20);
            let width = bits(word, 19, 16);
            let symbols = bits(word, 15, 0);
            format!(in heap; "shape K={sources} P={parities} width={width} L={symbols}")
        }
        Some(Kind::Data) => data_text(heap, word),
        Some(Kind::Count) => format!(in heap; "count {}", bits(word, 27, 0)),
        None => format!(in heap; "unknown kind {}", bits(word, 31, 28)),
    }
}

// A word of a frame: which it is, its bytes, and what it says.
pub fn word_text(heap: Global, index: usize, word: u32) -> Result<String, AllocError>
    ensures { IfOk result (λ s. string_bytes s ≡ text_of_word index word) }
{
    let said = says_text(heap, word)?;
    format!(in heap; "word {index} {word:08x} {said}")
}
