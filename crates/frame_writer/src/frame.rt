//! A block that is within its limits, word by word.
ghost use Rattle.std.specs.Prelude.{◌≡◌, ◌+◌, ◌*◌, ◌^◌, ◌<◌, ◌≤◌, ◌++◌};
ghost use Rattle.std.specs.Prelude.{length, take, drop, slice_index};
ghost use Rattle.std.specs.List.{flat_map};
ghost use Rattle.fills.specs.Over.{written_over};
ghost use Rattle.layout.specs.Kinds.{kind_number};
ghost use Rattle.layout.specs.Layout.{count_of_data, word_of_data, word_of_shape};
ghost use Rattle.layout.specs.Words.{word_bytes};
ghost use Rattle.layout.specs.Frames.{frame_of, head_for, words_of, Within};
ghost use Rattle.frame_writer.specs.Writing.{word_list};

use arithmetic::arithmetic::Arithmetic;
use layout::head::BlockShape;
use layout::words::Kind;

// A symbol is written anew for each of its bytes, so that no copy of the block is kept.
/// A block within its limits, to be written as a frame.
#[derive(Drop)]
pub struct Frame<'a, A: Arithmetic> {
    /// The slot that the block belongs to.
    pub slot: u32,
    /// K, P and L.
    pub shape: BlockShape,
    /// The symbols: those of the packet, and then those of the parities.
    pub block: &'a [A::Sym],
    pub ghost within: { Within slot shape block.now },
}

// A word of this kind. Whatever it says fits the bits below the kind.
fn word_of(kind: Kind, said: u32) -> u32
    requires { said < 2 ^ 28 }
    ensures { result ≡ kind_number kind * 2 ^ 28 + said }
{
    (kind.number() << 28) | said
}

// Lays the word over word i of the output.
fn put_word(out: &mut [u8], i: usize, word: u32)
    requires { 4 * i + 4 ≤ length out.old }
    ensures { out.new ≡ take (4 * i) out.old ++ (word_bytes word ++ drop (4 * i + 4) out.old) }
{
    out[4 * i..4 * i + 4].copy_from_slice(&word.to_be_bytes());
}

impl<'a, A: Arithmetic> Frame<'a, A> {
    /// The frame of this block, which must be within its limits: slot, K, P, L, and (K+P)·L symbols.
    pub fn new(slot: u32, shape: BlockShape, block: &'a [A::Sym]) -> Self
        requires { Within slot shape block.now }
        ensures slot { result.slot ≡ slot }
        ensures shape { result.shape ≡ shape }
        ensures block { result.block.now ≡ block.now }
    {
        Frame { slot, shape, block }
    }

    // The bytes of the block.
    fn byte_count(&self) -> usize
        ensures value { result ≡ length (flat_map A.bytes.write self.now.block.now) }
        ensures bound { result ≤ 1536 }
    {
        self.block.len() * A::symbol_width()
    }

    // Byte n of them; zero behind the last.
    fn byte(&self, n: usize) -> u8
        ensures { result ≡ slice_index (flat_map A.bytes.write self.now.block.now) n }
    {
        let width = A::symbol_width();
        match self.block.get(n / width) {
            Some(symbol) => A::to_bytes(*symbol)[n % width],
            None => 0,
        }
    }

    // Data words for them, three bytes to a word.
    fn data_count(&self) -> usize
        ensures value { let bytes = flat_map A.bytes.write self.now.block.now in
            result ≡ count_of_data (length bytes) }
        ensures bound { result ≤ 512 }
    {
        self.byte_count().div_ceil(3)
    }

    /// The number of the frame's words: the slot's, the shape's, those of the data, and the count.
    pub fn word_count(&self) -> usize
        ensures value { result ≡ words_of A.bytes self.now.slot self.now.shape }
        ensures bound { result ≤ 515 }
    {
        3 + self.data_count()
    }

    // Kind 2. The limits keep each field below the one before it.
    fn shape_word(&self) -> u32
        ensures { result ≡ word_of_shape (head_for A.bytes self.now.slot self.now.shape) }
    {
        let shape = self.shape;
        let width = A::symbol_width() as u32;
        word_of(
            Kind::Shape,
            (shape.sources << 24) | (shape.parities << 20) | (width << 16) | shape.symbols,
        )
    }

    // Kind 3: how many bytes data word j carries, and these, with zeros where the last word carries
    // fewer.
    fn data_word(&self, j: usize) -> u32
        requires { 3 * j < length (flat_map A.bytes.write self.now.block.now) }
        ensures { result ≡ word_of_data (flat_map A.bytes.write self.now.block.now) j }
    {
        let carried = (self.byte_count() - 3 * j).min(3) as u8;
        word_of(
            Kind::Data,
            u32::from_be_bytes([
                carried,
                self.byte(3 * j),
                self.byte(3 * j + 1),
                self.byte(3 * j + 2),
            ]),
        )
    }

    // Word i of the frame.
    fn word(&self, i: usize) -> u32
        requires { i < words_of A.bytes self.now.slot self.now.shape }
        ensures { let words = word_list A.bytes self.now.slot self.now.shape self.now.block.now in
            result ≡ slice_index words i }
    {
        match i {
            0 => word_of(Kind::Slot, self.slot),
            1 => self.shape_word(),
            _ if i - 2 < self.data_count() => self.data_word(i - 2),
            _ => word_of(Kind::Count, i as u32),
        }
    }

    /// Writes the frame to the output's first bytes, of which there must be as many. What lies
    /// behind them stays.
    pub fn write(&self, out: &mut [u8])
        requires { 4 * words_of A.bytes self.now.slot self.now.shape ≤ length out.old }
        ensures { let frame = frame_of A.bytes self.now.slot self.now.shape self.now.block.now in
            out.new ≡ written_over frame out.old }
    {
        // Counted: tried with `chunks_exact_mut`, and the invariant of the loop cannot then name
        // the bytes that are written. The data words have a loop of their own, in which nothing
        // has to be asked of a word.
        put_word(out, 0, self.word(0));
        put_word(out, 1, self.word(1));
        let count = self.data_count();
        for j in 0..count {
            put_word(out, 2 + j, self.data_word(j));
        }
        put_word(out, 2 + count, self.word(2 + count));
    }
}
