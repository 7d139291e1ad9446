//! The words of a frame: 32 bits each, of which the top four are the kind.
ghost use Rattle.std.specs.Prelude.{◌≡◌, ◌<◌, ◌≤◌};
ghost use Rattle.layout.specs.Words.{bits as bits_spec};
ghost use Rattle.layout.specs.Kinds.{kind_number, KindIs};

/// The kind of a word, with its number.
#[derive(Clone, Copy, PartialEq, Eq, Debug)]
pub enum Kind {
    /// The first word, which says the slot.
    Slot = 1,
    /// The second word, which says K, P, the bytes of a symbol, and L.
    Shape = 2,
    /// A word that carries bytes of the block.
    Data = 3,
    /// The last word, which says how many came before it.
    Count = 4,
}

impl Kind {
    /// The kind's number, which a word's top four bits hold.
    pub fn number(self) -> u32
        ensures { result ≡ kind_number self }
    {
        self as u32
    }
}

/// Bits `high` to `low` of a word, as a number. The word must have these bits, in this order.
pub fn bits(word: u32, high: u32, low: u32) -> u32
    requires order { low ≤ high }
    requires within { high < 32 }
    ensures { result ≡ bits_spec high low word }
{
    (word >> low) & (u32::MAX >> (31 - (high - low)))
}

// A function and no conversion: a word is more than its kind.
/// The kind of a word, if its number is that of one.
pub fn kind_of(word: u32) -> Option<Kind>
    ensures { KindIs result word }
{
    match bits(word, 31, 28) {
        1 => Some(Kind::Slot),
        2 => Some(Kind::Shape),
        3 => Some(Kind::Data),
        4 => Some(Kind::Count),
        _ => None,
    }
}
