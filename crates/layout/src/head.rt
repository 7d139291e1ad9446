//! What a frame says of its block.
ghost use Rattle.std.specs.Prelude.{◌≡◌, false};
ghost use Rattle.layout.specs.Layout.{outside_shape, symbol_count as symbol_count_spec};

use codes::limits::{Parities, Sources, Symbols};

/// How a block is made up: K sub-symbols of its packet and P parities, each of L symbols. Any
/// numbers will do here; `is_outside` tells whether they are those of a block.
#[derive(Clone, Copy, PartialEq, Eq, Debug)]
pub struct BlockShape {
    /// K, which is 1 to 8.
    pub sources: u32,
    /// P, which is 1 to 4.
    pub parities: u32,
    /// L, which is 1 to 32.
    pub symbols: u32,
}

impl BlockShape {
    /// Whether K, P or L lies outside its limits.
    pub fn is_outside(self) -> bool
        ensures { result ≡ outside_shape self }
    {
        Sources::excludes(self.sources)
            || Parities::excludes(self.parities)
            || Symbols::excludes(self.symbols)
    }

    /// The symbols of a block, (K+P)·L. K, P and L must be within their limits.
    pub fn symbol_count(self) -> u32
        requires { outside_shape self ≡ false }
        ensures { result ≡ symbol_count_spec self }
    {
        (self.sources + self.parities) * self.symbols
    }
}

/// What a frame says of its block besides the block's bytes.
#[derive(Clone, Copy, PartialEq, Eq, Debug)]
pub struct Head {
    /// The slot that the block belongs to.
    pub slot: u32,
    /// K, P and L.
    pub shape: BlockShape,
    /// The bytes of a symbol; 1 or 4 in a frame without fault.
    pub width: u32,
}
