//! Word arithmetic: coefficients are single bits, symbols are 32-bit words, and a sum is exclusive or.
#![tactic(auto)]

pub mod bit;
pub mod element;
pub mod laws;
pub mod sums;
pub mod whole;

pub use bit::Bit;
pub use element::Word;
pub use laws::words_are_numbers;
pub use whole::WordArithmetic;
