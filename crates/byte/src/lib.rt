//! Byte arithmetic: coefficients are the field of 256 elements with the polynomial x^8 + x^4 + x^3 + x^2 + 1, symbols
//! are bytes, which a coefficient scales by the product of the two.
#![tactic(auto)]

pub mod element;
pub mod field;
pub mod laws;
pub mod product;
pub mod sums;
pub mod symbol;
#[cfg(test)]
mod tests;
pub mod whole;

pub use element::Byte;
pub use laws::bytes_are_numbers;
pub use symbol::ByteSymbol;
pub use whole::ByteArithmetic;
