//! Packets as text: lower-case hexadecimal, two digits to a byte.
#![tactic(auto)]

mod digits;
pub mod error;
pub mod read;
pub mod write;
