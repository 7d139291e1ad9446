//! Reads a block back from its frame, and says what is wrong with a frame.
#![tactic(auto)]

pub mod check;
pub mod error;
pub mod read;
mod steps;
