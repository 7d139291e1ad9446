//! Writes a block as a frame.
#![tactic(auto)]

pub mod frame;
pub mod write;
