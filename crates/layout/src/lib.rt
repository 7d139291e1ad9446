//! The layout of a frame: its words, what they say, and what can be wrong with them.
#![tactic(auto)]

pub mod fault;
pub mod head;
pub mod words;
