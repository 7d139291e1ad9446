// Frames as text: a line for each word, with what the word says, and what came of reading a frame back.
#![tactic(auto)]

pub mod frame;
pub mod word;
