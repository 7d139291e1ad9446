//! Takes in blocks as a studio does, and compares what is then known.
#![tactic(auto)]

#[cfg(test)]
mod blocks;
pub mod hearing;
