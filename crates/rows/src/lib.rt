//! The memory of a solver: its rows, in two slices, and the steps on them.
#![tactic(auto)]

pub mod equations;
mod items;
pub mod memory;
pub mod moving;
pub mod reading;
pub mod size;
pub mod steps;
