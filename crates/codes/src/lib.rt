//! Codes: which earlier sub-symbols each parity of a block adds up.
#![tactic(auto)]

pub mod back_diagonal;
pub mod code;
pub mod limits;
pub mod link;
pub mod main_diagonal;
pub mod overlay;
pub mod spread;
pub mod step;
