//! Solves for unknowns: keeps what equations say of them in a form from which everything can be
//! read that follows. Calls that require a memory in kept form are inner ones: their callers have
//! tested it.
#![tactic(auto)]

pub mod batch;
mod clear;
pub mod give;
mod join;
pub mod kept;
pub mod move_on;
pub mod read;
mod settle;
pub mod take_in;
pub mod zero;
