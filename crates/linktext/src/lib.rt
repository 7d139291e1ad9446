//! The text of a link: what a person hands in, and what is printed.
#![tactic(auto)]

pub mod fields;
pub mod lines;
pub mod plan_line;
