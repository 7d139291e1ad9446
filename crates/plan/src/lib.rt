//! Plans: what the cards in truck and studio agree on, and the code that follows from them.
#![tactic(auto)]

pub mod card;
pub mod code;
mod name;

pub use card::{ArithmeticName, Plan};
pub use code::PlanCode;
