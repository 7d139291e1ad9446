//! What every arithmetic has: sums, coefficients with products and inverses, symbols that coefficients scale.
//! All that lies above knows an arithmetic only by these traits and their laws.
#![tactic(auto)]

pub mod arithmetic;
pub mod coefficients;
pub mod combine;
pub mod field;
pub mod sum;
