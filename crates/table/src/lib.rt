//! Codes from a table of coefficients, for byte arithmetic.
#![tactic(auto)]

pub mod code;
pub mod coefficients;

pub use coefficients::CoefficientTable;
