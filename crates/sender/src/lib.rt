//! The sending end of a link: each packet goes out with its parities.
#![tactic(auto)]

mod history;
mod laws;
pub mod sender;
mod window;

pub use laws::sent_by_a_stream;
