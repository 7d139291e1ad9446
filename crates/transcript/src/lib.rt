//! What linksend prints for a link's text: the plan, and slot by slot what goes on air.
#![tactic(auto)]

mod lines;
mod link;
pub mod reading;
mod refusing;
pub mod whole;
