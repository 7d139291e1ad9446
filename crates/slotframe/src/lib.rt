// What is shown of one slot: its packet with its parities, the frame of its block, and what is read back from the frame.
#![tactic(auto)]

mod compare;
mod framed;
pub mod show;
