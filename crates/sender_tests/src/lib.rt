//! Makes senders and sends, within the limits and outside them, and compares which refusal comes
//! and what is then left.
#![tactic(auto)]

#[cfg(test)]
mod making;
#[cfg(test)]
mod numbers;
#[cfg(test)]
mod parts;
#[cfg(test)]
mod sending;
#[cfg(test)]
mod zeros;
