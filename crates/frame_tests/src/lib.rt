//! Writes, reads and shows frames, whole and damaged, and compares what comes of it.
#![tactic(auto)]

#[cfg(test)]
mod reading;
#[cfg(test)]
mod showing;
#[cfg(test)]
mod writing;
