// Runs whole texts, good and damaged, and compares what is printed.
#![tactic(auto)]

#[cfg(test)]
mod end_of_link;
#[cfg(test)]
mod tests;
