//! What became of a batch.

/// What became of a batch of equations.
#[derive(Clone, Copy, PartialEq, Eq, Debug)]
pub enum BatchOutcome {
    /// They are part of what the memory says.
    Taken,
    /// No content satisfies them and what the memory says.
    Contradiction,
}
