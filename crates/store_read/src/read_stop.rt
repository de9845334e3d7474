//! Why a part of a file wasn't read.

/// A violation, a failing shelf, or no memory.
#[derive(Clone, Copy, PartialEq, Eq, Debug, Drop)]
pub enum ReadStop<F: Drop> {
    /// What the file violates.
    Violated(F),
    /// The shelf failed.
    Failed,
    /// There was no memory.
    NoMemory,
}
