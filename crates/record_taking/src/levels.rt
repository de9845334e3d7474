//! Levels.

/// Where a record stands.
#[derive(Clone, Copy, Drop)]
pub struct Levels {
    /// The repetition level of its first entry.
    pub rep: u16,
    /// How many lists stand round it.
    pub lists: u16,
    /// The definition level that is reached.
    pub def: u16,
}
