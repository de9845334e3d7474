//! What is wrong in a row group, and where.

use vs_bytes::Rule;

/// A place in a row group.
#[derive(Clone, Copy, PartialEq, Eq, Debug, Drop)]
pub enum PlaceInGroup {
    /// The chunk of a leaf, by the leaf's number.
    Leaf(usize),
    /// A row, counted from 0.
    Row(u64),
}

/// A rule that a row group violates.
#[derive(Clone, Copy, PartialEq, Eq, Debug, Drop)]
pub struct GroupFault {
    /// The rule.
    pub rule: Rule,
    /// Where it is violated.
    pub place: PlaceInGroup,
}
