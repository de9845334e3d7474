//! The widths of numbers.

/// The least counts of bytes of the offsets, and of the field ids, in the objects and arrays that are written: 1
/// to 4 each.
#[derive(Clone, Copy, PartialEq, Eq, Debug, Drop)]
pub struct Widths {
    /// Of offsets.
    pub offset: u8,
    /// Of field ids.
    pub id: u8,
}
