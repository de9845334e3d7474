//! The steps of a path.

use vs_bytes::Text;

/// One step of a path, from a value to parts of it.
///
/// Unused room of [`Steps`](crate::Steps) holds the default, which is a star.
#[derive(Debug, Default, Drop)]
pub enum Step {
    /// `.name` or `["name"]`: the member of that name, where the value is an object that has it.
    Field(Text),
    /// `[7]`: the element of an array at that place, counted from 0.
    Index(u32),
    /// `[*]`: all elements of an array, in order.
    #[default]
    Star,
}
