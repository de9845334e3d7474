//! What whoever writes a file may choose.

use variant_write::Widths;

/// The choices of whoever writes a file.
#[derive(Clone, Copy, PartialEq, Eq, Debug, Drop)]
pub struct Settings {
    /// The widths of offsets and ids in Variant values, and of offsets in metadata.
    pub widths: Widths,
    /// A page closes with the row with which it weighs so many bytes, 1,024 to 16,777,216.
    pub page_bytes: u32,
    /// A row group closes with so many rows at most, 1 to 100,000.
    pub group_rows: u32,
}
