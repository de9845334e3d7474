//! Why a text is no schema.

use vs_bytes::NoMemory;

/// Why there is no schema.
#[derive(Clone, Copy, PartialEq, Eq, Debug, Drop)]
pub enum SchemaFault {
    /// The text isn't in the grammar of schemas, or is past one of its limits.
    BadSchema,
    /// There was no memory for what was read.
    NoMemory,
}
