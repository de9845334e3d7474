//! What stands at the ends of a file (the parquet-format README, "File format").

/// The magic number, at both ends.
pub const MAGIC: &[u8; 4] = b"PAR1";

/// How many bytes a footer has at most.
pub const FOOTER_LIMIT: usize = 67_108_864;
