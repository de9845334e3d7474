//! Ranges of files.

ghost use Rattle.std.specs.Prelude.{◌≡◌, ◌++◌, ◌∷◌, [], OnOk, OnErr};

use std::alloc::Global;
use vs_bytes::{NoMemory, Sequence, Text};

/// A range of a file that a read asked for: place and length are in bytes.
#[derive(Drop)]
pub struct ByteRange {
    pub name: Text,
    pub at: u64,
    pub size: u64,
}

/// Keeps one more range. After a refusal none is added.
pub fn keep_range(
    ranges: &mut Sequence<ByteRange>,
    alloc: Global,
    name: &Text,
    at: u64,
    size: u64,
) -> Result<(), NoMemory>
    ensures ok { OnOk result (ranges.new ≡ ranges.old ++ record { name = name.now; at = at; size = size } ∷ []) }
    ensures err { OnErr result (ranges.new ≡ ranges.old) }
{
    let range = ByteRange {
        name: Text::from_str(alloc, name.as_str())?,
        at,
        size,
    };
    ranges.push(range)
}
