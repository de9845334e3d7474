//! Statistics built from entries.

ghost use Rattle.std.specs.Prelude.{◌≡◌, Bool, IfOk};
ghost use Rattle.group_stats.specs.Accurate.{null_count, stats_of, AreAccurate};

use std::alloc::Global;
use thrift_structs::Stats;
use vs_bytes::{Entry, Leaf, NoMemory};

fn null_count(entries: &[Entry]) -> u64
    ensures { result ≡ null_count entries.now }
{
    entries.iter().filter(|entry| entry.value.is_none()).count() as u64
}

/// The statistics of the entries of a leaf column's chunk: how many of them have no value.
///
/// Only memory can fail.
pub fn build(_alloc: Global, _leaf: &Leaf, entries: &[Entry]) -> Result<Stats, NoMemory>
    ensures exact { IfOk result (λ stats. stats ≡ stats_of entries.now) }
    ensures accurate { IfOk result (λ stats. (ordered : Bool) → AreAccurate _leaf.now ordered entries.now stats) }
{
    Ok(Stats {
        nulls: Some(null_count(entries)),
        least: None,
        greatest: None,
    })
}
