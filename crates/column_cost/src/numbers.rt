//! Numbers in the RLE/bit-packing hybrid.

ghost use Rattle.std.specs.Prelude.{◌≤◌, ◌<◌, length, IfOk};
ghost use Rattle.std.specs.List.{All};

use hybrid_levels::{decode, encode};
use std::alloc::Global;
use vs_bytes::NoMemory;

/// How many values each turn reads or writes.
pub(crate) const COUNT: usize = 1_000_000;

/// The bytes of a thousand runs of a thousand copies: the header 2 * 1000 in two bytes, and the number.
pub(crate) fn runs(alloc: Global) -> Result<Vec<u8>, NoMemory> {
    let mut bytes = Vec::new(alloc);
    for turn in 0..1000u32 {
        bytes.extend_from_slice(&[0xd0, 0x0f, (turn % 2) as u8])?;
    }
    Ok(bytes)
}

/// The bytes of one part of 125,000 groups: the header 2 * 125000 + 1 in three bytes, and the groups.
pub(crate) fn groups(alloc: Global, width: u8) -> Result<Vec<u8>, NoMemory>
    requires { width ≤ 32 }
{
    let mut bytes = Vec::new(alloc);
    bytes.extend_from_slice(&[0x91, 0xa1, 0x0f])?;
    bytes.resize(3 + 125_000 * usize::from(width), 0x5a)?;
    Ok(bytes)
}

/// Reads the numbers so often. Answers how many were read.
pub(crate) fn read(alloc: Global, width: u8, bytes: &[u8], turns: u32) -> Result<usize, NoMemory>
    requires { width ≤ 32 }
{
    let mut numbers = Vec::from_elem(alloc, 0u32, COUNT)?;
    let mut count: usize = 0;
    for _turn in 0..turns {
        if decode(width, bytes, &mut numbers).is_ok() {
            count = count.saturating_add(numbers.len());
        }
    }
    Ok(count)
}

// Levels of two bits: 32 equal ones and 32 that differ in turn.
#[tactic(auto, using(crate::proofs::Given::level_more))]
fn levels(alloc: Global) -> Result<Vec<u32>, NoMemory>
    ensures small { IfOk result (λ levels. All (λ level. level < 4) levels.items) }
    ensures few { IfOk result (λ levels. length levels.items ≤ 1000000) }
{
    let mut levels = Vec::with_capacity(alloc, COUNT)?;
    let mut state: u32 = 1;
    for i in 0..COUNT {
        if i % 64 >= 32 {
            state = state.wrapping_mul(1_664_525).wrapping_add(1_013_904_223);
        }
        levels.push(state / 65_536 % 4)?;
    }
    Ok(levels)
}

/// Writes the levels so often. Answers how many were written.
#[tactic(auto, using(crate::proofs::Given::levels_fit))]
pub(crate) fn write(alloc: Global, turns: u32) -> Result<usize, NoMemory> {
    let levels = levels(alloc)?;
    let mut bytes = Vec::new(alloc);
    let mut count: usize = 0;
    for _turn in 0..turns {
        bytes.clear();
        encode(&mut bytes, 2, &levels)?;
        count = count.saturating_add(levels.len());
    }
    Ok(count)
}
