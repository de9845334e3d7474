//! The bytes of a string that are ASCII and stand for themselves: those of most strings are all so.

ghost use Rattle.std.specs.Prelude.{◌≡◌, ◌≤◌, length, map};
ghost use Rattle.std.specs.Simd.Lanes.{mask_l};
ghost use Rattle.json_strings.specs.AsciiRuns.{is_special, IsClearTo};

use std::simd::prelude::*;

// So many bytes are looked at at once.
const LANES: usize = 16;

/// A count of leading bytes that are ASCII and stand for themselves.
///
/// It is the greatest, which no clause says: only the time that a caller takes hangs on it.
pub fn ascii_len(text: &[u8]) -> usize
    ensures within { result ≤ length text.now }
    ensures clear { IsClearTo text.now result }
{
    let mut at = 0;
    while text.len() - at >= LANES {
        let marks = special_marks(u8x16::from_slice(&text[at..]));
        if marks != 0 {
            return at + marks.trailing_zeros() as usize;
        }
        at += LANES;
    }
    clear_end(text, at)
}

// The bits of the lanes that hold a special byte.
#[inline(always)]
fn special_marks(bytes: u8x16) -> u64
    ensures { result ≡ mask_l (map is_special bytes) }
{
    (bytes.simd_eq(u8x16::splat(b'"'))
        | bytes.simd_eq(u8x16::splat(b'\\'))
        | bytes.simd_lt(u8x16::splat(0x20))
        | u8x16::splat(0x7f).simd_lt(bytes)).to_bitmask()
}

// The place of the first special byte from `from` on.
fn clear_end(text: &[u8], from: usize) -> usize
    requires from { from ≤ length text.now }
    requires clear { IsClearTo text.now from }
    ensures within { result ≤ length text.now }
    ensures clear { IsClearTo text.now result }
{
    let mut at = from;
    while at < text.len() && !is_special(text[at]) {
        at += 1;
    }
    at
}

#[tactic(auto, unfolding(crate::specs::AsciiRuns::is_special))]
fn is_special(byte: u8) -> bool
    ensures { result ≡ is_special byte }
{
    (byte == b'"') | (byte == b'\\') | (byte < 0x20) | (0x7f < byte)
}
