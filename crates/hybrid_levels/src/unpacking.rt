//! Groups of packed numbers.

ghost use Rattle.std.specs.Prelude.{◌≡◌, ◌+◌, ◌*◌, ◌/◌, ◌%◌, ◌^◌, ◌≤◌, length};
ghost use Rattle.vs_bytes.specs.PackedNumbers.{unpacked, little};

use byteorder::{ByteOrder, LittleEndian};
use vs_bytes::rest;

// A number with the same lowest `size` bytes as the one that the bytes are.
fn low_bytes(bytes: &[u8], size: usize) -> u64
    requires most { size ≤ 8 }
    requires there { size ≤ length bytes.now }
    ensures { result % 2 ^ (8 * size) ≡ little bytes.now % 2 ^ (8 * size) }
{
    if bytes.len() >= 8 {
        return LittleEndian::read_u64(bytes);
    }
    if size == 0 {
        return 0;
    }
    LittleEndian::read_uint(bytes, size)
}

// The same for up to 16 bytes.
fn low_bytes_wide(bytes: &[u8], size: usize) -> u128
    requires most { size ≤ 16 }
    requires there { size ≤ length bytes.now }
    ensures { result % 2 ^ (8 * size) ≡ little bytes.now % 2 ^ (8 * size) }
{
    if bytes.len() >= 16 {
        return LittleEndian::read_u128(bytes);
    }
    if size == 0 {
        return 0;
    }
    LittleEndian::read_uint128(bytes, size)
}

// The number in the lowest bits of a word.
#[tactic(auto, using(crate::proofs::Unpacked::low_small))]
fn lowest(width: usize, word: u64) -> u32
    requires { width ≤ 32 }
    ensures { result ≡ word % 2 ^ width }
{
    (word & ((1u64 << width) - 1)) as u32
}

// The first 8 numbers of a word, with no loop: their places are shifts by the same width.
#[inline(always)]
fn eight_of_word(width: usize, word: u64) -> [u32; 8]
    requires { width ≤ 8 }
    ensures { result ≡ unpacked width 8 word }
{
    let from_1 = word >> width;
    let from_2 = from_1 >> width;
    let from_3 = from_2 >> width;
    let from_4 = from_3 >> width;
    let from_5 = from_4 >> width;
    let from_6 = from_5 >> width;
    let from_7 = from_6 >> width;
    [
        lowest(width, word),
        lowest(width, from_1),
        lowest(width, from_2),
        lowest(width, from_3),
        lowest(width, from_4),
        lowest(width, from_5),
        lowest(width, from_6),
        lowest(width, from_7),
    ]
}

// The first 4 numbers of a word. Two of them fit 64 bits, which are shifted in one instruction.
fn four_of_word(width: usize, word: u128) -> [u32; 4]
    requires { width ≤ 32 }
    ensures { result ≡ unpacked width 4 word }
{
    let low = (word % 18_446_744_073_709_551_616) as u64;
    let high = ((word >> (2 * width)) % 18_446_744_073_709_551_616) as u64;
    [
        lowest(width, low),
        lowest(width, low >> width),
        lowest(width, high),
        lowest(width, high >> width),
    ]
}

// The 4 numbers from bit `place` on.
#[inline(always)]
fn four_from(width: usize, bytes: &[u8], place: usize) -> [u32; 4]
    requires narrow { width ≤ 32 }
    requires one_word { place % 8 + 4 * width ≤ 128 }
    requires there { place + 4 * width ≤ 8 * length bytes.now }
    ensures { result ≡ unpacked width 4 (little bytes.now / 2 ^ place) }
{
    let skipped = place % 8;
    let size = (skipped + 4 * width).div_ceil(8);
    let word = low_bytes_wide(rest(bytes, place / 8), size);
    four_of_word(width, word >> skipped)
}

// The 8 numbers of a group.
#[inline(always)]
fn eight(width: usize, bytes: &[u8]) -> [u32; 8]
    requires narrow { width ≤ 32 }
    requires there { width ≤ length bytes.now }
    ensures { result ≡ unpacked width 8 (little bytes.now) }
{
    if width <= 8 {
        return eight_of_word(width, low_bytes(bytes, width));
    }
    let low = four_from(width, bytes, 0);
    let high = four_from(width, bytes, 4 * width);
    [
        low[0], low[1], low[2], low[3], high[0], high[1], high[2], high[3],
    ]
}

// The numbers of a group, as many as there is room for.
fn unpack_group(width: usize, bytes: &[u8], into: &mut [u32])
    requires narrow { width ≤ 32 }
    requires there { width ≤ length bytes.now }
    requires few { length into.old ≤ 8 }
    ensures { into.new ≡ unpacked width (length into.old) (little bytes.now) }
{
    let len = into.len();
    if len == 8 {
        into.copy_from_slice(&eight(width, bytes));
    } else {
        into.copy_from_slice(&eight(width, bytes)[..len]);
    }
}

/// Numbers of groups, as many as there is room for.
pub(crate) fn unpack_groups(width: usize, bytes: &[u8], into: &mut [u32])
    requires narrow { width ≤ 32 }
    requires there { (length into.old + 7) / 8 * width ≤ length bytes.now }
    ensures { into.new ≡ unpacked width (length into.old) (little bytes.now) }
{
    let mut at = 0;
    let mut filled = 0;
    while filled < into.len() {
        let end = filled + (into.len() - filled).min(8);
        unpack_group(width, rest(bytes, at), &mut into[filled..end]);
        at += width;
        filled = end;
    }
}
