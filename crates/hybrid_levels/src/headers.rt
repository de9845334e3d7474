//! The header of a part, a varint, and what it says of the content.

ghost use Rattle.std.specs.Prelude.{◌≡◌, ◌+◌, ◌<◌, ◌≤◌, ◌^◌, false, length, IfOk};
ghost use Rattle.vs_bytes.specs.Outcome.{Gives};
ghost use Rattle.hybrid_levels.specs.Hybrid.{varint, header, content_len, content_count, passes, part_header};

use vs_bytes::Rule;

// A number in at most `most` bytes, and how many bytes it took.
fn varint(most: usize, bytes: &[u8]) -> Result<(u64, usize), Rule>
    requires { most ≤ 5 }
    ensures exact { Gives (λ v. v) result (varint most bytes.now) }
    ensures fits { IfOk result (λ v. v.0 < 128 ^ most) }
    ensures least { IfOk result (λ v. 1 ≤ v.1) }
    ensures within { IfOk result (λ v. v.1 ≤ length bytes.now) }
{
    if most == 0 {
        return Err(Rule::RunTooLong);
    }
    match bytes.split_first() {
        None => Err(Rule::RunShort),
        Some((byte, rest)) => {
            if *byte < 128 {
                return Ok((u64::from(*byte), 1));
            }
            match varint(most - 1, rest) {
                Ok((high, used)) => Ok((u64::from(*byte) - 128 + 128 * high, used + 1)),
                Err(rule) => Err(rule),
            }
        }
    }
}

// The header at the front, and how many bytes it took.
#[tactic(auto, unfolding(crate::specs::Hybrid::header))]
fn header(bytes: &[u8]) -> Result<(u32, usize), Rule>
    ensures exact { Gives (λ h. h) result (header bytes.now) }
    ensures least { IfOk result (λ h. 1 ≤ h.1) }
    ensures within { IfOk result (λ h. h.1 ≤ length bytes.now) }
{
    match varint(5, bytes) {
        Ok((number, used)) => {
            if number < 4_294_967_296 {
                Ok((number as u32, used))
            } else {
                Err(Rule::RunTooLong)
            }
        }
        Err(rule) => Err(rule),
    }
}

/// How many bytes the content after a header takes.
pub(crate) fn content_len(width: usize, header: u32) -> usize
    requires { width ≤ 32 }
    ensures { result ≡ content_len width header }
{
    if header % 2 == 0 {
        width.div_ceil(8)
    } else {
        header as usize / 2 * width
    }
}

/// How many numbers it has.
pub(crate) fn content_count(header: u32) -> usize
    ensures { result ≡ content_count header }
{
    if header % 2 == 0 {
        header as usize / 2
    } else {
        8 * (header as usize / 2)
    }
}

fn passes(header: u32, left: usize) -> bool
    ensures { result ≡ passes header left }
{
    if header % 2 == 0 {
        left < content_count(header)
    } else {
        content_count(header).saturating_sub(left) >= 8
    }
}

/// The header of the part at the front, and how many bytes it took, where the whole part is there and has no number
/// too many.
#[tactic(auto, unfolding(crate::specs::Hybrid::part_header))]
pub(crate) fn part_header(width: usize, left: usize, bytes: &[u8]) -> Result<(u32, usize), Rule>
    requires { width ≤ 32 }
    ensures exact { Gives (λ h. h) result (part_header width left bytes.now) }
    ensures few { IfOk result (λ h. passes h.0 left ≡ false) }
    ensures least { IfOk result (λ h. 1 ≤ h.1) }
    ensures inside { IfOk result (λ h. h.1 + content_len width h.0 ≤ length bytes.now) }
{
    match header(bytes) {
        Ok((header, used)) => {
            if bytes.len() < used + content_len(width, header) {
                return Err(Rule::RunShort);
            }
            if passes(header, left) {
                return Err(Rule::RunTooLong);
            }
            Ok((header, used))
        }
        Err(rule) => Err(rule),
    }
}
