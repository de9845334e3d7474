//! Numbers from the front of bytes.

ghost use Rattle.std.specs.Prelude.{◌≡◌, ◌≤◌, false, length, take, IfOk};
ghost use Rattle.vs_bytes.specs.Outcome.{Gives};
ghost use Rattle.vs_bytes.specs.PackedNumbers.{little};
ghost use Rattle.hybrid_levels.specs.Hybrid.{content_len, content_count, content_numbers, passes, front_part, decoded};

use crate::headers::{content_count, content_len, part_header};
use crate::unpacking::unpack_groups;
use vs_bytes::{Rule, number_at, part, rest};

// The number of a run.
fn run_number(bytes: &[u8]) -> u32
    requires { length bytes.now ≤ 4 }
    ensures { result ≡ little bytes.now }
{
    if bytes.is_empty() {
        return 0;
    }
    number_at(bytes, 0, bytes.len())
}

// Fills the front with what the content has, and answers how many numbers that gave.
fn fill(width: usize, header: u32, content: &[u8], into: &mut [u32]) -> usize
    requires narrow { width ≤ 32 }
    requires whole { length content.now ≡ content_len width header }
    requires few { passes header (length into.old) ≡ false }
    ensures numbers { take result into.new ≡ take (length into.old) (content_numbers width header content.now) }
    ensures within { result ≤ length into.old }
{
    let count = content_count(header).min(into.len());
    if header % 2 == 0 {
        into[..count].fill(run_number(content));
    } else {
        unpack_groups(width, content, &mut into[..count]);
    }
    count
}

// Fills the front with the part that stands first. Answers how many numbers and how many bytes it has.
#[tactic(auto, unfolding(crate::specs::Hybrid::front_part))]
fn front_part(width: usize, bytes: &[u8], into: &mut [u32]) -> Result<(usize, usize), Rule>
    requires { width ≤ 32 }
    ensures exact { Gives (λ p. (take p.0 into.new, p.1)) result (front_part width (length into.old) bytes.now) }
    ensures within { IfOk result (λ p. p.0 ≤ length into.old) }
    ensures least { IfOk result (λ p. 1 ≤ p.1) }
    ensures inside { IfOk result (λ p. p.1 ≤ length bytes.now) }
{
    match part_header(width, into.len(), bytes) {
        Ok((header, used)) => {
            let len = content_len(width, header);
            let count = fill(width, header, part(bytes, used, len), into);
            Ok((count, used + len))
        }
        Err(rule) => Err(rule),
    }
}

/// Fills `into` with the numbers at the front of `bytes`, and answers how many bytes they take.
///
/// `width` is in bits. Bytes after the last part are passed over. After an `Err` it is open what `into` holds.
/// `RunShort`: the bytes end before the last number, or within a part that reaches it. `RunTooLong`: a header
/// out of its range, or a part with more numbers than are left, a last group's filling aside.
pub fn decode(width: u8, bytes: &[u8], into: &mut [u32]) -> Result<usize, Rule>
    requires { width ≤ 32 }
    ensures exact { Gives (λ used. (into.new, used)) result (decoded width (length into.old) bytes.now) }
    ensures within { IfOk result (λ used. used ≤ length bytes.now) }
{
    let mut at = 0;
    let mut filled = 0;
    while filled < into.len() {
        match front_part(usize::from(width), rest(bytes, at), &mut into[filled..]) {
            Ok((count, used)) => {
                filled += count;
                at += used;
            }
            Err(rule) => return Err(rule),
        }
    }
    Ok(at)
}
