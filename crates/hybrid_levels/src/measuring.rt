//! How many bytes numbers take, by the headers alone.

ghost use Rattle.std.specs.Prelude.{◌≤◌, length, IfOk};
ghost use Rattle.vs_bytes.specs.Outcome.{Gives};
ghost use Rattle.hybrid_levels.specs.Hybrid.{front_size, decoded_len};

use crate::headers::{content_count, content_len, part_header};
use vs_bytes::{Rule, rest};

// How many numbers and how many bytes the part at the front has.
#[tactic(auto, using(crate::proofs::Unpacked::content_taken), unfolding(crate::specs::Hybrid::front_part))]
fn part_size(width: usize, left: usize, bytes: &[u8]) -> Result<(usize, usize), Rule>
    requires { width ≤ 32 }
    ensures exact { Gives (λ p. p) result (front_size width left bytes.now) }
    ensures within { IfOk result (λ p. p.0 ≤ left) }
    ensures least { IfOk result (λ p. 1 ≤ p.1) }
    ensures inside { IfOk result (λ p. p.1 ≤ length bytes.now) }
{
    match part_header(width, left, bytes) {
        Ok((header, used)) => {
            let len = content_len(width, header);
            Ok((content_count(header).min(left), used + len))
        }
        Err(rule) => Err(rule),
    }
}

/// How many bytes the first `count` numbers take, or the violation that `decode` finds, in the time of the headers.
///
/// So a caller can see that the numbers are there before it makes room for them.
pub fn measure(width: u8, count: usize, bytes: &[u8]) -> Result<usize, Rule>
    requires { width ≤ 32 }
    ensures exact { Gives (λ used. used) result (decoded_len width count bytes.now) }
    ensures within { IfOk result (λ used. used ≤ length bytes.now) }
{
    let mut at = 0;
    let mut found = 0;
    while found < count {
        match part_size(usize::from(width), count - found, rest(bytes, at)) {
            Ok((more, used)) => {
                found += more;
                at += used;
            }
            Err(rule) => return Err(rule),
        }
    }
    Ok(at)
}
