//! The ends of a file: the magic number at both, and the footer's length.

ghost use Rattle.std.specs.Prelude.{◌≡◌, ◌≤◌, ◌+◌, length, bytes_eq, IfOk};
ghost use Rattle.vs_bytes.specs.Outcome.{Gives};
ghost use Rattle.footer_structs.specs.FileEnds.{magic, footer_limit};
ghost use Rattle.thrift_footer.specs.Opening.{footer_size};

use footer_structs::{FOOTER_LIMIT, MAGIC};
use vs_bytes::{Rule, number_at, part};

/// How many bytes the magic number at both ends and the footer's length take.
pub const LEAST_LEN: u64 = 12;

/// How many bytes the footer's length and the magic number after it take.
pub const TAIL_LEN: u64 = 8;

fn is_magic(bytes: &[u8]) -> bool
    ensures { result ≡ bytes_eq bytes.now magic }
{
    bytes == MAGIC.as_slice()
}

/// How long the footer is, by the file's length, its first 4 bytes and its last 8.
#[tactic(auto, using(std::proofs::lemmas::Bool::Decides::nat_tests), unfolding(crate::specs::Opening::footer_size))]
pub fn footer_size(len: u64, front: &[u8], tail: &[u8]) -> Result<u64, Rule>
    requires long { 12 ≤ len }
    requires whole { length tail.now ≡ 8 }
    ensures exact { Gives (λ n. n) result (footer_size len front.now tail.now) }
    ensures inside { IfOk result (λ n. n + 12 ≤ len) }
    ensures small { IfOk result (λ n. n ≤ footer_limit) }
{
    if !(is_magic(front) && is_magic(part(tail, 4, 4))) {
        return Err(Rule::NotParquet);
    }
    let size = u64::from(number_at(tail, 0, 4));
    if (FOOTER_LIMIT as u64) < size || len - LEAST_LEN < size {
        return Err(Rule::FooterLength);
    }
    Ok(size)
}
