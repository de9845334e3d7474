//! The bytes of a string that stand for themselves.

ghost use Rattle.std.specs.Prelude.{◌≡◌, ℕ, ◌<◌, ◌≤◌, true, false, length, slice_index};
ghost use Rattle.json_strings.specs.Reading.{is_plain};

// So many bytes are tested at once, after as many that are tested one by one: most strings are short.
const BLOCK: usize = 16;

/// How many leading bytes stand for themselves: those before the first quote, backslash or control
/// byte.
pub fn plain_len(text: &[u8]) -> usize
    ensures within { result ≤ length text.now }
    ensures plain { (k : ℕ) → k < result → is_plain (slice_index text.now k) ≡ true }
    ensures ended { result < length text.now → is_plain (slice_index text.now result) ≡ false }
{
    let front = plain_until(text, 0, text.len().min(BLOCK));
    if front < BLOCK {
        return front;
    }
    plain_until(text, past_blocks(text, front), text.len())
}

// The place of the first byte from `from` on that doesn't stand for itself, or `end` where there is
// none before it.
fn plain_until(text: &[u8], from: usize, end: usize) -> usize
    requires from { from ≤ end }
    requires end { end ≤ length text.now }
    ensures within { result ≤ end }
    ensures further { from ≤ result }
    ensures plain { (k : ℕ) → from ≤ k → k < result → is_plain (slice_index text.now k) ≡ true }
    ensures ended { result < end → is_plain (slice_index text.now result) ≡ false }
{
    let mut at = from;
    while at < end && is_plain_byte(text[at]) {
        at += 1;
    }
    at
}

// The place after the whole blocks from `from` on that stand for themselves.
fn past_blocks(text: &[u8], from: usize) -> usize
    requires { from ≤ length text.now }
    ensures within { result ≤ length text.now }
    ensures further { from ≤ result }
    ensures plain { (k : ℕ) → from ≤ k → k < result → is_plain (slice_index text.now k) ≡ true }
{
    let mut at = from;
    while text.len() - at >= BLOCK && is_plain_block(&text[at..at + BLOCK]) {
        at += BLOCK;
    }
    at
}

// It tests every byte, whatever those before it are, so that it becomes vector code.
fn is_plain_block(block: &[u8]) -> bool
    ensures { result ≡ true → (k : ℕ) → k < length block.now → is_plain (slice_index block.now k) ≡ true }
{
    let mut plain = true;
    for byte in block {
        plain &= is_plain_byte(*byte);
    }
    plain
}

#[tactic(auto, unfolding(crate::specs::Reading::is_plain))]
fn is_plain_byte(byte: u8) -> bool
    ensures { result ≡ is_plain byte }
{
    (byte >= 0x20) & (byte != b'"') & (byte != b'\\')
}
