//! Numbers packed into bytes.

ghost use Rattle.std.specs.Prelude.{◌≡◌, ◌+◌, ◌*◌, ◌^◌, ◌<◌, ◌≤◌, ◌⊎◌, ℕ, drop, length, slice_index};
ghost use Rattle.vs_bytes.specs.PackedNumbers.{unpacked, packed};

// The `have` bits of the numbers before place `next` that no byte has yet.
#[derive(Clone, Copy)]
struct Waiting {
    bits: u64,
    have: usize,
    next: usize,
}

// Takes up numbers until there are bits for a byte, or no number is left.
fn refilled(width: usize, numbers: &[u32], waiting: Waiting) -> Waiting
    requires narrow { width ≤ 32 }
    requires fit { (k : ℕ) → slice_index numbers.now k < 2 ^ width }
    requires small { waiting.bits < 2 ^ waiting.have }
    requires few { waiting.have < 40 }
    ensures same { result.bits + 2 ^ result.have * packed width (drop result.next numbers.now) ≡ waiting.bits + 2 ^ waiting.have * packed width (drop waiting.next numbers.now) }
    ensures small { result.bits < 2 ^ result.have }
    ensures few { result.have < 40 }
    ensures enough { (8 ≤ result.have) ⊎ (length numbers.now ≤ result.next) }
{
    let mut bits = waiting.bits;
    let mut have = waiting.have;
    let mut next = waiting.next;
    while have < 8 && next < numbers.len() {
        bits += u64::from(numbers[next]) << have;
        have += width;
        next += 1;
    }
    Waiting { bits, have, next }
}

/// Fills `into` with the bytes of packed numbers.
pub(crate) fn pack(width: usize, numbers: &[u32], into: &mut [u8])
    requires narrow { width ≤ 32 }
    requires fit { (k : ℕ) → slice_index numbers.now k < 2 ^ width }
    ensures { into.new ≡ unpacked 8 (length into.old) (packed width numbers.now) }
{
    let mut waiting = Waiting {
        bits: 0,
        have: 0,
        next: 0,
    };
    for i in 0..into.len() {
        let filled = refilled(width, numbers, waiting);
        into[i] = (filled.bits % 256) as u8;
        waiting = Waiting {
            bits: filled.bits / 256,
            have: filled.have.saturating_sub(8),
            next: filled.next,
        };
    }
}
