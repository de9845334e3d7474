//! Truth values, which are bits.

ghost use Rattle.std.specs.Prelude.{◌≡◌, ◌==◌, ◌*◌, ◌/◌, ◌%◌, ◌^◌, ◌<◌, length};
ghost use Rattle.vs_bytes.specs.Outcome.{Makes};
ghost use Rattle.vs_bytes.specs.PackedNumbers.{little};
ghost use Rattle.plain_values.specs.Plain.{booleans};

use std::alloc::Global;
use vs_bytes::{Cell, Cells, Refusal, Refused, Rule};

// The truth value in a bit.
fn truth_at(bytes: &[u8], place: usize) -> bool
    requires { place < 8 * length bytes.now }
    ensures { result ≡ (little bytes.now / 2 ^ place % 2 == 1) }
{
    (bytes[place / 8] >> (place % 8)) % 2 == 1
}

/// `count` truth values from the front.
#[tactic(auto, unfolding(crate::specs::Plain::booleans))]
pub(crate) fn booleans(alloc: Global, count: usize, bytes: &[u8]) -> Result<Cells, Refusal>
    ensures { Makes (λ cells. cells) result (booleans count bytes.now) }
{
    if bytes.len() < count.div_ceil(8) {
        return Err(Refused::Fault(Rule::PlainShort));
    }
    let mut found = match Cells::with_capacity(alloc, count) {
        Ok(room) => room,
        Err(_) => return Err(Refused::NoMemory),
    };
    for place in 0..count {
        match found.push(Cell::Bool(truth_at(bytes, place))) {
            Ok(()) => (),
            Err(_) => return Err(Refused::NoMemory),
        }
    }
    Ok(found)
}
