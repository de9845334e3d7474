//! Structs, read in one pass.

ghost use Rattle.std.specs.Prelude.{◌≡◌, ℤ, Option};
ghost use Rattle.vs_bytes.specs.Outcome.{Makes};
ghost use Rattle.thrift_compact.specs.Numbers.{mapped};
ghost use Rattle.thrift_compact.specs.Trees.{Value, Shapes, struct_at, known_at};
ghost use Rattle.thrift_compact.specs.Slots.{filled, read_by};

use std::alloc::Global;
use thrift_compact::field_at;
use vs_bytes::{Refusal, Rule};

/// A struct by the slots of its known fields. `shapes` is the table of these fields.
pub trait Draft {
    type Held: Drop;

    type Item: Drop;

    ghost shapes: { Shapes };

    ghost start: { Self.Held };

    ghost put: { Self.Held → ℤ → Value → Self.Held };

    ghost finish: { Self.Held → Option Self.Item };

    /// The slots before the first field.
    fn start() -> Self::Held
        ensures { result ≡ start };

    /// Reads the value of a field into its slot, or passes over it.
    fn field<'a>(
        held: &mut Self::Held,
        alloc: Global,
        id: i16,
        kind: u8,
        bytes: &'a [u8],
    ) -> Result<&'a [u8], Refusal>
        ensures { Makes (λ rest. (held.new, rest.now)) result (mapped (put held.old id) (known_at shapes id kind bytes.now)) };

    /// The struct, or `None` where a field is missing, stands twice, or has another type or value.
    fn finished(held: Self::Held) -> Option<Self::Item>
        ensures { result ≡ finish held };
}

#[tactic(auto, using(thrift_compact::proofs::Filling::turn, thrift_compact::proofs::Filling::end, std::proofs::lemmas::Bool::Decides::nat_tests))]
fn read_fields<D: Draft>(alloc: Global, bytes: &[u8]) -> Result<(D::Held, &[u8]), Refusal>
    ensures { Makes (λ r. (r.0, r.1.now)) result (mapped (filled D.put D.start) (struct_at (known_at D.shapes) bytes.now)) }
{
    let mut held = D::start();
    let mut rest = bytes;
    let mut last: i16 = 0;
    for turn in 0..bytes.len() {
        let (head, next) = field_at(last, rest)?;
        match head {
            None => return Ok((held, next)),
            Some((id, kind)) => {
                rest = D::field(&mut held, alloc, id, kind, next)?;
                last = id;
            }
        }
    }
    Err(Refusal::Fault(Rule::Thrift))
}

/// Reads a struct: `None` where a known field is missing, stands twice, or has another type or value.
#[tactic(auto, using(thrift_compact::proofs::Filling::read_is))]
pub fn read_struct<D: Draft>(
    alloc: Global,
    bytes: &[u8],
) -> Result<(Option<D::Item>, &[u8]), Refusal>
    ensures { Makes (λ r. (r.0, r.1.now)) result (mapped (read_by D.put D.start D.finish) (struct_at (known_at D.shapes) bytes.now)) }
{
    let (held, rest) = read_fields::<D>(alloc, bytes)?;
    Ok((D::finished(held), rest))
}
