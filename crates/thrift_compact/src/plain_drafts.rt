//! Structs of numbers and structs, read in one pass, without memory.

ghost use Rattle.std.specs.Prelude.{◌≡◌, ℤ, Option};
ghost use Rattle.vs_bytes.specs.Outcome.{Gives};
ghost use Rattle.thrift_compact.specs.Numbers.{mapped};
ghost use Rattle.thrift_compact.specs.Trees.{Value, Shapes, i32s, structs, struct_at, known_at, at_shape};
ghost use Rattle.thrift_compact.specs.Slots.{put as put_spec, filled, i32_in, struct_in, read_by};

use crate::headers::field_at;
use crate::numbers::i32_at;
use crate::skipping::pass;
use crate::slots::Slot;
use vs_bytes::Rule;

/// A struct by the slots of its known fields. `shapes` is the table of these fields.
pub(crate) trait PlainDraft {
    type Held: Drop;

    type Item: Drop;

    ghost shapes: { Shapes };

    ghost start: { Self.Held };

    ghost put: { Self.Held → ℤ → Value → Self.Held };

    ghost finish: { Self.Held → Option Self.Item };

    fn start() -> Self::Held
        ensures { result ≡ start };

    /// Reads the value of a field into its slot, or passes over it.
    fn field<'a>(
        held: &mut Self::Held,
        id: i16,
        kind: u8,
        bytes: &'a [u8],
    ) -> Result<&'a [u8], Rule>
        ensures { Gives (λ rest. (held.new, rest.now)) result (mapped (put held.old id) (known_at shapes id kind bytes.now)) };

    fn finished(held: Self::Held) -> Option<Self::Item>
        ensures { result ≡ finish held };
}

#[tactic(auto, using(crate::proofs::Filling::turn, crate::proofs::Filling::end, std::proofs::lemmas::Bool::Decides::nat_tests))]
fn read_fields<D: PlainDraft>(bytes: &[u8]) -> Result<(D::Held, &[u8]), Rule>
    ensures { Gives (λ r. (r.0, r.1.now)) result (mapped (filled D.put D.start) (struct_at (known_at D.shapes) bytes.now)) }
{
    let mut held = D::start();
    let mut rest = bytes;
    let mut last: i16 = 0;
    for turn in 0..bytes.len() {
        let (head, next) = field_at(last, rest)?;
        match head {
            None => return Ok((held, next)),
            Some((id, kind)) => {
                rest = D::field(&mut held, id, kind, next)?;
                last = id;
            }
        }
    }
    Err(Rule::Thrift)
}

/// Reads a struct: `None` where a known field is missing, stands twice, or has another type or value.
#[tactic(auto, using(crate::proofs::Filling::read_is))]
pub(crate) fn read_struct<D: PlainDraft>(bytes: &[u8]) -> Result<(Option<D::Item>, &[u8]), Rule>
    ensures { Gives (λ r. (r.0, r.1.now)) result (mapped (read_by D.put D.start D.finish) (struct_at (known_at D.shapes) bytes.now)) }
{
    let (held, rest) = read_fields::<D>(bytes)?;
    Ok((D::finished(held), rest))
}

/// Reads a field that is to be an i32.
#[tactic(auto, using(std::proofs::lemmas::Bool::Decides::nat_tests), unfolding(crate::specs::Trees::at_shape, crate::specs::Trees::shaped))]
pub(crate) fn put_i32<'a>(slot: &mut Slot<i32>, kind: u8, bytes: &'a [u8]) -> Result<&'a [u8], Rule>
    ensures { Gives (λ rest. (slot.new, rest.now)) result (mapped (λ v. put_spec slot.old (i32_in v)) (at_shape i32s kind bytes.now)) }
{
    if kind == 5 {
        let (number, rest) = i32_at(bytes)?;
        slot.put(Some(number));
        Ok(rest)
    } else {
        let rest = pass(bytes, kind)?;
        slot.put(None);
        Ok(rest)
    }
}

/// Reads a field that is to be a struct.
#[tactic(auto, using(std::proofs::lemmas::Bool::Decides::nat_tests), unfolding(crate::specs::Trees::at_shape, crate::specs::Trees::shaped))]
pub(crate) fn put_struct<'a, D: PlainDraft>(
    slot: &mut Slot<D::Item>,
    kind: u8,
    bytes: &'a [u8],
) -> Result<&'a [u8], Rule>
    ensures { Gives (λ rest. (slot.new, rest.now)) result (mapped (λ v. put_spec slot.old (struct_in (read_by D.put D.start D.finish) v)) (at_shape (structs D.shapes) kind bytes.now)) }
{
    if kind == 12 {
        let (item, rest) = read_struct::<D>(bytes)?;
        slot.put(item);
        Ok(rest)
    } else {
        let rest = pass(bytes, kind)?;
        slot.put(None);
        Ok(rest)
    }
}
