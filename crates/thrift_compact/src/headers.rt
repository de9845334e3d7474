//! Headers of fields, lists and maps.

ghost use Rattle.std.specs.Prelude.{◌≡◌, ◌<◌, ◌≤◌, ◌^◌, IfOk, Option};
ghost use Rattle.vs_bytes.specs.Outcome.{Gives};
ghost use Rattle.thrift_compact.specs.Headers.{is_type, field_id, field, list_size, list, map_types, map_size};

use crate::numbers::{byte_at, i16_at, varint_at};
use vs_bytes::Rule;

#[tactic(auto, using(std::proofs::lemmas::Bool::Decides::nat_tests), unfolding(crate::specs::Headers::is_type))]
pub(crate) fn is_type(kind: u8) -> bool
    ensures { result ≡ is_type kind }
{
    1 <= kind && kind <= 12
}

#[tactic(auto, using(std::proofs::lemmas::Bool::Decides::nat_tests), unfolding(crate::specs::Headers::field_id))]
fn field_id(last: i16, delta: u8, bytes: &[u8]) -> Result<(i16, &[u8]), Rule>
    ensures { Gives (λ r. (r.0, r.1.now)) result (field_id last delta bytes.now) }
{
    if delta == 0 {
        return i16_at(bytes);
    }
    match last.checked_add(i16::from(delta)) {
        Some(id) => Ok((id, bytes)),
        None => Err(Rule::Thrift),
    }
}

/// The header of the field after the one of id `last`: id and type, or `None` at the stop.
#[tactic(auto, using(std::proofs::lemmas::Bool::Decides::nat_tests), unfolding(crate::specs::Headers::field))]
pub fn field_at(last: i16, bytes: &[u8]) -> Result<(Option<(i16, u8)>, &[u8]), Rule>
    ensures { Gives (λ r. (r.0, r.1.now)) result (field last bytes.now) }
{
    let (head, rest) = byte_at(bytes)?;
    if head == 0 {
        return Ok((None, rest));
    }
    let (id, rest) = field_id(last, head / 16, rest)?;
    if is_type(head % 16) {
        Ok((Some((id, head % 16)), rest))
    } else {
        Err(Rule::Thrift)
    }
}

#[tactic(auto, using(std::proofs::lemmas::Bool::Decides::nat_tests), unfolding(crate::specs::Headers::list_size))]
fn list_size(short: u8, bytes: &[u8]) -> Result<(u64, &[u8]), Rule>
    ensures { Gives (λ r. (r.0, r.1.now)) result (list_size short bytes.now) }
{
    if short == 15 {
        varint_at(bytes)
    } else {
        Ok((u64::from(short), bytes))
    }
}

/// The header of a list or set: element type and size.
#[tactic(auto, using(std::proofs::lemmas::Bool::Decides::nat_tests), unfolding(crate::specs::Headers::list))]
pub fn list_at(bytes: &[u8]) -> Result<((u8, u32), &[u8]), Rule>
    ensures { Gives (λ r. (r.0, r.1.now)) result (list bytes.now) }
{
    let (head, rest) = byte_at(bytes)?;
    let (size, rest) = list_size(head / 16, rest)?;
    if is_type(head % 16) && size < 1 << 32 {
        Ok(((head % 16, size as u32), rest))
    } else {
        Err(Rule::Thrift)
    }
}

/// The size of a map.
#[tactic(auto, using(std::proofs::lemmas::Bool::Decides::nat_tests), unfolding(crate::specs::Headers::map_size))]
pub(crate) fn map_size_at(bytes: &[u8]) -> Result<(u32, &[u8]), Rule>
    ensures { Gives (λ r. (r.0, r.1.now)) result (map_size bytes.now) }
{
    let (size, rest) = varint_at(bytes)?;
    if size < 1 << 32 {
        Ok((size as u32, rest))
    } else {
        Err(Rule::Thrift)
    }
}

/// Key type and value type of a map of a size, or `None` where it is empty.
#[tactic(auto, using(std::proofs::lemmas::Bool::Decides::nat_tests), unfolding(crate::specs::Headers::map_types))]
pub(crate) fn map_types_at(size: u32, bytes: &[u8]) -> Result<(Option<(u8, u8)>, &[u8]), Rule>
    ensures { Gives (λ r. (r.0, r.1.now)) result (map_types size bytes.now) }
{
    if size == 0 {
        return Ok((None, bytes));
    }
    let (kinds, rest) = byte_at(bytes)?;
    if is_type(kinds / 16) && is_type(kinds % 16) {
        Ok((Some((kinds / 16, kinds % 16)), rest))
    } else {
        Err(Rule::Thrift)
    }
}
