//! The bytes after a value of a type.

ghost use Rattle.std.specs.Prelude.{◌≡◌, ◌<◌, ◌≤◌, ◌^◌, length, pos};
ghost use Rattle.vs_bytes.specs.Outcome.{Gives};
ghost use Rattle.thrift_compact.specs.Numbers.{byte, signed, bytes_at, binary};
ghost use Rattle.thrift_compact.specs.Trees.{other, passed_over};
ghost use Rattle.thrift_compact.specs.Skipping.{after, plain, element, elements, pairs, map_after, fields, map_of, list_of, container, max_nesting, skipped};

use crate::headers::{field_at, is_type, list_at, map_size_at, map_types_at};
use crate::numbers::{binary_at, byte_at, i16_at, i32_at, i64_at, part_at};
use vs_bytes::Rule;

/// How deep values that are passed over may nest, the outermost counted.
pub(crate) const MAX_NESTING: u8 = 32;

fn after_byte(bytes: &[u8]) -> Result<&[u8], Rule>
    ensures { Gives (λ r. r.now) result (after (byte bytes.now)) }
{
    Ok(byte_at(bytes)?.1)
}

fn after_i16(bytes: &[u8]) -> Result<&[u8], Rule>
    ensures { Gives (λ r. r.now) result (after (signed 16 bytes.now)) }
{
    Ok(i16_at(bytes)?.1)
}

fn after_i32(bytes: &[u8]) -> Result<&[u8], Rule>
    ensures { Gives (λ r. r.now) result (after (signed 32 bytes.now)) }
{
    Ok(i32_at(bytes)?.1)
}

fn after_i64(bytes: &[u8]) -> Result<&[u8], Rule>
    ensures { Gives (λ r. r.now) result (after (signed 64 bytes.now)) }
{
    Ok(i64_at(bytes)?.1)
}

fn after_double(bytes: &[u8]) -> Result<&[u8], Rule>
    ensures { Gives (λ r. r.now) result (after (bytes_at 8 bytes.now)) }
{
    Ok(part_at(8, bytes)?.1)
}

fn after_binary(bytes: &[u8]) -> Result<&[u8], Rule>
    ensures { Gives (λ r. r.now) result (after (binary bytes.now)) }
{
    Ok(binary_at(bytes)?.1)
}

#[tactic(auto, using(std::proofs::lemmas::Bool::Decides::nat_tests), unfolding(crate::specs::Skipping::plain))]
fn after_plain(bytes: &[u8], kind: u8) -> Result<&[u8], Rule>
    ensures { Gives (λ r. r.now) result (plain kind bytes.now) }
{
    if kind <= 2 {
        return Ok(bytes);
    }
    match kind {
        3 => after_byte(bytes),
        4 => after_i16(bytes),
        5 => after_i32(bytes),
        6 => after_i64(bytes),
        7 => after_double(bytes),
        _ => after_binary(bytes),
    }
}

/// The bytes after a value of a type that nests to `room`.
#[cycle(skipping)]
#[tactic(auto, using(std::proofs::lemmas::Bool::Decides::nat_tests, crate::proofs::Skipped::unknown, crate::proofs::Skipped::no_room, crate::proofs::Skipped::some_room, crate::proofs::Skipped::plain_any))]
pub(crate) fn skip(bytes: &[u8], kind: u8, room: u8) -> Result<&[u8], Rule>
    ensures { Gives (λ r. r.now) result (skipped room kind bytes.now) }
{
    if !is_type(kind) {
        return Err(Rule::Thrift);
    }
    if kind < 9 {
        return after_plain(bytes, kind);
    }
    if room == 0 {
        return Err(Rule::Thrift);
    }
    skip_container(bytes, kind, room - 1)
}

#[cycle(skipping)]
#[tactic(auto, using(std::proofs::lemmas::Bool::Decides::nat_tests), unfolding(crate::specs::Skipping::container))]
fn skip_container(bytes: &[u8], kind: u8, room: u8) -> Result<&[u8], Rule>
    ensures { Gives (λ r. r.now) result (container (skipped room) kind bytes.now) }
{
    match kind {
        12 => skip_fields(bytes, room),
        11 => skip_map(bytes, room),
        _ => skip_list(bytes, room),
    }
}

#[cycle(skipping)]
#[tactic(auto, using(std::proofs::lemmas::Bool::Decides::nat_tests, crate::proofs::Skipped::fields_turn, crate::proofs::Skipped::fields_end))]
fn skip_fields(bytes: &[u8], room: u8) -> Result<&[u8], Rule>
    ensures { Gives (λ r. r.now) result (fields (skipped room) (length bytes.now) (pos 0) bytes.now) }
{
    let mut rest = bytes;
    let mut last: i16 = 0;
    for turn in 0..bytes.len() {
        let (head, next) = field_at(last, rest)?;
        match head {
            None => return Ok(next),
            Some((id, kind)) => {
                rest = skip(next, kind, room)?;
                last = id;
            }
        }
    }
    Err(Rule::Thrift)
}

#[cycle(skipping)]
#[tactic(auto, using(std::proofs::lemmas::Bool::Decides::nat_tests), unfolding(crate::specs::Skipping::element))]
fn skip_element(bytes: &[u8], kind: u8, room: u8) -> Result<&[u8], Rule>
    ensures { Gives (λ r. r.now) result (element (skipped room) kind bytes.now) }
{
    if kind <= 2 {
        return after_byte(bytes);
    }
    skip(bytes, kind, room)
}

#[cycle(skipping)]
#[tactic(auto, using(crate::proofs::Skipped::elements_turn, crate::proofs::Skipped::elements_end))]
fn skip_elements(bytes: &[u8], kind: u8, size: u32, room: u8) -> Result<&[u8], Rule>
    ensures { Gives (λ r. r.now) result (elements (skipped room) kind size bytes.now) }
{
    let mut rest = bytes;
    for turn in 0..size {
        rest = skip_element(rest, kind, room)?;
    }
    Ok(rest)
}

#[cycle(skipping)]
#[tactic(auto, unfolding(crate::specs::Skipping::list_of))]
fn skip_list(bytes: &[u8], room: u8) -> Result<&[u8], Rule>
    ensures { Gives (λ r. r.now) result (list_of (skipped room) bytes.now) }
{
    let ((kind, size), rest) = list_at(bytes)?;
    skip_elements(rest, kind, size, room)
}

#[cycle(skipping)]
#[tactic(auto, using(crate::proofs::Skipped::pairs_turn, crate::proofs::Skipped::pairs_end))]
fn skip_pairs(bytes: &[u8], key: u8, value: u8, size: u32, room: u8) -> Result<&[u8], Rule>
    ensures { Gives (λ r. r.now) result (pairs (skipped room) key value size bytes.now) }
{
    let mut rest = bytes;
    for turn in 0..size {
        let next = skip_element(rest, key, room)?;
        rest = skip_element(next, value, room)?;
    }
    Ok(rest)
}

#[cycle(skipping)]
#[tactic(auto, unfolding(crate::specs::Skipping::map_of, crate::specs::Skipping::map_after))]
fn skip_map(bytes: &[u8], room: u8) -> Result<&[u8], Rule>
    ensures { Gives (λ r. r.now) result (map_of (skipped room) bytes.now) }
{
    let (size, rest) = map_size_at(bytes)?;
    let (kinds, rest) = map_types_at(size, rest)?;
    match kinds {
        None => Ok(rest),
        Some((key, value)) => skip_pairs(rest, key, value, size, room),
    }
}

/// The bytes after the value of a field that isn't known, or has another type.
#[tactic(auto, unfolding(crate::specs::Trees::passed_over))]
pub fn pass(bytes: &[u8], kind: u8) -> Result<&[u8], Rule>
    ensures { Gives (λ rest. (other, rest.now)) result (passed_over kind bytes.now) }
{
    skip(bytes, kind, MAX_NESTING)
}

/// The bytes after the elements of a list whose element type isn't the one that is known.
pub fn pass_elements(bytes: &[u8], kind: u8, size: u32) -> Result<&[u8], Rule>
    ensures { Gives (λ r. r.now) result (elements (skipped max_nesting) kind size bytes.now) }
{
    skip_elements(bytes, kind, size, MAX_NESTING)
}
