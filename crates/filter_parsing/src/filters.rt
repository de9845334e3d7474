//! Filters: terms that `not`, `and`, `or` and brackets join.
//!
//! Each function follows one function on lists, by the same calls: it gives the filter of what that
//! reads, and the bytes after it. `room` is how many more `not`s and brackets may be opened.

ghost use Rattle.std.specs.Prelude.{◌≡◌};
ghost use Rattle.vs_bytes.specs.Outcome.{Reads};
ghost use Rattle.byte_parsing.specs.Parse.{read_as};
ghost use Rattle.filter_parsing.specs.Parts.{bracketed_within, denied_within, part_of, meaning_of};
ghost use Rattle.filter_parsing.specs.Reading.{conj_at, filter_by, unit_at};

use crate::parsed::Parsed;
use crate::term::read_term;
use byte_parsing::{after_byte, after_word, past_spaces};
use std::alloc::Global;
use vs_bytes::{Absent, Refused};

// After a `not`.
#[cycle(parser)]
fn read_denied(alloc: Global, text: &[u8], room: u32) -> Result<(Parsed, &[u8]), Refused<Absent>>
    ensures reads { Reads (λ x. (part_of x.0, x.1.now)) result (read_as meaning_of (denied_within room text.now)) }
{
    if room == 0 {
        return Err(Refused::Fault(Absent));
    }
    let (inner, rest) = read_unit(alloc, past_spaces(text), room - 1)?;
    Ok((inner.denied(alloc)?, rest))
}

// After an opening bracket.
#[cycle(parser)]
fn read_bracketed(alloc: Global, text: &[u8], room: u32) -> Result<(Parsed, &[u8]), Refused<Absent>>
    ensures reads { Reads (λ x. (part_of x.0, x.1.now)) result (read_as meaning_of (bracketed_within room text.now)) }
{
    if room == 0 {
        return Err(Refused::Fault(Absent));
    }
    let (inner, more) = read_filter(alloc, past_spaces(text), room - 1)?;
    match after_byte(past_spaces(more), b')') {
        Some(rest) => Ok((inner, rest)),
        None => Err(Refused::Fault(Absent)),
    }
}

#[cycle(parser)]
#[tactic(auto, using(crate::proofs::ParserParts::unit_denied, crate::proofs::ParserParts::unit_bracketed, crate::proofs::ParserParts::unit_term))]
fn read_unit(alloc: Global, text: &[u8], room: u32) -> Result<(Parsed, &[u8]), Refused<Absent>>
    ensures reads { Reads (λ x. (part_of x.0, x.1.now)) result (read_as meaning_of (unit_at room text.now)) }
{
    if let Some(more) = after_word(text, b"not") {
        return read_denied(alloc, more, room);
    }
    if let Some(inside) = after_byte(text, b'(') {
        return read_bracketed(alloc, inside, room);
    }
    read_term(alloc, text)
}

#[cycle(parser)]
fn read_conj(alloc: Global, text: &[u8], room: u32) -> Result<(Parsed, &[u8]), Refused<Absent>>
    ensures reads { Reads (λ x. (part_of x.0, x.1.now)) result (read_as meaning_of (conj_at (unit_at room) text.now)) }
{
    let (mut left, mut rest) = read_unit(alloc, text, room)?;
    // Each turn takes a byte, so there are at most so many.
    for turn in 0..rest.len() {
        let Some(more) = after_word(past_spaces(rest), b"and") else {
            return Ok((left, rest));
        };
        let (right, after) = read_unit(alloc, past_spaces(more), room)?;
        left = left.both(alloc, right)?;
        rest = after;
    }
    Ok((left, rest))
}

/// Reads a filter from the front of `text`, and gives the bytes after it.
#[cycle(parser)]
pub(crate) fn read_filter(
    alloc: Global,
    text: &[u8],
    room: u32,
) -> Result<(Parsed, &[u8]), Refused<Absent>>
    ensures reads { Reads (λ x. (part_of x.0, x.1.now)) result (read_as meaning_of (filter_by (unit_at room) text.now)) }
{
    let (mut left, mut rest) = read_conj(alloc, text, room)?;
    // Each turn takes a byte, so there are at most so many.
    for turn in 0..rest.len() {
        let Some(more) = after_word(past_spaces(rest), b"or") else {
            return Ok((left, rest));
        };
        let (right, after) = read_conj(alloc, past_spaces(more), room)?;
        left = left.either(alloc, right)?;
        rest = after;
    }
    Ok((left, rest))
}
