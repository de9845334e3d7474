//! The names of fields.

ghost use Rattle.std.specs.Prelude.{◌≡◌};
ghost use Rattle.vs_bytes.specs.Outcome.{Reads};
ghost use Rattle.byte_parsing.specs.Parse.{read_as};
ghost use Rattle.schema_parsing.specs.Grammar.{name_of};
ghost use Rattle.schema_parsing.specs.Reading.{bare_at, name_at};

use byte_parsing::{after_byte, split_name, starts_name};
use json_strings::read_text;
use std::alloc::Global;
use vs_bytes::{Absent, Refused, Text};

fn read_bare(alloc: Global, text: &[u8]) -> Result<(Text, &[u8]), Refused<Absent>>
    ensures { Reads (λ x. (x.0, x.1.now)) result (read_as name_of (bare_at text.now)) }
{
    if !starts_name(text) {
        return Err(Refused::Fault(Absent));
    }
    let (name, rest) = split_name(text);
    Ok((Text::from_utf8_slice(alloc, name)?, rest))
}

/// Reads the name of a field from the front of `text`, in quotes or without, and gives the bytes after it.
#[tactic(auto, unfolding(crate::specs::Reading::name_at))]
pub(crate) fn read_name(alloc: Global, text: &[u8]) -> Result<(Text, &[u8]), Refused<Absent>>
    ensures { Reads (λ x. (x.0, x.1.now)) result (read_as name_of (name_at text.now)) }
{
    if let Some(inside) = after_byte(text, b'"') {
        return read_text(alloc, inside);
    }
    read_bare(alloc, text)
}
