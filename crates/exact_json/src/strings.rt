//! Strings (RFC 8259, section 7).

ghost use Rattle.std.specs.Prelude.{◌≡◌};
ghost use Rattle.json_strings.specs.Reading.{quoted_at};
ghost use Rattle.vs_bytes.specs.Outcome.{Reads};
ghost use Rattle.exact_json.specs.Parsing.{told_string};
ghost use Rattle.exact_json.specs.Shown.{shown};

use crate::seen::Seen;
use json_strings::read_quoted;
use std::alloc::Global;
use vs_bytes::{Absent, Refused, Text};

/// Reads the rest of a string from its opening quote on, and gives the bytes after its closing one.
#[inline(always)]
pub(crate) fn read_string<'a>(
    alloc: Global,
    text: &'a [u8],
    noted: &mut Seen,
) -> Result<(Text, &'a [u8]), Refused<Absent>>
    ensures told { Reads (λ x. (x.0, shown noted.new, x.1.now)) result (told_string (shown noted.old) (quoted_at text.now)) }
{
    let quoted = read_quoted(alloc, text)?;
    noted.note_lone(quoted.lone);
    Ok((quoted.text, quoted.rest))
}
