//! Quoted strings (RFC 8259, section 7).

ghost use Rattle.std.specs.Prelude.{◌≡◌, ◌<◌, ℕ, List, Bool, true, false, Some, length, IfOk, IsErrOf};
ghost use Rattle.std.specs.Str.{IsUtf8};
ghost use Rattle.vs_bytes.specs.Outcome.{Reads};
ghost use Rattle.json_strings.specs.Content.{plain_state, quote_from, if_utf8, only_utf8};
ghost use Rattle.json_strings.specs.Places.{IsStringAt};
ghost use Rattle.json_strings.specs.Reading.{quoted_at, paired_text_at};
ghost use Rattle.json_strings.specs.Shown.{quote};

use crate::ascii_runs::ascii_len;
use crate::content::Content;
use crate::runs::plain_len;
use std::alloc::Global;
use vs_bytes::{Absent, Refused, Text};

/// Why no string was read at a place.
#[derive(Clone, Copy, PartialEq, Eq, Debug, Drop)]
pub enum StringFault {
    /// No quoted string begins there.
    NotString,
    /// One does, and some surrogate in it has no partner.
    LoneSurrogate,
    /// There was no memory for its text.
    NoMemory,
}

/// A string that was read after its opening quote.
#[derive(Drop)]
pub struct Quoted<'a> {
    /// Its text, to which a surrogate with no partner adds nothing.
    pub text: Text,
    /// Whether some surrogate has no partner.
    pub lone: bool,
    /// The bytes after its closing quote.
    pub rest: &'a [u8],
}

// A string of bytes that stand for themselves, after which `rest` stands.
fn read_plain<'a>(alloc: Global, run: &[u8], rest: &'a [u8]) -> Result<Quoted<'a>, Refused<Absent>>
    ensures { Reads quote result (if_utf8 (run.now, false, rest.now)) }
{
    match std::str::from_utf8(run) {
        Ok(text) => Ok(Quoted {
            text: Text::from_str(alloc, text)?,
            lone: false,
            rest,
        }),
        Err(_) => Err(Refused::Fault(Absent)),
    }
}

// The rest of a string that begins with bytes that stand for themselves.
fn read_escaped<'a>(
    alloc: Global,
    run: &[u8],
    text: &'a [u8],
) -> Result<Quoted<'a>, Refused<Absent>>
    ensures { Reads quote result (only_utf8 (quote_from (plain_state run.now) text.now)) }
{
    let mut content = Content::begin(alloc, run)?;
    let mut rest = text;
    while let Some((first, behind)) = rest.split_first() {
        match *first {
            b'"' => return content.end(behind).ok_or(Refused::Fault(Absent)),
            b'\\' => match content.escape(behind) {
                Ok(after) => rest = after,
                Err(fault) => return Err(fault),
            },
            _ => rest = content.run(rest)?,
        }
    }
    Err(Refused::Fault(Absent))
}

// A string of ASCII bytes that stand for themselves, after which `rest` stands.
#[inline(always)]
fn read_ascii<'a>(alloc: Global, run: &[u8], rest: &'a [u8]) -> Result<Quoted<'a>, Refused<Absent>>
    requires { IsUtf8 run.now }
    ensures { Reads quote result (Some (run.now, false, rest.now)) }
{
    Ok(Quoted {
        text: Text::from_utf8_slice(alloc, run)?,
        lone: false,
        rest,
    })
}

// Any string.
#[inline(never)]
fn read_any<'a>(alloc: Global, text: &'a [u8]) -> Result<Quoted<'a>, Refused<Absent>>
    ensures told { Reads quote result (quoted_at text.now) }
    ensures shorter { IfOk result (λ quoted. length quoted.rest.now < length text.now) }
{
    let (run, behind) = text.split_at(plain_len(text));
    let Some((first, rest)) = behind.split_first() else {
        return Err(Refused::Fault(Absent));
    };
    match *first {
        b'"' => read_plain(alloc, run, rest),
        b'\\' => read_escaped(alloc, run, behind),
        _ => Err(Refused::Fault(Absent)),
    }
}

/// Reads the rest of a string, after its opening quote.
///
/// A string whose text isn't UTF-8 is no string. One without escapes is copied once.
#[inline(always)]
pub fn read_quoted<'a>(alloc: Global, text: &'a [u8]) -> Result<Quoted<'a>, Refused<Absent>>
    ensures told { Reads quote result (quoted_at text.now) }
    ensures shorter { IfOk result (λ quoted. length quoted.rest.now < length text.now) }
{
    let (run, behind) = text.split_at(ascii_len(text));
    if let Some((first, rest)) = behind.split_first() {
        if *first == b'"' {
            return read_ascii(alloc, run, rest);
        }
    }
    read_any(alloc, text)
}

/// Reads the rest of a string, after its opening quote, and gives its text and the bytes after
/// its closing quote. A string in which some surrogate has no partner has no text.
pub fn read_text(alloc: Global, text: &[u8]) -> Result<(Text, &[u8]), Refused<Absent>>
    ensures { Reads (λ x. (x.0, x.1.now)) result (paired_text_at text.now) }
{
    let quoted = read_quoted(alloc, text)?;
    if quoted.lone {
        return Err(Refused::Fault(Absent));
    }
    Ok((quoted.text, quoted.rest))
}

/// Reads the quoted string that begins with its quote at `at`, and gives its text and the place after
/// its closing quote. None begins past the end of the bytes.
pub fn read_string(alloc: Global, bytes: &[u8], at: usize) -> Result<(Text, usize), StringFault>
    ensures text { IfOk result (λ read. IsStringAt bytes.now at read.1 read.0 false) }
    ensures none { IsErrOf result StringFault.NotString → (after : ℕ) (text : List ℕ) (lone : Bool) → IsStringAt bytes.now at after text lone → ⊥ }
    ensures lone { IsErrOf result StringFault.LoneSurrogate → (after : ℕ) × (text : List ℕ) × IsStringAt bytes.now at after text true }
{
    if at > bytes.len() {
        return Err(StringFault::NotString);
    }
    let (_, behind) = bytes.split_at(at);
    let Some((first, text)) = behind.split_first() else {
        return Err(StringFault::NotString);
    };
    if *first != b'"' {
        return Err(StringFault::NotString);
    }
    match read_quoted(alloc, text) {
        Ok(quoted) => {
            if quoted.lone {
                return Err(StringFault::LoneSurrogate);
            }
            Ok((quoted.text, bytes.len() - quoted.rest.len()))
        }
        Err(Refused::Fault(Absent)) => Err(StringFault::NotString),
        Err(Refused::NoMemory) => Err(StringFault::NoMemory),
    }
}
