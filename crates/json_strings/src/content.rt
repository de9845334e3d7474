//! What was read of a string that has escapes.
//!
//! A `\u` escape is a UTF-16 unit. A high surrogate is kept until the next piece shows whether it has a
//! partner, so no piece is looked at twice.

ghost use Rattle.std.specs.Prelude.{◌≡◌, ◌++◌, ◌||◌, ◌<◌, ◌^◌, true, false, None, slice_index, is_some, IfSome, IfOk, OnOk, MatchResult, length};
ghost use Rattle.std.specs.Option.{option_map};
ghost use Rattle.std.specs.Char.{encode_utf8};
ghost use Rattle.std.specs.Char.Utf16.{is_high_surrogate, is_low_surrogate, surrogate_pair_char};
ghost use Rattle.std.proofs.Props.{props};

use crate::escapes::{short_escape, unit_escape};
use crate::reader::Quoted;
use crate::runs::plain_len;
use std::alloc::Global;
use vs_bytes::{Absent, NoMemory, Refused, Text};

// The room after the first bytes, before the text has to grow.
const SPARE: usize = 32;

/// The text, the high surrogate that stands right before what comes, if one does, and whether some
/// surrogate has no partner.
#[derive(Drop)]
pub struct Content {
    bytes: Vec<u8>,
    high: Option<u32>,
    lone: bool,
    ghost pending: { IfSome high (λ unit. is_high_surrogate unit ≡ true) } by { Prim.hlevel props },
}

impl Content {
    ghost use Rattle.json_strings.specs.Content.{after_bytes, after_unit, quote_from, quote_behind, quote_unit, plain_state, if_utf8};
    ghost use Rattle.json_strings.specs.Reading.{pieces_behind, pieces_unit, is_plain};
    ghost use Rattle.json_strings.specs.Told.{Tells};
    ghost use Rattle.json_strings.specs.Shown.{state, quote};

    /// Begins with bytes that stand for themselves.
    pub fn begin(alloc: Global, run: &[u8]) -> Result<Content, NoMemory>
        ensures { IfOk result (λ content. state content ≡ plain_state run.now) }
    {
        let mut bytes = Vec::with_capacity(alloc, run.len().saturating_add(SPARE))?;
        bytes.extend_from_slice(run)?;
        Ok(Content {
            bytes,
            high: None,
            lone: false,
        })
    }

    // Whether some surrogate has no partner, if no partner comes next.
    fn is_lone(&self) -> bool
        ensures { result ≡ self.now.lone || is_some self.now.high }
    {
        self.lone || self.high.is_some()
    }

    // Adds bytes of the text.
    fn add_bytes(&mut self, bytes: &[u8]) -> Result<(), NoMemory>
        ensures { OnOk result (state self.new ≡ after_bytes (state self.old) bytes.now) }
    {
        self.bytes.extend_from_slice(bytes)?;
        self.lone = self.is_lone();
        self.high = None;
        Ok(())
    }

    // Adds a character, and leaves all else.
    fn add_char(&mut self, character: char) -> Result<(), NoMemory>
        ensures bytes { OnOk result (self.new.bytes.items ≡ self.old.bytes.items ++ encode_utf8 character) }
        ensures high { self.new.high ≡ self.old.high }
        ensures lone { self.new.lone ≡ self.old.lone }
    {
        let mut room = [0; 4];
        let spelled = character.encode_utf8(&mut room);
        self.bytes.extend_from_slice(spelled.as_bytes())?;
        Ok(())
    }

    // Adds the unit of an escape. A high surrogate waits for its partner.
    #[tactic(auto, unfolding(crate::specs::Meaning::unit_text, crate::specs::Meaning::high_of, crate::specs::Meaning::is_unpaired))]
    fn add_unit(&mut self, unit: u32) -> Result<(), NoMemory>
        requires { unit < 2 ^ 16 }
        ensures { OnOk result (state self.new ≡ after_unit (state self.old) unit) }
    {
        if is_low(unit) {
            return self.add_low(unit);
        }
        self.lone = self.is_lone();
        if is_high(unit) {
            self.high = Some(unit);
            return Ok(());
        }
        self.high = None;
        self.add_char(unit_char(unit))
    }

    // A low surrogate completes a pair, or has no partner.
    #[tactic(auto, unfolding(crate::specs::Meaning::unit_text, crate::specs::Meaning::high_of, crate::specs::Meaning::is_unpaired))]
    fn add_low(&mut self, low: u32) -> Result<(), NoMemory>
        requires { is_low_surrogate low ≡ true }
        ensures { OnOk result (state self.new ≡ after_unit (state self.old) low) }
    {
        let Some(high) = self.high else {
            self.lone = true;
            return Ok(());
        };
        self.high = None;
        self.add_char(pair_char(high, low))
    }

    /// Reads an escape after its backslash, and gives what is after it.
    pub fn escape<'a>(&mut self, text: &'a [u8]) -> Result<&'a [u8], Refused<Absent>>
        ensures shorter { IfOk result (λ rest. length rest.now < length text.now) }
        ensures told { MatchResult result (λ rest. quote_behind (state self.old) text.now ≡ quote_from (state self.new) rest.now) (λ fault. Tells fault (pieces_behind text.now ≡ None)) }
    {
        match text {
            [] => Err(Refused::Fault(Absent)),
            [b'u', rest @ ..] => self.unit(rest),
            [first, rest @ ..] => match short_escape(*first) {
                Some(byte) => {
                    self.add_bytes(&[byte])?;
                    Ok(rest)
                }
                None => Err(Refused::Fault(Absent)),
            },
        }
    }

    // Reads the four digits after \u, and gives what is after them.
    fn unit<'a>(&mut self, text: &'a [u8]) -> Result<&'a [u8], Refused<Absent>>
        ensures shorter { IfOk result (λ rest. length rest.now < length text.now) }
        ensures told { MatchResult result (λ rest. quote_unit (state self.old) text.now ≡ quote_from (state self.new) rest.now) (λ fault. Tells fault (pieces_unit text.now ≡ None)) }
    {
        let [a, b, c, d, rest @ ..] = text else {
            return Err(Refused::Fault(Absent));
        };
        match unit_escape(*a, *b, *c, *d) {
            Some(unit) => {
                self.add_unit(unit)?;
                Ok(rest)
            }
            None => Err(Refused::Fault(Absent)),
        }
    }

    /// Takes the leading bytes that stand for themselves, and gives what is after them.
    pub fn run<'a>(&mut self, text: &'a [u8]) -> Result<&'a [u8], Refused<Absent>>
        requires { 0 < length text.now }
        ensures shorter { IfOk result (λ rest. length rest.now < length text.now) }
        ensures told { MatchResult result (λ rest. quote_from (state self.old) text.now ≡ quote_from (state self.new) rest.now) (λ fault. Tells fault (is_plain (slice_index text.now 0) ≡ false)) }
    {
        let len = plain_len(text);
        if len == 0 {
            return Err(Refused::Fault(Absent));
        }
        let (run, rest) = text.split_at(len);
        self.add_bytes(run)?;
        Ok(rest)
    }

    /// Ends the string, after which `rest` stands. There is none where the text isn't UTF-8.
    pub fn end<'a>(self, rest: &'a [u8]) -> Option<Quoted<'a>>
        ensures { option_map quote result ≡ if_utf8 ((state self).text, (state self).lone || is_some (state self).high, rest.now) }
    {
        let lone = self.is_lone();
        let Content { bytes, .. } = self;
        let text = Text::from_utf8(bytes)?;
        Some(Quoted { text, lone, rest })
    }
}

fn is_high(unit: u32) -> bool
    ensures { result ≡ is_high_surrogate unit }
{
    (0xD800..0xDC00).contains(&unit)
}

fn is_low(unit: u32) -> bool
    ensures { result ≡ is_low_surrogate unit }
{
    (0xDC00..0xE000).contains(&unit)
}

// The character of a unit that is no surrogate.
fn unit_char(unit: u32) -> char
    requires small { unit < 2 ^ 16 }
    requires not_high { is_high_surrogate unit ≡ false }
    requires not_low { is_low_surrogate unit ≡ false }
    ensures { result ≡ unit }
{
    char::from_u32(unit).unwrap()
}

// The character of a pair.
fn pair_char(high: u32, low: u32) -> char
    requires high { is_high_surrogate high ≡ true }
    requires low { is_low_surrogate low ≡ true }
    ensures { result ≡ surrogate_pair_char high low }
{
    char::from_u32(0x10000 + (high - 0xD800) * 0x400 + (low - 0xDC00)).unwrap()
}
