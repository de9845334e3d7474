//! Words, and the precision and scale of decimals.

ghost use Rattle.std.specs.Prelude.{◌≡◌, All, codes};
ghost use Rattle.vs_bytes.specs.Outcome.{Finds};
ghost use Rattle.byte_parsing.specs.Parse.{read_as};
ghost use Rattle.byte_parsing.specs.Words.{IsDigit};
ghost use Rattle.shred_schema.specs.Views.{group_of, kind_of};
ghost use Rattle.schema_parsing.specs.Grammar.{kind_named, number_of, prim_named, schema_of};
ghost use Rattle.schema_parsing.specs.Reading.{argument_at, is_decimal, number_at, scaled_at, short_number, word_at};

use byte_parsing::{after_byte, past_spaces, split_digits, split_name};
use shred_schema::{Node, Slot, Typed};
use vs_bytes::Prim;

// The most digits of a decimal.
const MAX_PRECISION: u8 = 38;

// The kind of cells that a word stands for.
#[tactic(auto, unfolding(crate::specs::Grammar::prim_named))]
fn prim_named(word: &[u8]) -> Option<Prim>
    ensures { result ≡ prim_named word.now }
{
    if word == b"boolean".as_slice() {
        return Some(Prim::Boolean);
    }
    if word == b"int8".as_slice() {
        return Some(Prim::Int8);
    }
    if word == b"int16".as_slice() {
        return Some(Prim::Int16);
    }
    if word == b"int32".as_slice() {
        return Some(Prim::Int32);
    }
    if word == b"int64".as_slice() {
        return Some(Prim::Int64);
    }
    if word == b"string".as_slice() {
        return Some(Prim::Text);
    }
    None
}

// What a word stands for.
#[tactic(auto, unfolding(crate::specs::Grammar::kind_named))]
fn kind_named(word: &[u8]) -> Option<Typed>
    ensures { Finds kind_of result (kind_named word.now) }
{
    if word == b"variant".as_slice() {
        return Some(Typed::Free);
    }
    Some(Typed::Prim(prim_named(word)?))
}

// The number of one digit or two, with no 0 in front.
fn short_number(digits: &[u8]) -> Option<u8>
    requires all { All IsDigit digits.now }
    ensures { Finds (λ n. n) result (short_number digits.now) }
{
    match digits {
        [d] => Some(*d - b'0'),
        [d, e] => {
            if *d == b'0' {
                return None;
            }
            Some((*d - b'0') * 10 + (*e - b'0'))
        }
        _ => None,
    }
}

fn read_number(text: &[u8]) -> Option<(u8, &[u8])>
    ensures { Finds (λ x. (x.0, x.1.now)) result (number_at text.now) }
{
    let (digits, rest) = split_digits(text);
    Some((short_number(digits)?, rest))
}

// An opening byte and a number, with spaces before each.
#[tactic(auto, unfolding(crate::specs::Reading::argument_at))]
fn read_argument(text: &[u8], opening: u8) -> Option<(u8, &[u8])>
    ensures { Finds (λ x. (x.0, x.1.now)) result (read_as number_of (argument_at opening text.now)) }
{
    let inside = after_byte(past_spaces(text), opening)?;
    read_number(past_spaces(inside))
}

// Whether these are a precision and a scale.
fn is_decimal(p: u8, s: u8) -> bool
    ensures { result ≡ is_decimal p s }
{
    1 <= p && p <= MAX_PRECISION && s <= p
}

// After `decimal`.
#[tactic(auto, unfolding(crate::specs::Reading::scaled_at))]
fn read_scaled(text: &[u8]) -> Option<(Node, &[u8])>
    ensures { Finds (λ x. (group_of x.0, x.1.now)) result (read_as schema_of (scaled_at text.now)) }
{
    let (p, more) = read_argument(text, b'(')?;
    let (s, end) = read_argument(more, b',')?;
    let rest = after_byte(past_spaces(end), b')')?;
    if !is_decimal(p, s) {
        return None;
    }
    let node = Node {
        value: Slot::Optional,
        typed: Typed::Prim(Prim::Decimal { p, s }),
    };
    Some((node, rest))
}

/// Reads a word from the front of `text`, and gives the bytes after it.
///
/// All letters, digits and `_` that stand first are one word.
#[tactic(auto, unfolding(crate::specs::Reading::word_at))]
pub(crate) fn read_word(text: &[u8]) -> Option<(Node, &[u8])>
    ensures { Finds (λ x. (group_of x.0, x.1.now)) result (read_as schema_of (word_at text.now)) }
{
    let (word, rest) = split_name(text);
    if word == b"decimal".as_slice() {
        return read_scaled(rest);
    }
    let typed = kind_named(word)?;
    let node = Node {
        value: Slot::Optional,
        typed,
    };
    Some((node, rest))
}
