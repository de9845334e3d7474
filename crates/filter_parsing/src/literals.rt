//! Literals: null, truth values, numbers and strings, as in JSON.

ghost use Rattle.std.specs.Prelude.{◌≡◌};
ghost use Rattle.vs_bytes.specs.Outcome.{Reads};
ghost use Rattle.byte_parsing.specs.Parse.{read_as};
ghost use Rattle.json_tree.specs.View.{view};
ghost use Rattle.filter_parsing.specs.Grammar.{literal_of};
ghost use Rattle.filter_parsing.specs.Reading.{literal_at, number_at, string_literal};

use byte_parsing::{after_word, split_number};
use json_strings::read_text;
use json_tree::Tree;
use std::alloc::Global;
use vs_bytes::{Absent, Refused};

// All the bytes of numbers that stand first are one number.
fn read_number(text: &[u8]) -> Result<(Tree, &[u8]), Refused<Absent>>
    ensures { Reads (λ x. (view x.0, x.1.now)) result (read_as literal_of (number_at text.now)) }
{
    let (run, rest) = split_number(text);
    match exact_num::read_number(run) {
        Ok(number) => Ok((Tree::Num(number), rest)),
        Err(_) => Err(Refused::Fault(Absent)),
    }
}

// After its quote. A surrogate with no partner has no text.
fn read_string<'a>(alloc: Global, text: &'a [u8]) -> Result<(Tree, &'a [u8]), Refused<Absent>>
    ensures { Reads (λ x. (view x.0, x.1.now)) result (read_as literal_of (string_literal text.now)) }
{
    let (text, rest) = read_text(alloc, text)?;
    Ok((Tree::Text(text), rest))
}

/// Reads a literal from the front of `text`, and gives the bytes after it.
#[tactic(auto, unfolding(crate::specs::Reading::literal_at))]
pub(crate) fn read_literal<'a>(
    alloc: Global,
    text: &'a [u8],
) -> Result<(Tree, &'a [u8]), Refused<Absent>>
    ensures { Reads (λ x. (view x.0, x.1.now)) result (read_as literal_of (literal_at text.now)) }
{
    match text {
        [] => Err(Refused::Fault(Absent)),
        [b'"', rest @ ..] => read_string(alloc, rest),
        [b'n', ..] => match after_word(text, b"null") {
            Some(rest) => Ok((Tree::Null, rest)),
            None => Err(Refused::Fault(Absent)),
        },
        [b't', ..] => match after_word(text, b"true") {
            Some(rest) => Ok((Tree::Bool(true), rest)),
            None => Err(Refused::Fault(Absent)),
        },
        [b'f', ..] => match after_word(text, b"false") {
            Some(rest) => Ok((Tree::Bool(false), rest)),
            None => Err(Refused::Fault(Absent)),
        },
        _ => read_number(text),
    }
}
