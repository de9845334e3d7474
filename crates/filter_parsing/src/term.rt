//! Terms: a path, and what is asked of its matches.

ghost use Rattle.std.specs.Prelude.{◌≡◌};
ghost use Rattle.vs_bytes.specs.Outcome.{Finds, Reads};
ghost use Rattle.byte_parsing.specs.Parse.{read_as};
ghost use Rattle.query_tree.specs.View.{claim_of};
ghost use Rattle.filter_parsing.specs.Grammar.{claim_of as written_claim};
ghost use Rattle.filter_parsing.specs.Parts.{part_of, meaning_of};
ghost use Rattle.filter_parsing.specs.Reading.{related_at, relation_at, term_at, test_at};

use crate::literals::read_literal;
use crate::parsed::Parsed;
use byte_parsing::{after_byte, after_word, past_spaces};
use path_parsing::read_path;
use query_tree::{Relation, Test};
use std::alloc::Global;
use vs_bytes::{Absent, Refused};

#[tactic(auto, unfolding(crate::specs::Reading::relation_at))]
fn read_relation(text: &[u8]) -> Option<(Relation, &[u8])>
    ensures { Finds (λ x. (x.0, x.1.now)) result (relation_at text.now) }
{
    match text {
        [b'=', rest @ ..] => Some((Relation::Equal, rest)),
        [b'!', rest @ ..] => Some((Relation::NotEqual, after_byte(rest, b'=')?)),
        [b'<', rest @ ..] => Some(match after_byte(rest, b'=') {
            Some(more) => (Relation::AtMost, more),
            None => (Relation::Less, rest),
        }),
        [b'>', rest @ ..] => Some(match after_byte(rest, b'=') {
            Some(more) => (Relation::AtLeast, more),
            None => (Relation::Greater, rest),
        }),
        _ => None,
    }
}

// A relation, spaces and a literal.
fn read_comparison<'a>(alloc: Global, text: &'a [u8]) -> Result<(Test, &'a [u8]), Refused<Absent>>
    ensures { Reads (λ x. (claim_of x.0, x.1.now)) result (read_as written_claim (related_at text.now)) }
{
    let Some((rel, more)) = read_relation(text) else {
        return Err(Refused::Fault(Absent));
    };
    let (literal, rest) = read_literal(alloc, past_spaces(more))?;
    Ok((Test::Stands { rel, literal }, rest))
}

#[tactic(auto, unfolding(crate::specs::Reading::test_at))]
fn read_test<'a>(alloc: Global, text: &'a [u8]) -> Result<(Test, &'a [u8]), Refused<Absent>>
    ensures { Reads (λ x. (claim_of x.0, x.1.now)) result (read_as written_claim (test_at text.now)) }
{
    match text {
        [] => Err(Refused::Fault(Absent)),
        [b'e', ..] => match after_word(text, b"exists") {
            Some(rest) => Ok((Test::Exists, rest)),
            None => Err(Refused::Fault(Absent)),
        },
        [b'm', ..] => match after_word(text, b"missing") {
            Some(rest) => Ok((Test::Missing, rest)),
            None => Err(Refused::Fault(Absent)),
        },
        _ => read_comparison(alloc, text),
    }
}

/// Reads a term from the front of `text`, and gives the bytes after it.
#[tactic(auto, unfolding(crate::specs::Reading::term_at))]
pub(crate) fn read_term(alloc: Global, text: &[u8]) -> Result<(Parsed, &[u8]), Refused<Absent>>
    ensures { Reads (λ x. (part_of x.0, x.1.now)) result (read_as meaning_of (term_at text.now)) }
{
    let (path, more) = read_path(alloc, text)?;
    let (test, rest) = read_test(alloc, past_spaces(more))?;
    Ok((Parsed::term(path, test), rest))
}
