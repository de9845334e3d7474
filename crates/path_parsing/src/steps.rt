//! Steps.
//!
//! Each function follows one function on lists of `specs/Reading.antt`, by the same calls: it gives the
//! step of what that reads, and the bytes after it.

ghost use Rattle.std.specs.Prelude.{◌≡◌};
ghost use Rattle.vs_bytes.specs.Outcome.{Reads};
ghost use Rattle.byte_parsing.specs.Parse.{read_as};
ghost use Rattle.path_parsing.specs.Grammar.{step_of, path_of};
ghost use Rattle.path_parsing.specs.Limits.{most_steps};
ghost use Rattle.path_parsing.specs.Reading.{name_at, string_step, inside_at, bracket_at, begins_step, step_at, steps_at};

use crate::index::read_index;
use byte_parsing::{after_byte, split_name, starts_name};
use json_strings::read_text;
use query_tree::{Step, Steps};
use smallvec::SmallVec;
use std::alloc::Global;
use vs_bytes::{Absent, Refused, Text};

// The most steps of a path.
const MAX_STEPS: usize = 64;

// After a dot.
fn read_name(alloc: Global, text: &[u8]) -> Result<(Step, &[u8]), Refused<Absent>>
    ensures { Reads (λ x. (x.0, x.1.now)) result (read_as step_of (name_at text.now)) }
{
    if !starts_name(text) {
        return Err(Refused::Fault(Absent));
    }
    let (name, rest) = split_name(text);
    match std::str::from_utf8(name) {
        Ok(name) => Ok((Step::Field(Text::from_str(alloc, name)?), rest)),
        Err(_) => Err(Refused::Fault(Absent)),
    }
}

// After a quote.
fn read_string(alloc: Global, text: &[u8]) -> Result<(Step, &[u8]), Refused<Absent>>
    ensures { Reads (λ x. (x.0, x.1.now)) result (read_as step_of (string_step text.now)) }
{
    let (name, rest) = read_text(alloc, text)?;
    Ok((Step::Field(name), rest))
}

// After an opening bracket, up to the closing one.
fn read_inside(alloc: Global, text: &[u8]) -> Result<(Step, &[u8]), Refused<Absent>>
    ensures { Reads (λ x. (x.0, x.1.now)) result (read_as step_of (inside_at text.now)) }
{
    match text {
        [b'"', rest @ ..] => read_string(alloc, rest),
        [b'*', rest @ ..] => Ok((Step::Star, rest)),
        _ => read_index(text),
    }
}

// After an opening bracket.
fn read_bracket(alloc: Global, text: &[u8]) -> Result<(Step, &[u8]), Refused<Absent>>
    ensures { Reads (λ x. (x.0, x.1.now)) result (read_as step_of (bracket_at text.now)) }
{
    let (step, rest) = read_inside(alloc, text)?;
    match after_byte(rest, b']') {
        Some(rest) => Ok((step, rest)),
        None => Err(Refused::Fault(Absent)),
    }
}

fn read_step(alloc: Global, text: &[u8]) -> Result<(Step, &[u8]), Refused<Absent>>
    ensures { Reads (λ x. (x.0, x.1.now)) result (read_as step_of (step_at text.now)) }
{
    match text {
        [b'.', rest @ ..] => read_name(alloc, rest),
        [b'[', rest @ ..] => read_bracket(alloc, rest),
        _ => Err(Refused::Fault(Absent)),
    }
}

// Whether the text begins as a step does.
fn begins_step(text: &[u8]) -> bool
    ensures { result ≡ begins_step text.now }
{
    match text.first() {
        Some(first) => *first == b'.' || *first == b'[',
        None => false,
    }
}

/// Reads all steps that stand at the front of `text`, and gives the bytes after them.
pub(crate) fn read_steps(alloc: Global, text: &[u8]) -> Result<(Steps, &[u8]), Refused<Absent>>
    ensures { Reads (λ x. (x.0.items, x.1.now)) result (read_as path_of (steps_at most_steps text.now)) }
{
    let mut steps = SmallVec::new(alloc);
    let mut rest = text;
    'turns: while begins_step(rest) {
        if steps.len() == MAX_STEPS {
            return Err(Refused::Fault(Absent));
        }
        let (step, more) = read_step(alloc, rest)?;
        steps.push(step)?;
        rest = more;
    }
    Ok((steps, rest))
}
