//! Whole filters.

ghost use Rattle.std.specs.Option.{option_map};
ghost use Rattle.vs_bytes.specs.Outcome.{Reads};
ghost use Rattle.query_tree.specs.View.{formula_of};
ghost use Rattle.filter_parsing.specs.Grammar.{formula_of as written_formula};
ghost use Rattle.filter_parsing.specs.Parses.{Parses};
ghost use Rattle.filter_parsing.specs.Reading.{filter_at};

use crate::filters::read_filter;
use query_tree::Filter;
use std::alloc::Global;
use vs_bytes::{Absent, Refused};

// The most bytes of a filter.
const MAX_BYTES: usize = 65_536;

// The most `not`s and brackets round one of its terms.
const MAX_NESTING: u32 = 64;

fn read_whole(alloc: Global, text: &[u8]) -> Result<Filter, Refused<Absent>>
    ensures { Reads formula_of result (option_map written_formula (filter_at text.now)) }
{
    if text.len() > MAX_BYTES {
        return Err(Refused::Fault(Absent));
    }
    let (parsed, rest) = read_filter(alloc, text, MAX_NESTING)?;
    if !rest.is_empty() {
        return Err(Refused::Fault(Absent));
    }
    Ok(parsed.into_filter())
}

/// Reads a text that is a filter, whatever its literals.
///
/// It has at most 65,536 bytes and 256 terms, and at most 64 `not`s and brackets stand round one term.
pub fn parse_filter(alloc: Global, text: &str) -> Result<Filter, Refused<Absent>>
    ensures parses { Parses formula_of text.now result }
{
    match read_whole(alloc, text.as_bytes()) {
        Ok(filter) => Ok(filter),
        Err(refused) => Err(refused),
    }
}
