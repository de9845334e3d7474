//! Values (RFC 8259, section 3), arrays (section 5) and objects (section 4).
//!
//! Each function follows one function on lists of `json_grammar`, by the same calls: it gives the tree
//! of what that reads, and the bytes after it.

ghost use Rattle.std.specs.Prelude.{◌≡◌, ◌==◌, cond, map};
ghost use Rattle.json_tree.specs.Json.{array, parts_of};
ghost use Rattle.json_tree.specs.View.{view, seen};
ghost use Rattle.json_grammar.specs.Reading.{value_at, nested, text_at, array_at, object_at, elements_at, entry_at, entries_at};
ghost use Rattle.vs_bytes.specs.Names.{repeats};
ghost use Rattle.exact_json.specs.Meaning.{object_or_null};
ghost use Rattle.vs_bytes.specs.Outcome.{Reads};
ghost use Rattle.exact_json.specs.Parsing.{told, told_elements, told_entry, told_entries};
ghost use Rattle.exact_json.specs.Shown.{shown};

use crate::document::DEPTH_LIMIT;
use crate::numbers::read_number;
use crate::scan::past_gap;
use crate::seen::Seen;
use crate::strings::read_string;
use byte_parsing::{after_byte, after_bytes};
use json_tree::{Items, Members, Tree};
use std::alloc::Global;
use vs_bytes::{Absent, Refused, Text};

// For how many members a record has room at first, and any array or object inside it: most have no
// more, and the memory of a line of many small arrays stays within bounds.
const RECORD_ROOM: usize = 8;

const INNER_ROOM: usize = 2;

/// Reads a value from the front of `text`, and gives the bytes after it. At most `depth` arrays and
/// objects may be open at once. The value's flaws are noted, and null stands in for what has no value.
#[cycle(parser)]
pub(crate) fn read_value<'a>(
    alloc: Global,
    text: &'a [u8],
    depth: u32,
    noted: &mut Seen,
) -> Result<(Tree, &'a [u8]), Refused<Absent>>
    ensures told { Reads (λ x. (view x.0, shown noted.new, x.1.now)) result (told (shown noted.old) (value_at depth text.now)) }
{
    match text {
        [] => Err(Refused::Fault(Absent)),
        [b'"', rest @ ..] => read_text(alloc, rest, noted),
        [b'[', rest @ ..] => read_array(alloc, rest, depth, noted),
        [b'{', rest @ ..] => read_object(alloc, rest, depth, noted),
        [b'n', ..] => match after_bytes(text, b"null") {
            Some(rest) => Ok((Tree::Null, rest)),
            None => Err(Refused::Fault(Absent)),
        },
        [b't', ..] => match after_bytes(text, b"true") {
            Some(rest) => Ok((Tree::Bool(true), rest)),
            None => Err(Refused::Fault(Absent)),
        },
        [b'f', ..] => match after_bytes(text, b"false") {
            Some(rest) => Ok((Tree::Bool(false), rest)),
            None => Err(Refused::Fault(Absent)),
        },
        _ => match read_number(text, noted) {
            Some((tree, rest)) => Ok((tree, rest)),
            None => Err(Refused::Fault(Absent)),
        },
    }
}

// The rest of a string, array or object from its opening byte on.

fn read_text<'a>(
    alloc: Global,
    text: &'a [u8],
    noted: &mut Seen,
) -> Result<(Tree, &'a [u8]), Refused<Absent>>
    ensures told { Reads (λ x. (view x.0, shown noted.new, x.1.now)) result (told (shown noted.old) (text_at text.now)) }
{
    let (text, rest) = read_string(alloc, text, noted)?;
    Ok((Tree::Text(text), rest))
}

#[cycle(parser)]
#[tactic(auto, unfolding(json_grammar::specs::Reading::nested))]
fn read_array<'a>(
    alloc: Global,
    text: &'a [u8],
    depth: u32,
    noted: &mut Seen,
) -> Result<(Tree, &'a [u8]), Refused<Absent>>
    ensures told { Reads (λ x. (view x.0, shown noted.new, x.1.now)) result (told (shown noted.old) (array_at (nested depth).0 text.now)) }
{
    if depth == 0 {
        return Err(Refused::Fault(Absent));
    }
    let (trees, rest) = read_elements(alloc, past_gap(text), depth - 1, noted)?;
    Ok((array_tree(trees), rest))
}

fn array_tree(trees: Vec<Tree>) -> Tree
    ensures { view result ≡ array (parts_of (map view trees.items)) }
{
    Tree::Array(Items::from_vec(trees))
}

#[cycle(parser)]
fn read_elements<'a>(
    alloc: Global,
    text: &'a [u8],
    depth: u32,
    noted: &mut Seen,
) -> Result<(Vec<Tree>, &'a [u8]), Refused<Absent>>
    ensures told { Reads (λ x. (map view x.0.items, shown noted.new, x.1.now)) result (told_elements (shown noted.old) (elements_at (value_at depth) text.now)) }
{
    if let Some(rest) = after_byte(text, b']') {
        return Ok((Vec::new(alloc), rest));
    }
    let mut trees = Vec::with_capacity(alloc, INNER_ROOM)?;
    let (tree, behind) = read_value(alloc, text, depth, noted)?;
    trees.push(tree)?;
    let mut rest = past_gap(behind);
    // Each turn takes a byte, so there are at most so many.
    for turn in 0..rest.len() {
        if let Some(behind) = after_byte(rest, b']') {
            return Ok((trees, behind));
        }
        let Some(next) = after_byte(rest, b',') else {
            return Err(Refused::Fault(Absent));
        };
        let (tree, behind) = read_value(alloc, past_gap(next), depth, noted)?;
        trees.push(tree)?;
        rest = past_gap(behind);
    }
    Err(Refused::Fault(Absent))
}

#[cycle(parser)]
#[tactic(auto, unfolding(json_grammar::specs::Reading::nested))]
fn read_object<'a>(
    alloc: Global,
    text: &'a [u8],
    depth: u32,
    noted: &mut Seen,
) -> Result<(Tree, &'a [u8]), Refused<Absent>>
    ensures told { Reads (λ x. (view x.0, shown noted.new, x.1.now)) result (told (shown noted.old) (object_at (nested depth).1 text.now)) }
{
    if depth == 0 {
        return Err(Refused::Fault(Absent));
    }
    let (pairs, rest) = read_entries(alloc, past_gap(text), depth - 1, noted)?;
    let (tree, repeated) = object_tree(pairs);
    noted.note_repeated(repeated);
    Ok((tree, rest))
}

// The object, and whether a name stands twice: then null stands in for it.
fn object_tree(pairs: Vec<(Text, Tree)>) -> (Tree, bool)
    ensures tree { view result.0 ≡ object_or_null (map seen pairs.items) }
    ensures repeated { result.1 ≡ repeats (map (λ m. m.0) (map seen pairs.items)) }
{
    match Members::from_pairs(pairs) {
        Ok(members) => (Tree::Object(members), false),
        Err(_) => (Tree::Null, true),
    }
}

// The object that is the line itself leaves one less than the limit to those inside it.
fn first_room(depth: u32) -> usize
    ensures { result ≡ cond (depth == 63) 8 2 }
{
    if depth == DEPTH_LIMIT - 1 {
        RECORD_ROOM
    } else {
        INNER_ROOM
    }
}

#[cycle(parser)]
fn read_entries<'a>(
    alloc: Global,
    text: &'a [u8],
    depth: u32,
    noted: &mut Seen,
) -> Result<(Vec<(Text, Tree)>, &'a [u8]), Refused<Absent>>
    ensures told { Reads (λ x. (map seen x.0.items, shown noted.new, x.1.now)) result (told_entries (shown noted.old) (entries_at (value_at depth) text.now)) }
{
    if let Some(rest) = after_byte(text, b'}') {
        return Ok((Vec::new(alloc), rest));
    }
    let mut pairs = Vec::with_capacity(alloc, first_room(depth))?;
    let (pair, behind) = read_entry(alloc, text, depth, noted)?;
    pairs.push(pair)?;
    let mut rest = past_gap(behind);
    // Each turn takes a byte, so there are at most so many.
    for turn in 0..rest.len() {
        if let Some(behind) = after_byte(rest, b'}') {
            return Ok((pairs, behind));
        }
        let Some(next) = after_byte(rest, b',') else {
            return Err(Refused::Fault(Absent));
        };
        let (pair, behind) = read_entry(alloc, past_gap(next), depth, noted)?;
        pairs.push(pair)?;
        rest = past_gap(behind);
    }
    Err(Refused::Fault(Absent))
}

// A name, a colon and a value.
#[cycle(parser)]
#[inline(always)]
fn read_entry<'a>(
    alloc: Global,
    text: &'a [u8],
    depth: u32,
    noted: &mut Seen,
) -> Result<((Text, Tree), &'a [u8]), Refused<Absent>>
    ensures told { Reads (λ x. (seen x.0, shown noted.new, x.1.now)) result (told_entry (shown noted.old) (entry_at (value_at depth) text.now)) }
{
    let Some(inside) = after_byte(text, b'"') else {
        return Err(Refused::Fault(Absent));
    };
    let (name, behind) = read_string(alloc, inside, noted)?;
    let Some(rest) = after_byte(past_gap(behind), b':') else {
        return Err(Refused::Fault(Absent));
    };
    let (tree, rest) = read_value(alloc, past_gap(rest), depth, noted)?;
    Ok(((name, tree), rest))
}
