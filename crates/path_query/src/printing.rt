//! The printed line of a row.
//!
//! The parts of an array or an object are printed with a comma before each; the opening bracket then
//! takes the place of the first comma. So no list of the matches is made.

ghost use Rattle.std.specs.Prelude.{◌≡◌, ◌≤◌, ◌+◌, ◌∷◌, ◌++◌, [], false, take, drop, map, length, OnOk, OnErr};
ghost use Rattle.std.specs.Io.{StartsWith};
ghost use Rattle.byte_parsing.specs.Bytes.{comma, colon};
ghost use Rattle.json_tree.specs.Json.{array, parts_of};
ghost use Rattle.json_tree.specs.Text.{quoted, text_of, more_parts};
ghost use Rattle.json_tree.specs.View.{view};
ghost use Rattle.query_tree.specs.Asked.{query_of};
ghost use Rattle.query_tree.specs.PathText.{path_text, has_star};
ghost use Rattle.query_tree.specs.View.{steps_of};
ghost use Rattle.path_query.specs.Answer.{value_text, members, after_commas, line_of, row_text};
ghost use Rattle.path_query.specs.Matches.{list_of, matches, at};
ghost use Rattle.path_query.specs.Members.{after_comma};
ghost use Rattle.path_query.specs.Rows.{row_of};

use crate::taking::parts_at;
use crate::truth::holds;
use json_tree::{Tree, print};
use query_tree::{Path, Query, Step};
use vs_bytes::NoMemory;

// The match of steps without a star: there is one at most.
fn only<'t>(steps: &[Step], row: Option<&'t Tree>) -> Option<&'t Tree>
    requires { has_star steps.now ≡ false }
    ensures { list_of (row_of result) ≡ at steps.now (row_of row.entry) }
{
    let mut here = row?;
    for step in steps {
        here = parts_at(step, here).first()?;
    }
    Some(here)
}

// Each match after a comma.
fn put_matches(into: &mut Vec<u8>, steps: &[Step], tree: &Tree) -> Result<(), NoMemory>
    ensures ok { OnOk result (into.new.items ≡ into.old.items ++ more_parts (parts_of (matches steps.now (view tree.now)))) }
    ensures grows { StartsWith into.new.items into.old.items }
{
    match steps.split_first() {
        None => {
            into.push(b',')?;
            print(into, tree)?;
        }
        Some((step, others)) => {
            for part in parts_at(step, tree) {
                put_matches(into, others, part)?;
            }
        }
    }
    Ok(())
}

// Puts the bracket in place of the comma at `start`, or at the end where nothing was printed.
fn put_opening(into: &mut Vec<u8>, start: usize, bracket: u8) -> Result<(), NoMemory>
    requires { start ≤ length into.old.items }
    ensures ok { OnOk result (into.new.items ≡ take start into.old.items ++ bracket ∷ drop (start + 1) into.old.items) }
    ensures grows { take start into.new.items ≡ take start into.old.items }
{
    if start < into.len() {
        into[start] = bracket;
    } else {
        into.push(bracket)?;
    }
    Ok(())
}

fn put_all(into: &mut Vec<u8>, steps: &[Step], row: Option<&Tree>) -> Result<(), NoMemory>
    ensures ok { OnOk result (into.new.items ≡ into.old.items ++ more_parts (parts_of (at steps.now (row_of row.entry)))) }
    ensures grows { StartsWith into.new.items into.old.items }
{
    match row {
        Some(tree) => put_matches(into, steps, tree),
        None => Ok(()),
    }
}

fn put_array(into: &mut Vec<u8>, steps: &[Step], row: Option<&Tree>) -> Result<(), NoMemory>
    ensures ok { OnOk result (into.new.items ≡ into.old.items ++ text_of (array (parts_of (at steps.now (row_of row.entry))))) }
    ensures grows { StartsWith into.new.items into.old.items }
{
    let start = into.len();
    put_all(into, steps, row)?;
    put_opening(into, start, b'[')?;
    into.push(b']')?;
    Ok(())
}

// The member's name, between a comma and its colon.
fn put_name(into: &mut Vec<u8>, path: &Path) -> Result<(), NoMemory>
    ensures ok { OnOk result (into.new.items ≡ into.old.items ++ comma ∷ (quoted (path_text (steps_of path.now)) ++ colon ∷ [])) }
    ensures grows { StartsWith into.new.items into.old.items }
{
    into.push(b',')?;
    into.extend_from_slice(path.key())?;
    into.push(b':')?;
    Ok(())
}

fn put_member(into: &mut Vec<u8>, path: &Path, row: Option<&Tree>) -> Result<(), NoMemory>
    ensures ok { OnOk result (into.new.items ≡ into.old.items ++ after_comma (steps_of path.now) (value_text (steps_of path.now) (at (steps_of path.now) (row_of row.entry)))) }
    ensures grows { StartsWith into.new.items into.old.items }
{
    let steps = path.as_slice();
    if path.has_star() {
        put_name(into, path)?;
        put_array(into, steps, row)?;
    } else if let Some(found) = only(steps, row) {
        put_name(into, path)?;
        print(into, found)?;
    }
    Ok(())
}

fn put_members(into: &mut Vec<u8>, paths: &[Path], row: Option<&Tree>) -> Result<(), NoMemory>
    ensures ok { OnOk result (into.new.items ≡ into.old.items ++ after_commas (members (map steps_of paths.now) (row_of row.entry))) }
    ensures grows { StartsWith into.new.items into.old.items }
{
    for path in paths {
        put_member(into, path, row)?;
    }
    Ok(())
}

fn put_line(into: &mut Vec<u8>, paths: &[Path], row: Option<&Tree>) -> Result<(), NoMemory>
    ensures ok { OnOk result (into.new.items ≡ into.old.items ++ line_of (map steps_of paths.now) (row_of row.entry)) }
    ensures grows { StartsWith into.new.items into.old.items }
{
    let start = into.len();
    put_members(into, paths, row)?;
    put_opening(into, start, b'{')?;
    into.extend_from_slice(b"}\n")?;
    Ok(())
}

/// Appends the printed line of a row: an object with a member for each path that has something to
/// show, and LF. After an `Err` `into` is as before.
pub fn line(into: &mut Vec<u8>, query: &Query, row: Option<&Tree>) -> Result<(), NoMemory>
    ensures ok { OnOk result (into.new.items ≡ into.old.items ++ line_of (query_of query.now).paths (row_of row.entry)) }
    ensures err { OnErr result (into.new.items ≡ into.old.items) }
{
    let before = into.len();
    let done = put_line(into, query.paths.as_slice(), row);
    if done.is_err() {
        into.truncate(before);
    }
    done
}

/// Appends the line of a row on which the filter holds, and nothing for any other. After an `Err`
/// `into` is as before.
#[tactic(auto, unfolding(crate::specs::Answer::row_text))]
pub fn print_row(into: &mut Vec<u8>, query: &Query, row: Option<&Tree>) -> Result<(), NoMemory>
    ensures ok { OnOk result (into.new.items ≡ into.old.items ++ row_text (query_of query.now) (row_of row.entry)) }
    ensures err { OnErr result (into.new.items ≡ into.old.items) }
{
    let passes = match &query.filter {
        Some(filter) => holds(filter, row),
        None => true,
    };
    if passes {
        line(into, query, row)
    } else {
        Ok(())
    }
}
