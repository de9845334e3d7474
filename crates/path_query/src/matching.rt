//! The matches of a path.

ghost use Rattle.std.specs.Prelude.{◌≡◌, ◌++◌, IfOk, OnOk};
ghost use Rattle.json_tree.specs.View.{view};
ghost use Rattle.query_tree.specs.View.{steps_of};
ghost use Rattle.path_query.specs.Matches.{matches, at};
ghost use Rattle.path_query.specs.Rows.{row_of, found_of};

use crate::taking::parts_at;
use json_tree::Tree;
use query_tree::{Path, Step};
use std::alloc::Global;
use vs_bytes::NoMemory;

// Puts the matches of the steps after those that were found.
fn collect<'t>(steps: &[Step], tree: &'t Tree, into: &mut Vec<&'t Tree>) -> Result<(), NoMemory>
    ensures { OnOk result (found_of into.new.items ≡ found_of into.old.items ++ matches steps.now (view tree.now)) }
{
    match steps.split_first() {
        None => into.push(tree)?,
        Some((step, others)) => {
            for part in parts_at(step, tree) {
                collect(others, part, into)?;
            }
        }
    }
    Ok(())
}

/// The matches of a path in a row, in the order of the row. It takes memory for its list alone.
pub fn at<'t>(alloc: Global, path: &Path, row: Option<&'t Tree>) -> Result<Vec<&'t Tree>, NoMemory>
    ensures { IfOk result (λ found. found_of found.items ≡ at (steps_of path.now) (row_of row.entry)) }
{
    let mut found = Vec::new(alloc);
    if let Some(tree) = row {
        collect(path.as_slice(), tree, &mut found)?;
    }
    Ok(found)
}
