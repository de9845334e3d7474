//! The law of paths without a star. It is the contract of an empty function.

ghost use Rattle.std.specs.Prelude.{◌≡◌, ◌≤◌, List, Option, false, length};
ghost use Rattle.json_tree.specs.Json.{Json};
ghost use Rattle.query_tree.specs.PathText.{has_star};
ghost use Rattle.query_tree.specs.declared.step.Step.{Step};
ghost use Rattle.path_query.specs.Matches.{at};

/// A path without a star has one match in a row, or none.
pub fn starless_paths_match_once()
    ensures { (steps : List Step) (row : Option Json) → has_star steps ≡ false → length (at steps row) ≤ 1 }
{}
