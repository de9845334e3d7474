//! The laws of paths: `path_at`, which the readers follow, reads what is written and nothing else, and
//! canonical texts are read back. Each law is a contract of an empty function.

ghost use Rattle.std.specs.Prelude.{◌≡◌, ◌≤◌, List, ℕ, length, false, Some};
ghost use Rattle.std.specs.List.{AllByRecursion};
ghost use Rattle.query_tree.specs.PathText.{path_text};
ghost use Rattle.query_tree.specs.declared.step.Step.{Step};
ghost use Rattle.path_parsing.specs.Canonical.{IsWritable};
ghost use Rattle.path_parsing.specs.Grammar.{PathSyntax, path_bytes, IsPathBefore, IsPath};
ghost use Rattle.path_parsing.specs.Limits.{most_steps, most_bytes};
ghost use Rattle.path_parsing.specs.Reading.{begins_step, path_at};

/// A path is read, whatever comes after it that begins no step.
pub fn paths_are_complete()
    ensures { (ss : PathSyntax) (after : List ℕ) → IsPathBefore ss after → begins_step after ≡ false → path_at (path_bytes ss after) ≡ Some (ss, after) }
{}

/// What is read is a path, and is written there.
pub fn paths_are_sound()
    ensures { (xs : List ℕ) (ss : PathSyntax) (after : List ℕ) → path_at xs ≡ Some (ss, after) → (xs ≡ path_bytes ss after) × IsPathBefore ss after }
{}

/// A text is a path of one list of steps at most.
pub fn paths_are_one()
    ensures { (text : List ℕ) (s t : List Step) → IsPath text s → IsPath text t → s ≡ t }
{}

/// The canonical text of steps is a path of them, if it is within the limits of paths.
pub fn canonical_texts_are_paths()
    ensures { (steps : List Step) → AllByRecursion IsWritable steps → length steps ≤ most_steps → length (path_text steps) ≤ most_bytes → IsPath (path_text steps) steps }
{}

/// The canonical text of a path is a path of the same steps, whatever its own text is.
pub fn paths_have_canonical_texts()
    ensures { (text : List ℕ) (steps : List Step) → IsPath text steps → IsPath (path_text steps) steps }
{}
