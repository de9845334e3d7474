//! The law of masks. It is the contract of an empty function.

ghost use Rattle.std.specs.Prelude.{◌≡◌, ◌+◌, true, length};
ghost use Rattle.query_tree.specs.Asked.{Asked};
ghost use Rattle.shred_schema.specs.Groups.{Group, width};
ghost use Rattle.shred_schema.specs.Ranges.{reads};
ghost use Rattle.chunk_pruning.specs.Needs.{needs, ReadsNeeded};

/// The mask of a query has a truth value for each leaf, the metadata's included, and it reads the leaves that the query
/// needs, the metadata's at least.
pub fn needs_are_read()
    ensures read { (asked : Asked) (n : Group) → ReadsNeeded asked n (reads (needs asked n)) }
    ensures len { (asked : Asked) (n : Group) → length (needs asked n) ≡ 1 + width n }
    ensures metadata { (asked : Asked) (n : Group) → reads (needs asked n) 0 ≡ true }
{}
