//! What is written reads back. The laws are contracts of empty functions.

ghost use Rattle.std.specs.Prelude.{◌≡◌, ◌<◌, ◌≤◌, ◌++◌, ℕ, List, length, Option, Some, Ok};
ghost use Rattle.std.specs.List.{All};
ghost use Rattle.vs_bytes.specs.declared.leaf_columns.Entry.{Entry};
ghost use Rattle.vs_bytes.specs.declared.leaf_columns.Leaf.{Leaf};
ghost use Rattle.pages.specs.Entries.{IsEntry};
ghost use Rattle.pages.specs.Written.{page_written, weights};
ghost use Rattle.chunks.specs.Turns.{page_at, less, standing, next_of, entries_of};
ghost use Rattle.chunks.specs.PageCuts.{chunk_written};

/// The page that is written for entries of a leaf column is read at the front of a chunk's bytes, whatever bytes
/// follow it.
pub fn written_pages_read_back()
    ensures { (leaf : Leaf) (entries : List Entry) (more : List ℕ) → leaf.rep < 65536 → leaf.def < 65536 → weights leaf.phys entries ≤ 1000000000 → All (IsEntry leaf) entries → page_at leaf (page_written leaf entries ++ more) ≡ Ok (Some entries, length (page_written leaf entries)) }
{}

/// The chunk that is written for entries of a leaf column is read back page by page: a reader that is told how many
/// entries there are gives them all.
pub fn written_chunks_read_back()
    ensures page { (leaf : Leaf) (page : List Entry) (left : Option ℕ) (more : List ℕ) → leaf.rep < 65536 → leaf.def < 65536 → weights leaf.phys page ≤ 1000000000 → All (IsEntry leaf) page → next_of (standing leaf left (page_written leaf page ++ more)) ≡ Ok (Some page, standing leaf (less left (length page)) more) }
    ensures chunk { (leaf : Leaf) (page_bytes : ℕ) (entries : List Entry) → leaf.rep < 65536 → leaf.def < 65536 → weights leaf.phys entries ≤ 1000000000 → All (IsEntry leaf) entries → entries_of (standing leaf (Some (length entries)) (chunk_written leaf page_bytes entries)) ≡ Ok entries }
{}
