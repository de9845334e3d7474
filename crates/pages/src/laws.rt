//! What is written reads back. The laws are contracts of empty functions.

ghost use Rattle.std.specs.Prelude.{◌≡◌, ◌<◌, ◌≤◌, ◌^◌, ◌++◌, ℕ, List, length, Ok};
ghost use Rattle.std.specs.List.{All};
ghost use Rattle.vs_bytes.specs.declared.leaf_columns.Entry.{Entry};
ghost use Rattle.vs_bytes.specs.declared.leaf_columns.Leaf.{Leaf};
ghost use Rattle.thrift_compact.specs.PageHeaders.{page_header};
ghost use Rattle.pages.specs.Bodies.{data_body};
ghost use Rattle.pages.specs.Entries.{IsEntry};
ghost use Rattle.pages.specs.Pages.{page_of};
ghost use Rattle.pages.specs.Written.{body_written, header_of, header_written};

/// The header and the body that are written for entries of a leaf column read back, whatever bytes follow them.
pub fn written_entries_read_back()
    ensures header { (count size : ℕ) (more : List ℕ) → count < 2 ^ 31 → size < 2 ^ 31 → page_header (header_written count size ++ more) ≡ Ok (header_of count size, length (header_written count size)) }
    ensures body { (leaf : Leaf) (entries : List Entry) (more : List ℕ) → leaf.rep < 65536 → leaf.def < 65536 → length entries ≤ 1000000000 → All (IsEntry leaf) entries → data_body leaf (length entries) (body_written leaf entries ++ more) ≡ Ok entries }
    ensures page { (leaf : Leaf) (entries : List Entry) (size : ℕ) → leaf.rep < 65536 → leaf.def < 65536 → length entries ≤ 1000000000 → All (IsEntry leaf) entries → page_of leaf (header_of (length entries) size) (body_written leaf entries) ≡ Ok entries }
{}
