//! What is written reads back. Each law is a clause of an empty function.

ghost use Rattle.std.specs.Prelude.{◌≡◌, ◌++◌, ℕ, List, Ok};
ghost use Rattle.footer_structs.specs.ReadFooters.{footer};
ghost use Rattle.footer_structs.specs.FooterWriting.{footer_bytes, FileFits, FooterReadsBack};
ghost use Rattle.footer_structs.specs.declared.file_metadata.FileMeta.{FileMeta};

/// The bytes that `write_footer` writes are read back by `read_footer`, whatever bytes follow them. What reads back can
/// be written.
pub fn footers_read_back()
    ensures read { (m : FileMeta) (rest : List ℕ) → FooterReadsBack m → footer (footer_bytes m ++ rest) ≡ Ok m }
    ensures writable { (m : FileMeta) → FooterReadsBack m → FileFits m }
{}
