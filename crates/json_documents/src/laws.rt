//! The laws of the documents of an input: it has one list of them, and one ending. Each law is a
//! contract of an empty function.

ghost use Rattle.std.specs.Prelude.{◌≡◌, List, ℕ};
ghost use Rattle.json_tree.specs.Json.{Json};
ghost use Rattle.json_documents.specs.Documents.{Ending, HasDocuments};

/// Each input has documents and an ending.
pub fn documents_are_there()
    ensures { (input : List ℕ) → (documents : List Json) × (ending : Ending) × HasDocuments input documents ending }
{}

/// An input has one list of documents at most, and one ending.
pub fn documents_are_one()
    ensures { (input : List ℕ) (ds es : List Json) (a b : Ending) → HasDocuments input ds a → HasDocuments input es b → (ds ≡ es) × (a ≡ b) }
{}
