//! What a command prints of each document of its input.

ghost use Rattle.std.specs.Prelude.{◌≡◌, ◌++◌, OnOk, OnErr};
ghost use Rattle.json_documents.specs.Documents.{IsInputValue};
ghost use Rattle.json_tree.specs.View.{view};
ghost use Rattle.variant_store.specs.Answer.{printed};
ghost use Rattle.variant_store.specs.Stream.{Stream};

use json_tree::Tree;
use vs_bytes::NoMemory;

/// Prints something of each document.
pub trait Printer: Drop {
    /// What it prints.
    ghost stream: { Self → Stream };

    /// Appends what is printed of a document. After an `Err` the output is as before.
    fn print(&mut self, into: &mut Vec<u8>, document: &Tree) -> Result<(), NoMemory>
        requires document { IsInputValue (view document.now) }
        ensures ok { OnOk result (into.new.items ≡ into.old.items ++ printed (stream self.old) (view document.now)) }
        ensures err { OnErr result (into.new.items ≡ into.old.items) }
        ensures same { OnOk result (stream self.new ≡ stream self.old) };
}
