//! Documents, written as rows of a file.

ghost use Rattle.shelf.specs.Storage.{Has};
ghost use Rattle.store_write.specs.Writers.{name_of};
ghost use Rattle.document_loading.specs.Taken.{TookIf, RefusedIf};
ghost use Rattle.document_loading.specs.Beginning.{takes_nothing};

use json_documents::Taker;
use json_tree::Tree;
use shelf::Shelf;
use store_write::{FileWriter, WriteError};

/// Writes each document as a row.
#[derive(Drop)]
pub struct Loader {
    pub writer: FileWriter,
}

impl<S: Shelf> Taker<S> for Loader {
    type Fault = WriteError;

    ghost ready = { λ l shelf. Has (S.seen shelf).files (name_of l.writer) };

    ghost took = { λ a first documents b now. TookIf (S.seen first) a.writer documents b.writer (S.seen now) };

    ghost refused = { λ a first documents document fault b now. RefusedIf (S.seen first) a.writer documents document fault (S.seen now) };

    fn take(&mut self, shelf: &mut S, document: &Tree) -> Result<(), WriteError> {
        self.writer.push(shelf, Some(document))
    }

    ghost begins = { λ start first. takes_nothing (S.seen first) start.writer };
}
