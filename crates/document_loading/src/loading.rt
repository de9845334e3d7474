//! All documents of an input, written to a new file.

ghost use Rattle.std.specs.Prelude.{◌≡◌, ◌≤◌};
ghost use Rattle.striping_laws.specs.Rows.{min_page_bytes};
ghost use Rattle.shred_schema.specs.Views.{group_of};
ghost use Rattle.schema_parsing.specs.Canonical.{HasText};
ghost use Rattle.json_documents.specs.Input.{OfInput, IsWithinLimit};
ghost use Rattle.command_parsing.specs.Commands.{load_of};
ghost use Rattle.document_loading.specs.Loading.{Loads, intake, settings_of};

use crate::loader::Loader;
use command_parsing::LoadCommand;
use json_documents::{Stop, hand_on};
use outside::Source;
use shelf::Shelf;
use std::alloc::Global;
use store_write::{FileWriter, Settings, WriteError};
use variant_write::Widths;

fn settings_of(asked: &LoadCommand) -> Settings
    ensures { result ≡ settings_of (load_of asked.now) }
{
    Settings {
        widths: Widths {
            offset: asked.widths.offset_width,
            id: asked.widths.id_width,
        },
        page_bytes: asked.page_bytes,
        group_rows: asked.group_rows,
    }
}

/// Writes the documents of an input to a new file, up to the end of the input or the first fault.
///
/// After a fault of the input the file has all groups that closed, and no footer is begun.
pub fn load<S: Shelf, I: Source>(
    alloc: Global,
    asked: LoadCommand,
    input: &mut I,
    shelf: &mut S,
) -> Result<(), Stop<WriteError>>
    requires schema { HasText (group_of asked.schema) }
    requires pages { min_page_bytes ≤ asked.page_bytes }
    ensures loads { Loads (load_of asked) (intake (S.seen shelf.old) (I.seen input.old)) (intake (S.seen shelf.new) (I.seen input.new)) result }
    ensures bounded { OfInput (I.seen input.old).bytes (λ bytes. IsWithinLimit bytes (I.seen input.new).bytes) }
{
    let settings = settings_of(&asked);
    let LoadCommand { out, schema, .. } = asked;
    match FileWriter::start(alloc, shelf, out, schema, settings) {
        Ok(writer) => {
            let mut loader = Loader { writer };
            match hand_on(alloc, input, &mut loader, shelf) {
                Ok(()) => match loader.writer.finish(shelf) {
                    Ok(()) => Ok(()),
                    Err(fault) => Err(Stop::Taker(fault)),
                },
                Err(Stop::Input(why)) => Err(Stop::Input(why)),
                Err(Stop::Taker(fault)) => Err(Stop::Taker(fault)),
            }
        }
        Err(fault) => Err(Stop::Taker(fault)),
    }
}
