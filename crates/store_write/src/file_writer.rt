//! A file that is written.

ghost use Rattle.open_group.specs.Filling.{texts_limit};
ghost use Rattle.std.specs.Prelude.{◌≡◌, ◌<◌, IfOk};
ghost use Rattle.store_write.specs.Made.{orders_of};
ghost use Rattle.store_write.specs.Refusals.{added_error};
ghost use Rattle.std.specs.Option.{ForNone};

use crate::group_closing::{add_row, end_file};
use crate::write_error::{First, WriteError};
use closed_groups::ClosedGroups;
use footer_structs::MAGIC;
use json_tree::Tree;
use open_group::{OpenGroup, Settings};
use shelf::{Shelf, ShelfError};
use shred_schema::{Column, Node};
use std::alloc::Global;
use vs_bytes::{NoMemory, Sequence, Text};
use written_columns::{SchemaPath, leaf_paths, schema_elements};

/// A file of one column of shredded Variants, which is written row by row.
///
/// After a call was refused the writer is broken: later calls answer with that refusal, and touch nothing.
#[derive(Drop)]
pub struct FileWriter {
    name: Text,
    open: OpenGroup,
    closed: ClosedGroups,
    broken: Option<First>,
    ghost ready: { ForNone broken (open.texts < texts_limit) },
}

// Why bytes weren't added.
fn added_error(refused: ShelfError) -> WriteError
    ensures { result ≡ added_error refused }
{
    match refused {
        ShelfError::NoMemory => WriteError::NoMemory,
        _ => WriteError::Failed,
    }
}

// The orders of leaves: each has TYPE_ORDER.
fn type_orders(alloc: Global, paths: &[SchemaPath]) -> Result<Sequence<i32>, NoMemory>
    ensures { IfOk result (λ orders. orders ≡ orders_of paths.now) }
{
    let mut orders = Sequence::new(alloc);
    for _path in paths {
        orders.push(1)?;
    }
    Ok(orders)
}

impl FileWriter {
    ghost use Rattle.std.specs.Prelude.{◌≡◌, ◌∷◌, [], ◌++◌, List, Option, None, Err, true, IfSome, IfOk, OnOk};
    ghost use Rattle.json_tree.specs.Json.{Json};
    ghost use Rattle.striping_laws.specs.Rows.{CanBeRow};
    ghost use Rattle.shelf.specs.Storage.{Has};
    ghost use Rattle.shred_schema.specs.Views.{group_of};
    ghost use Rattle.schema_parsing.specs.Grammar.{IsSchema};
    ghost use Rattle.schema_parsing.specs.Canonical.{schema_text, HasText};
    ghost use Rattle.footer_structs.specs.FileEnds.{magic};
    ghost use Rattle.open_group.specs.OpenGroups.{row_of, IsSettings};
    ghost use Rattle.store_write.specs.Writers.{name_of, node_in, settings_in, broken_by, Stands, StandsIn, MadeIn, Starts, error_of, AddsRow, EndsFile, IsFor, KeepsForm};

    // A writer without rows, which has touched nothing.
    fn new(
        alloc: Global,
        name: Text,
        node: Node,
        settings: Settings,
    ) -> Result<FileWriter, NoMemory>
        requires schema { IsSchema (schema_text (group_of node)) (group_of node) }
        requires settings { IsSettings settings }
        ensures form { IfOk result (λ w. IsFor w name (group_of node) settings) }
        ensures stands { IfOk result (λ w. Stands w magic []) }
    {
        let column = Column {
            optional: true,
            node,
        };
        let schema = schema_elements(alloc, &column, "doc")?;
        let paths = leaf_paths(alloc, &column, "doc")?;
        let orders = type_orders(alloc, paths.as_slice())?;
        let closed = ClosedGroups::new(alloc, schema, orders)?;
        let open = OpenGroup::new(alloc, column, paths, settings)?;
        Ok(FileWriter {
            name,
            open,
            closed,
            broken: None,
        })
    }

    /// Makes a new file, and a writer of it: of rows of a column that a schema describes.
    pub fn start<S: Shelf>(
        alloc: Global,
        shelf: &mut S,
        name: Text,
        node: Node,
        settings: Settings,
    ) -> Result<FileWriter, WriteError>
        requires schema { HasText (group_of node) }
        requires settings { IsSettings settings }
        ensures starts { Starts (S.seen shelf.old) (S.seen shelf.new) name (error_of result) }
        ensures form { IfOk result (λ w. IsFor w name (group_of node) settings) }
        ensures whole { IfOk result (λ w. broken_by w ≡ None) }
        ensures begun { IfOk result (λ w. Stands w magic []) }
        ensures stands { IfOk result (λ w. StandsIn (S.seen shelf.new).files w []) }
    {
        let writer = match FileWriter::new(alloc, name, node, settings) {
            Ok(writer) => writer,
            Err(_) => return Err(WriteError::NoMemory),
        };
        match shelf.create(&writer.name) {
            Ok(()) => {}
            Err(ShelfError::Taken) => return Err(WriteError::Taken),
            Err(ShelfError::NoMemory) => return Err(WriteError::NoMemory),
            Err(_) => return Err(WriteError::Failed),
        }
        match shelf.append(&writer.name, MAGIC) {
            Ok(()) => Ok(writer),
            Err(refused) => Err(added_error(refused)),
        }
    }

    /// Adds a row: a document, or none.
    ///
    /// Where the row fills a row group, the group closes: its chunks are added to the file.
    pub fn push<S: Shelf>(&mut self, shelf: &mut S, row: Option<&Tree>) -> Result<(), WriteError>
        requires there { broken_by self.old ≡ None → Has (S.seen shelf.old).files (name_of self.old) }
        requires row { CanBeRow true (row_of row) }
        ensures broken { IfSome (broken_by self.old) (λ first. (result ≡ Err (WriteError.Broken first)) × (self.new ≡ self.old) × (shelf.new ≡ shelf.old)) }
        ensures adds { broken_by self.old ≡ None → AddsRow self.old self.new (S.seen shelf.old) (S.seen shelf.new) (row_of row.entry) result }
        ensures stands { (rows : List (Option Json)) → StandsIn (S.seen shelf.old).files self.old rows
            → OnOk result (StandsIn (S.seen shelf.new).files self.new (rows ++ row_of row.entry ∷ [])) }
        ensures form { KeepsForm self.old self.new }
    {
        if let Some(first) = self.broken {
            return Err(WriteError::Broken(first));
        }
        match add_row(shelf, &self.name, &mut self.open, &mut self.closed, row) {
            Ok(()) => Ok(()),
            Err(first) => {
                self.broken = Some(first);
                Err(first.refusal())
            }
        }
    }

    /// Ends the file: the rows that are left close as a group, and the footer follows.
    pub fn finish<S: Shelf>(self, shelf: &mut S) -> Result<(), WriteError>
        requires there { broken_by self ≡ None → Has (S.seen shelf.old).files (name_of self) }
        ensures broken { IfSome (broken_by self) (λ first. (result ≡ Err (WriteError.Broken first)) × (shelf.new ≡ shelf.old)) }
        ensures ends { broken_by self ≡ None → EndsFile self (S.seen shelf.old) (S.seen shelf.new) result }
        ensures made { (rows : List (Option Json)) → StandsIn (S.seen shelf.old).files self rows
            → OnOk result (MadeIn (S.seen shelf.new).files (name_of self) (settings_in self) (node_in self) rows) }
    {
        let FileWriter {
            name,
            mut open,
            mut closed,
            broken,
        } = self;
        if let Some(first) = broken {
            return Err(WriteError::Broken(first));
        }
        match end_file(shelf, &name, &mut open, &mut closed) {
            Ok(()) => Ok(()),
            Err(first) => Err(first.refusal()),
        }
    }
}
