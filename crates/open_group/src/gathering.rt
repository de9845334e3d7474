//! The rows of the group that is open.

ghost use Rattle.std.specs.Prelude.{◌≡◌, ◌+◌, ◌*◌, ◌^◌, ◌<◌, ◌≤◌, ◌-◌, min, [], ◌∷◌, ◌++◌, true, length, IfOk, OnOk, OnErr};
ghost use Rattle.shred_schema.specs.Lawful.{IsWellFormed};
ghost use Rattle.shred_schema.specs.Shapes.{RowIsOf};
ghost use Rattle.shred_schema.specs.Views.{group_of, row_rec_of};
ghost use Rattle.shredder.specs.Shredded.{shred_row};
ghost use Rattle.striping_laws.specs.Rows.{CanBeRow, text_len, max_texts_len};
ghost use Rattle.thrift_structs.specs.Listed.{ListFits};
ghost use Rattle.thrift_structs.specs.ChunkWriting.{ChunkFits};
ghost use Rattle.group_writing.specs.GroupChunks.{chunks_size, chunks_written, chunk_metas};
ghost use Rattle.open_group.specs.Filling.{texts_limit, is_full_by, counted_entries, rows_count};
ghost use Rattle.open_group.specs.OpenGroups.{records_in, node_of, row_of, IsSettings, IsWrittenColumn, KeepsColumn};

use crate::row_records::{record_of, row_text_len};
use crate::settings::Settings;
use group_writing::{SchemaPath, WrittenGroup, write_group};
use json_tree::Tree;
use level_striping::entries_of_row;
use shred_schema::{Column, LeafList, RowList, RowRecord};
use std::alloc::Global;
use std::marker::Model;
use variant_write::KnownNames;
use vs_bytes::{NoMemory, Sequence};

/// How many bytes the texts of a group's rows have when it closes, with 1 more for each.
const TEXTS_LIMIT: u64 = 16_777_216;

/// How many entries a group has over all leaf columns when it closes.
const ENTRIES_LIMIT: u64 = 4_194_304;

// The records of rows, with what decides when their group closes: how long the texts are, with 1 more for
// each row, and how many entries the records have.
#[derive(Drop)]
pub(crate) struct Gathered {
    rows: RowList,
    texts: u64,
    entries: u64,
}

impl Gathered {
    fn new(alloc: Global) -> Gathered
        ensures rows { result.rows ≡ [] }
        ensures texts { result.texts ≡ 0 }
        ensures entries { result.entries ≡ 0 }
    {
        Gathered {
            rows: Sequence::new(alloc),
            texts: 0,
            entries: 0,
        }
    }

    // Adds the record of a row whose text has `len` bytes. After an `Err` nothing was added.
    fn push(&mut self, column: &Column, made: RowRecord, len: u64) -> Result<(), NoMemory>
        requires column { IsWellFormed (group_of column.now.node) }
        requires of { RowIsOf column.now.optional (group_of column.now.node) (row_rec_of made) }
        requires few { self.old.texts + (len + 1) < 2 ^ 64 }
        ensures rows { OnOk result (self.new.rows ≡ self.old.rows ++ made ∷ []) }
        ensures texts { OnOk result (self.new.texts ≡ self.old.texts + (len + 1)) }
        ensures entries { OnOk result (self.new.entries
            ≡ min (self.old.entries + counted_entries column.now (row_rec_of made)) (2 ^ 64 - 1)) }
        ensures err { OnErr result (self.new ≡ self.old) }
    {
        let count = entries_of_row(column, &made) as u64;
        self.rows.push(made)?;
        self.texts += len + 1;
        self.entries = self.entries.saturating_add(count);
        Ok(())
    }
}

/// The row group that a writer has open.
#[derive(Drop)]
pub struct OpenGroup {
    alloc: Global,
    column: Column,
    leaves: LeafList,
    paths: Sequence<SchemaPath>,
    settings: Settings,
    gathered: Gathered,
    // The names and the metadata of the document that was tried last; none at first.
    names: KnownNames,
}

impl Model for OpenGroup {
    ghost use Rattle.open_group.specs.OpenGroups.{Open, IsSound};
    ghost use Rattle.shred_schema.specs.contracts.nodes.Node as n;
    ghost use Rattle.shred_schema.specs.contracts.records.Record as r;
    ghost use Rattle.std.specs.Coded.{codes};

    ghost Value = { Open };

    ghost coded = { Prim.hlevel (codes, n.the_row.coded, r.the_row.coded) };

    ghost view = { λ g. record {
      column = g.column;
      paths = g.paths;
      settings = g.settings;
      rows = g.gathered.rows;
      texts = g.gathered.texts;
    } };

    ghost invariant = { λ g. IsSound g.column g.leaves g.paths g.settings g.gathered.rows g.gathered.texts g.gathered.entries };
}

impl OpenGroup {
    /// A group without rows, of a column that a schema describes, with the schema paths of its leaves.
    pub fn new(
        alloc: Global,
        column: Column,
        paths: Sequence<SchemaPath>,
        settings: Settings,
    ) -> Result<OpenGroup, NoMemory>
        requires column { IsWrittenColumn column paths }
        requires settings { IsSettings settings }
        ensures { IfOk result (λ g. g ≡ record { column = column; paths = paths; settings = settings; rows = []; texts = 0 }) }
    {
        let leaves = shred_schema::leaves(alloc, &column)?;
        Ok(OpenGroup {
            alloc,
            column,
            leaves,
            paths,
            settings,
            gathered: Gathered::new(alloc),
            names: KnownNames::of(alloc, &Tree::Null, settings.widths.offset)?,
        })
    }

    /// Adds the record of a row. After an `Err` nothing was added.
    pub fn add(&mut self, row: Option<&Tree>) -> Result<(), NoMemory>
        requires room { self.old.texts < texts_limit }
        requires row { CanBeRow true (row_of row) }
        ensures records { OnOk result (records_in self.new
            ≡ records_in self.old ++ shred_row (node_of self.old) (row_of row.entry) self.old.settings.widths ∷ []) }
        ensures texts { OnOk result (self.new.texts ≡ self.old.texts + (text_len (row_of row.entry) + 1)) }
        ensures column { KeepsColumn self.old self.new }
        ensures err { OnErr result (self.new ≡ self.old) }
    {
        let made = record_of(
            self.alloc,
            &self.column.node,
            row,
            self.settings.widths,
            &mut self.names,
        )?;
        match self.gathered.push(&self.column, made, row_text_len(row)) {
            Ok(()) => Ok(()),
            Err(refused) => Err(refused),
        }
    }

    /// Whether the rows fill the group.
    pub fn is_full(&self) -> bool
        ensures { result ≡ is_full_by self.now.settings (length self.now.rows) self.now.texts
            (rows_count (node_of self.now) (records_in self.now)) }
    {
        self.gathered.rows.len() >= self.settings.group_rows as usize
            || self.gathered.texts >= TEXTS_LIMIT
            || self.gathered.entries >= ENTRIES_LIMIT
    }

    /// How many rows there are.
    pub fn len(&self) -> usize
        ensures len { result ≡ length self.now.rows }
        ensures few { result ≤ max_texts_len }
    {
        self.gathered.rows.len()
    }

    /// The chunks of the rows, and their structs, where the group begins at a place in the file.
    pub fn write(&self, place: u64) -> Result<WrittenGroup, NoMemory>
        requires { place < 2 ^ 62 }
        ensures chunks { IfOk result (λ g. g.chunks ≡ chunks_written self.now.settings.page_bytes true (node_of self.now) (records_in self.now)) }
        ensures metas { IfOk result (λ g. g.metas ≡ chunk_metas self.now.settings.page_bytes true (node_of self.now) self.now.paths place (records_in self.now)) }
        ensures size { IfOk result (λ g. g.size ≡ chunks_size g.chunks) }
        ensures fits { IfOk result (λ g. ListFits ChunkFits g.metas) }
        ensures sized { IfOk result (λ g. g.size ≤ 2 ^ 30 * length g.metas) }
    {
        let page_bytes = self.settings.page_bytes;
        let rows = &self.gathered.rows;
        match write_group(
            self.alloc,
            &self.column,
            &self.leaves,
            &self.paths,
            page_bytes,
            place,
            rows,
        ) {
            Ok(group) => Ok(group),
            Err(refused) => Err(refused),
        }
    }

    /// Lets go of all rows.
    pub fn clear(&mut self)
        ensures rows { self.new.rows ≡ [] }
        ensures texts { self.new.texts ≡ 0 }
        ensures column { KeepsColumn self.old self.new }
    {
        self.gathered = Gathered::new(self.alloc);
    }
}
