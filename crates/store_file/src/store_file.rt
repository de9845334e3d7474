//! A file that is read group by group.

ghost use Rattle.std.specs.Prelude.{◌≡◌, ℕ, List, true, replicate, length, IfOk};
ghost use Rattle.thrift_footer.specs.Opening.{opening_ranges, IsFile, IsMissing, IsUnopened, Asks};
ghost use Rattle.store_file.specs.Masks.{full_mask};
ghost use Rattle.store_file.specs.Beginning.{beginning, Begins, IsUsable};
ghost use Rattle.store_file.specs.FileCalls.{groups_in};

use crate::file_faults::open_fault;
use file_columns::FileColumn;
use shelf::Shelf;
use shred_schema::Mask;
use std::alloc::Global;
use thrift_footer::{OpenFault, Opened, column, open_file};
use vs_bytes::{NoMemory, Sequence, Text};

/// A file that was begun: it was opened, and a column of it was found.
///
/// No call changes it.
#[derive(Drop)]
pub struct StoreFile {
    pub(crate) name: Text,
    pub(crate) opened: Opened,
    pub(crate) column: FileColumn,
    // reads all leaves of the column, for checks and rows
    pub(crate) mask: Mask,
}

// Each leaf of the column is read.
fn full_mask(alloc: Global, column: &FileColumn) -> Result<Mask, NoMemory>
    ensures { IfOk result (λ mask. mask ≡ full_mask column.now) }
{
    let mut mask = Sequence::new(alloc);
    for _leaf in 0..column.leaves.len() {
        mask.push(true)?;
    }
    Ok(mask)
}

impl StoreFile {
    /// Begins a file: opens it, and finds the column of a name in it.
    ///
    /// The first violation is that of `open_file`, and after it that of `column`.
    pub fn begin<S: Shelf>(
        alloc: Global,
        shelf: &mut S,
        name: Text,
        column_name: &str,
    ) -> Result<StoreFile, OpenFault>
        ensures asks { Asks (S.seen shelf.old) (S.seen shelf.new) name (opening_ranges name) result }
        ensures begins { (file : List ℕ) → IsFile (S.seen shelf.old).files name file → Begins (beginning file column_name.now) result }
        ensures missing { IsMissing (S.seen shelf.old).files name → IsUnopened (S.seen shelf.old) (S.seen shelf.new) result }
        ensures name { IfOk result (λ f. f.name ≡ name) }
        ensures usable { IfOk result IsUsable }
    {
        let opened = match open_file(alloc, shelf, &name) {
            Ok(opened) => opened,
            Err(fault) => return Err(fault),
        };
        let column = match column(alloc, &opened.meta, column_name) {
            Ok(column) => column,
            Err(refusal) => return Err(open_fault(refusal)),
        };
        match full_mask(alloc, &column) {
            Ok(mask) => Ok(StoreFile {
                name,
                opened,
                column,
                mask,
            }),
            Err(_) => Err(OpenFault::NoMemory),
        }
    }

    /// How many row groups the file has.
    pub fn groups(&self) -> usize
        ensures { result ≡ length (groups_in self.now) }
    {
        self.opened.meta.row_groups.len()
    }
}
