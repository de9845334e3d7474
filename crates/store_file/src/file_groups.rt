//! One row group of a file: its rows, and the lines of a query over them.

ghost use Rattle.std.specs.Prelude.{◌≡◌};
ghost use Rattle.query_tree.specs.Asked.{query_of};
ghost use Rattle.group_lines.specs.Lines.{trees_of};
ghost use Rattle.store_read.specs.GroupRead.{CanRead};
ghost use Rattle.store_read.specs.Ranges.{ReadsFile};
ghost use Rattle.store_file.specs.Beginning.{IsUsable};
ghost use Rattle.store_file.specs.FileCalls.{chunks_in, group_rows, group_lines};
ghost use Rattle.store_file.specs.GroupCalls.{OpensGroup};
ghost use Rattle.store_file.specs.Masks.{needed};

use crate::file_faults::{Violation, refusal_in, stop_in};
use crate::store_file::StoreFile;
use footer_structs::GroupMeta;
use group_lines::{RowTrees, collect_rows, print_rows};
use group_reading::GroupRows;
use query_tree::Query;
use shelf::Shelf;
use shred_schema::Mask;
use std::alloc::Global;
use store_read::{ReadStop, read_group};

/// Group k: its chunks are read in the leaves that the mask reads, and its rows are still to come.
#[tactic(auto, using(crate::proofs::GroupsRead::group_stopped))]
pub(crate) fn open_group<S: Shelf>(
    alloc: Global,
    shelf: &mut S,
    file: &StoreFile,
    mask: &Mask,
    k: usize,
    group: &GroupMeta,
) -> Result<GroupRows, ReadStop<Violation>>
    requires can { CanRead file.now.column mask.now }
    ensures { OpensGroup file.now mask.now (S.seen shelf.old) (S.seen shelf.new) k group.now result }
{
    match read_group(
        alloc,
        shelf,
        &file.name,
        file.opened.end,
        &file.column,
        group,
        mask,
    ) {
        Ok(rows) => Ok(rows),
        Err(stop) => Err(stop_in(k, stop)),
    }
}

/// The rows of group k.
#[tactic(auto, using(crate::proofs::GroupsRead::trees_given, crate::proofs::GroupsRead::trees_refused, crate::proofs::GroupsRead::trees_stopped))]
pub(crate) fn read_trees<S: Shelf>(
    alloc: Global,
    shelf: &mut S,
    file: &StoreFile,
    k: usize,
    group: &GroupMeta,
) -> Result<RowTrees, ReadStop<Violation>>
    requires usable { IsUsable file.now }
    ensures { ReadsFile trees_of (S.seen shelf.old) (S.seen shelf.new) file.now.name (chunks_in file.now file.now.mask group.now) (λ bytes. group_rows file.now file.now.mask bytes k group.now) result }
{
    match open_group(alloc, shelf, file, &file.mask, k, group) {
        Ok(rows) => match collect_rows(alloc, rows, &file.column.column, &file.mask) {
            Ok(trees) => Ok(trees),
            Err(refusal) => Err(refusal_in(k, refusal)),
        },
        Err(stop) => Err(stop),
    }
}

/// The lines of a query over the rows of group k, of which the leaves that the query needs are read.
#[tactic(auto, using(crate::proofs::GroupsRead::lines_given, crate::proofs::GroupsRead::lines_refused, crate::proofs::GroupsRead::lines_stopped))]
pub(crate) fn read_lines<S: Shelf>(
    alloc: Global,
    shelf: &mut S,
    file: &StoreFile,
    mask: &Mask,
    k: usize,
    group: &GroupMeta,
    query: &Query,
) -> Result<Vec<u8>, ReadStop<Violation>>
    requires usable { IsUsable file.now }
    requires reads { mask.now ≡ needed file.now (query_of query.now) }
    ensures { ReadsFile (λ lines. lines.items) (S.seen shelf.old) (S.seen shelf.new) file.now.name (chunks_in file.now (needed file.now (query_of query.now)) group.now) (λ bytes. group_lines file.now (query_of query.now) bytes k group.now) result }
{
    match open_group(alloc, shelf, file, mask, k, group) {
        Ok(rows) => {
            let mut lines = Vec::new(alloc);
            match print_rows(alloc, &mut lines, rows, &file.column.column, mask, query) {
                Ok(()) => Ok(lines),
                Err(refusal) => Err(refusal_in(k, refusal)),
            }
        }
        Err(stop) => Err(stop),
    }
}
