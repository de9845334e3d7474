//! Whether a file violates a rule.

ghost use Rattle.std.specs.Prelude.{◌≡◌};
ghost use Rattle.shred_schema.specs.Lawful.{IsWellFormed};
ghost use Rattle.shred_schema.specs.Views.{group_of};
ghost use Rattle.group_reading.specs.RowsAhead.{StandsFor};
ghost use Rattle.group_lines.specs.Lines.{rows_left};
ghost use Rattle.store_file.specs.Beginning.{IsUsable};
ghost use Rattle.store_file.specs.FileCalls.{Checks};
ghost use Rattle.store_file.specs.GroupCalls.{CountsRows, CountsGroup};

use crate::file_faults::{QueryFault, Violation, fault_of, refusal_in};
use crate::file_groups::open_group;
use crate::store_file::StoreFile;
use footer_structs::GroupMeta;
use group_reading::{GroupFault, GroupRows};
use shelf::Shelf;
use shred_schema::{Column, Mask};
use std::alloc::Global;
use store_read::ReadStop;
use vs_bytes::Refused;

// How many rows are still to come, or the first rule that they violate.
fn count_rows(
    alloc: Global,
    rows: GroupRows,
    column: &Column,
    mask: &Mask,
) -> Result<u64, Refused<GroupFault>>
    requires well { IsWellFormed (group_of column.now.node) }
    requires stands { StandsFor column.now.optional (group_of column.now.node) mask.now rows }
    ensures { CountsRows (rows_left column.now.optional (group_of column.now.node) mask.now rows) result }
{
    let mut rows = rows;
    let mut count = 0;
    loop {
        match rows.next(alloc, column, mask) {
            Ok(Some(_row)) => count += 1,
            Ok(None) => return Ok(count),
            Err(refusal) => return Err(refusal),
        }
    }
}

// How many rows group k has, or the first rule that it violates.
#[tactic(auto, using(crate::proofs::GroupsRead::rows_counted, crate::proofs::GroupsRead::count_refused, crate::proofs::GroupsRead::count_stopped))]
fn count_group<S: Shelf>(
    alloc: Global,
    shelf: &mut S,
    file: &StoreFile,
    k: usize,
    group: &GroupMeta,
) -> Result<u64, ReadStop<Violation>>
    requires usable { IsUsable file.now }
    ensures { CountsGroup file.now (S.seen shelf.old) (S.seen shelf.new) k group.now result }
{
    match open_group(alloc, shelf, file, &file.mask, k, group) {
        Ok(rows) => match count_rows(alloc, rows, &file.column.column, &file.mask) {
            Ok(count) => Ok(count),
            Err(refusal) => Err(refusal_in(k, refusal)),
        },
        Err(stop) => Err(stop),
    }
}

impl StoreFile {
    /// Judges all rows of the file: how many row groups and rows it has, or the first rule that it violates.
    ///
    /// Statistics aren't judged.
    pub fn check<S: Shelf>(&self, alloc: Global, shelf: &mut S) -> Result<(u64, u64), QueryFault>
        requires usable { IsUsable self.now }
        ensures { Checks self.now (S.seen shelf.old) (S.seen shelf.new) result }
    {
        let groups = &self.opened.meta.row_groups;
        let mut rows: u64 = 0;
        for k in 0..groups.len() {
            match count_group(alloc, shelf, self, k, groups.at(k)) {
                // No file has 2^64 rows: its footer's count of them is below 2^63.
                Ok(count) => match rows.checked_add(count) {
                    Some(sum) => rows = sum,
                    None => return Err(QueryFault::NoMemory),
                },
                Err(stop) => return Err(fault_of(stop)),
            }
        }
        Ok((groups.len() as u64, rows))
    }
}
