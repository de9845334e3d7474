//! The rows of a file, row group by row group.

ghost use Rattle.std.specs.Prelude.{◌<◌, length};
ghost use Rattle.store_file.specs.Beginning.{IsUsable};
ghost use Rattle.store_file.specs.FileCalls.{groups_in, ReadsRows};

use crate::file_faults::{QueryFault, fault_of};
use crate::file_groups::read_trees;
use crate::store_file::StoreFile;
use group_lines::RowTrees;
use shelf::Shelf;
use std::alloc::Global;

impl StoreFile {
    /// The rows of a row group, counted from 0: `None` for an absent one. Or the first rule that the group violates.
    ///
    /// The chunks of this group are read, and nothing else of the file.
    #[tactic(auto, using(crate::proofs::GroupsRead::rows_read))]
    pub fn rows<S: Shelf>(
        &self,
        alloc: Global,
        shelf: &mut S,
        group: usize,
    ) -> Result<RowTrees, QueryFault>
        requires usable { IsUsable self.now }
        requires inside { group < length (groups_in self.now) }
        ensures { ReadsRows self.now (S.seen shelf.old) (S.seen shelf.new) group result }
    {
        let groups = &self.opened.meta.row_groups;
        match read_trees(alloc, shelf, self, group, groups.at(group)) {
            Ok(trees) => Ok(trees),
            Err(stop) => Err(fault_of(stop)),
        }
    }
}
