//! Queries over a file.

ghost use Rattle.query_tree.specs.Asked.{query_of};
ghost use Rattle.store_file.specs.Beginning.{IsUsable};
ghost use Rattle.store_file.specs.FileCalls.{Queries};

use crate::file_faults::{QueryFault, fault_of, write_fault};
use crate::file_groups::read_lines;
use crate::store_file::StoreFile;
use chunk_pruning::needs;
use outside::{Sink, write_all};
use query_tree::Query;
use shelf::Shelf;
use std::alloc::Global;

impl StoreFile {
    /// Writes the lines of a query, group by group, up to the first rule that a group violates.
    ///
    /// The chunks of all groups are read, each group's when its lines are wanted, but of the leaves alone that the query
    /// needs, and nothing else of a row is judged. A group's lines are written once all its rows are judged, so none of a
    /// group that violates a rule is. After a refused write or for want of memory the first bytes of the lines are written.
    pub fn query<S: Shelf, O: Sink>(
        &self,
        alloc: Global,
        shelf: &mut S,
        query: &Query,
        out: &mut O,
    ) -> Result<(), QueryFault>
        requires usable { IsUsable self.now }
        ensures { Queries self.now (query_of query.now) (S.seen shelf.old) (S.seen shelf.new) (O.seen out.old) (O.seen out.new) result }
    {
        let mask = match needs(alloc, query, &self.column.column) {
            Ok(mask) => mask,
            Err(_) => return Err(QueryFault::NoMemory),
        };
        let groups = &self.opened.meta.row_groups;
        for k in 0..groups.len() {
            match read_lines(alloc, shelf, self, &mask, k, groups.at(k), query) {
                Ok(lines) => match write_all(out, lines.as_slice()) {
                    Ok(()) => {}
                    Err(fault) => return Err(write_fault(fault)),
                },
                Err(stop) => return Err(fault_of(stop)),
            }
        }
        Ok(())
    }
}
