//! The rows of a row group in its file.

ghost use Rattle.std.specs.Prelude.{◌≡◌};
ghost use Rattle.store_read.specs.GroupRead.{CanRead, ReadsGroup};

use crate::group_chunks::{read_leaves, rows_in};
use crate::read_stop::ReadStop;
use file_columns::FileColumn;
use footer_structs::GroupMeta;
use group_reading::{GroupFault, GroupRows};
use shelf::Shelf;
use shred_schema::Mask;
use std::alloc::Global;
use vs_bytes::Text;

/// The rows of a row group, in a file whose footer begins at `end`; or the first rule that a chunk of the group
/// violates.
///
/// `mask` says of each leaf of the column whether it is read. The chunks of these leaves are read one after the other,
/// each as a whole, and nothing else of the file.
#[tactic(auto, using(crate::proofs::GroupSeen::rows_begin, crate::proofs::GroupSeen::rows_lost, crate::proofs::GroupSeen::leaves_stop, crate::proofs::GroupSeen::rows_there))]
pub fn read_group<S: Shelf>(
    alloc: Global,
    shelf: &mut S,
    name: &Text,
    end: u64,
    column: &FileColumn,
    group: &GroupMeta,
    mask: &Mask,
) -> Result<GroupRows, ReadStop<GroupFault>>
    requires { CanRead column.now mask.now }
    ensures { ReadsGroup (S.seen shelf.old) (S.seen shelf.new) name.now mask.now end column.now group.now result }
{
    match read_leaves(alloc, shelf, name, end, column, group, mask) {
        Ok(leaves) => {
            match GroupRows::new(alloc, &column.column, mask, rows_in(group), leaves) {
                Ok(rows) => Ok(rows),
                Err(_) => Err(ReadStop::NoMemory),
            }
        }
        Err(stop) => Err(stop),
    }
}
