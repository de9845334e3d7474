//! A row group that closes: its chunks go to the file.

ghost use Rattle.std.specs.Prelude.{◌<◌, true, OnOk};
ghost use Rattle.shelf.specs.Storage.{Has};
ghost use Rattle.striping_laws.specs.Rows.{CanBeRow};
ghost use Rattle.open_group.specs.Filling.{texts_limit};
ghost use Rattle.open_group.specs.OpenGroups.{records_in, row_of, KeepsColumn};
ghost use Rattle.footer_structs.specs.FooterWriting.{footer_bytes};
ghost use Rattle.closed_groups.specs.ClosedGroups.{meta_of, ending_of};
ghost use Rattle.store_write.specs.Writers.{Closes, Pushes, EndsWith, Finishes};

use crate::write_error::First;
use closed_groups::{ClosedGroups, Unclosed};
use group_writing::WrittenGroup;
use json_tree::Tree;
use open_group::OpenGroup;
use shelf::{Shelf, ShelfError, append_all};
use vs_bytes::Text;

/// Closes the group that is open: its chunks are added to the file, and its struct is kept.
///
/// Nothing is added where the footer would be too long. After another refusal the first bytes of the chunks may stand in
/// the file.
pub fn close_group<S: Shelf>(
    shelf: &mut S,
    name: &Text,
    group: &mut OpenGroup,
    closed: &mut ClosedGroups,
) -> Result<(), First>
    requires there { Has (S.seen shelf.old).files name.now }
    ensures closes { Closes name.now group.old group.new closed.old closed.new (S.seen shelf.old) (S.seen shelf.new) (records_in group.old) result }
    ensures column { KeepsColumn group.old group.new }
{
    let rows = group.len() as u64;
    let written = match group.write(closed.place()) {
        Ok(written) => written,
        Err(_) => return Err(First::NoMemory),
    };
    let WrittenGroup {
        chunks,
        metas,
        size,
    } = written;
    match closed.close(metas, size, rows) {
        Ok(()) => {}
        Err(Unclosed::TooLong(len)) => return Err(First::FooterFull { length: len }),
        Err(Unclosed::NoMemory) => return Err(First::NoMemory),
    }
    group.clear();
    match append_all(shelf, name, chunks.as_slice()) {
        Ok(()) => Ok(()),
        Err(ShelfError::NoMemory) => Err(First::NoMemory),
        Err(_) => Err(First::Failed),
    }
}

/// Adds a row to the group that is open, and closes the group if the row fills it.
pub fn add_row<S: Shelf>(
    shelf: &mut S,
    name: &Text,
    group: &mut OpenGroup,
    closed: &mut ClosedGroups,
    row: Option<&Tree>,
) -> Result<(), First>
    requires there { Has (S.seen shelf.old).files name.now }
    requires room { group.old.texts < texts_limit }
    requires row { CanBeRow true (row_of row) }
    ensures pushes { Pushes name.now group.old group.new closed.old closed.new (S.seen shelf.old) (S.seen shelf.new) (row_of row.entry) result }
    ensures column { KeepsColumn group.old group.new }
    ensures room { OnOk result (group.new.texts < texts_limit) }
{
    match group.add(row) {
        Ok(()) => {}
        Err(_) => return Err(First::NoMemory),
    }
    if !group.is_full() {
        return Ok(());
    }
    close_group(shelf, name, group, closed)
}

// Adds the footer to the file, with its length and the magic number.
fn put_ending<S: Shelf>(shelf: &mut S, name: &Text, closed: &ClosedGroups) -> Result<(), First>
    requires there { Has (S.seen shelf.old).files name.now }
    ensures { EndsWith name.now (ending_of (footer_bytes (meta_of closed.now))) (S.seen shelf.old) (S.seen shelf.new) result }
{
    let ending = match closed.ending() {
        Ok(ending) => ending,
        Err(_) => return Err(First::NoMemory),
    };
    match shelf.append(name, ending.as_slice()) {
        Ok(()) => Ok(()),
        Err(ShelfError::NoMemory) => Err(First::NoMemory),
        Err(_) => Err(First::Failed),
    }
}

/// Ends a file: the rows that are left close as a group, and the footer follows.
pub fn end_file<S: Shelf>(
    shelf: &mut S,
    name: &Text,
    group: &mut OpenGroup,
    closed: &mut ClosedGroups,
) -> Result<(), First>
    requires there { Has (S.seen shelf.old).files name.now }
    ensures { Finishes name.now group.old closed.old (records_in group.old) (S.seen shelf.old) (S.seen shelf.new) result }
{
    if group.len() == 0 {
        return put_ending(shelf, name, closed);
    }
    match close_group(shelf, name, group, closed) {
        Ok(()) => {}
        Err(first) => return Err(first),
    }
    put_ending(shelf, name, closed)
}
