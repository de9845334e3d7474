//! Where rows end.

ghost use Rattle.std.specs.Prelude.{◌≡◌};
ghost use Rattle.std.specs.List.{list_all};
ghost use Rattle.column_assembly.specs.Items.{is_whole};

use crate::entry_cursor::Cursor;

/// Whether all entries of the next row are there in each of these leaves; `ended` says that no more entries come.
pub fn are_whole(cursors: &[Cursor], ended: bool) -> bool
    ensures { result ≡ list_all (is_whole ended) cursors.now }
{
    for cursor in cursors {
        if !cursor.is_whole(ended) {
            return false;
        }
    }
    true
}
