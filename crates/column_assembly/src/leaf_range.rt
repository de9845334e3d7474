//! Parts that are absent: one entry without value in each of their leaves.

ghost use Rattle.std.specs.Prelude.{◌≡◌, ◌-◌, ◌<◌, ◌≤◌, true, false, length};
ghost use Rattle.shred_schema.specs.Ranges.{every};
ghost use Rattle.record_assembly.specs.Reading.{is_null, are_null};
ghost use Rattle.column_assembly.specs.Leaves.{heads, TakenAt, Passed};

use crate::entry_cursor::Cursor;

/// Takes the first item of a leaf where it is one entry without value, which has these levels, and says whether it was.
pub(crate) fn take_null(cursors: &mut [Cursor], leaf: usize, lists: u16, rep: u16, def: u16) -> bool
    requires { leaf < length cursors.old }
    ensures was { result ≡ is_null rep def (heads lists cursors.old leaf) }
    ensures taken { result ≡ true → TakenAt cursors.old cursors.new leaf lists }
    ensures kept { result ≡ false → cursors.new ≡ cursors.old }
{
    let cursor = &mut cursors[leaf];
    cursor.take_null(lists, rep, def)
}

/// Takes the first items of the leaves from `from` on in front of `to`, where each is one entry without value, which
/// has these levels, and says whether each was. Where one wasn't, how far they are taken is open.
pub fn take_nulls(
    cursors: &mut [Cursor],
    from: usize,
    to: usize,
    lists: u16,
    rep: u16,
    def: u16,
) -> bool
    requires order { from ≤ to }
    requires inside { to ≤ length cursors.old }
    ensures were { result ≡ are_null every from (to - from) rep def (heads lists cursors.old) }
    ensures passed { result ≡ true → Passed cursors.old cursors.new from (to - from) lists }
{
    for leaf in from..to {
        if !take_null(cursors, leaf, lists, rep, def) {
            return false;
        }
    }
    true
}
