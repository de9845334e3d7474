//! The first item of some entries: an entry, and those after it whose repetition level is above that of the list.

ghost use Rattle.std.specs.Prelude.{◌≡◌, not, is_some};
ghost use Rattle.record_assembly.specs.Cuts.{first_item, until, later_items, beyond, is_nil};
ghost use Rattle.record_assembly.specs.Reading.{is_null, has_levels};
ghost use Rattle.column_assembly.specs.Items.{is_one, cell_of, first_value, number_in};

use crate::cell_kind::{number_suits, suits};
use vs_bytes::{Cell, Entry, Prim};

/// Whether the first item is one entry, which has these levels.
pub(crate) fn is_one(entries: &[Entry], lists: u16, rep: u16, def: u16) -> bool
    ensures { result ≡ is_one rep def (first_item lists entries.now) }
{
    match entries {
        [] => false,
        [only] => has_levels(only, rep, def),
        [first, next, ..] => next.rep <= lists && has_levels(first, rep, def),
    }
}

/// Whether the first item is one entry without value, which has these levels.
pub(crate) fn is_null(entries: &[Entry], lists: u16, rep: u16, def: u16) -> bool
    ensures { result ≡ is_null rep def (first_item lists entries.now) }
{
    match entries {
        [] => false,
        [only] => has_levels(only, rep, def) && only.value.is_none(),
        [first, next, ..] => {
            next.rep <= lists && has_levels(first, rep, def) && first.value.is_none()
        }
    }
}

/// Whether the first of these entries has a value of the kind.
pub(crate) fn has_suited(entries: &[Entry], prim: Prim) -> bool
    ensures { result ≡ is_some (cell_of prim (first_value entries.now)) }
{
    match entries.first() {
        None => false,
        Some(entry) => match &entry.value {
            None => false,
            Some(cell) => suits(prim, cell),
        },
    }
}

/// The number that the first of these entries has for its value, where it is one of the kind.
#[inline(always)]
pub(crate) fn first_number(entries: &[Entry], prim: Prim) -> Option<i128>
    ensures { result ≡ number_in (cell_of prim (first_value entries.now)) }
{
    match entries.first() {
        None => None,
        Some(entry) => match &entry.value {
            Some(Cell::Num(number)) => {
                if number_suits(prim, *number) {
                    Some(*number)
                } else {
                    None
                }
            }
            _ => None,
        },
    }
}

/// Whether an entry has these levels.
fn has_levels(entry: &Entry, rep: u16, def: u16) -> bool
    ensures { result ≡ has_levels rep def entry.now }
{
    entry.rep == rep && entry.def == def
}

/// Whether the first of these entries, if there is one, goes on an item of a list at level `lists`.
pub(crate) fn goes_on(entries: &[Entry], lists: u16) -> bool
    ensures { result ≡ not (is_nil (until lists entries.now)) }
{
    match entries.first() {
        None => false,
        Some(entry) => entry.rep > lists,
    }
}

/// Whether another item comes after the first one.
pub(crate) fn has_later(entries: &[Entry], lists: u16) -> bool
    ensures { result ≡ not (is_nil (later_items lists entries.now)) }
{
    match entries {
        [] => false,
        [_, rest @ ..] => begins_later(rest, lists),
    }
}

/// Whether some entry begins an item.
fn begins_later(entries: &[Entry], lists: u16) -> bool
    ensures { result ≡ not (is_nil (beyond lists entries.now)) }
{
    for entry in entries {
        if entry.rep <= lists {
            return true;
        }
    }
    false
}
