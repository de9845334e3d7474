//! Entries put into leaves.

ghost use Rattle.std.specs.Prelude.{◌≡◌, ◌==◌, ◌+◌, ◌-◌, ◌<◌, ◌≤◌, [], ◌∷◌, length, OnOk};
ghost use Rattle.level_striping.specs.Entries.{in_leaf, null_at, cell_at};
ghost use Rattle.level_striping.specs.Gains.{Gains};
ghost use Rattle.shred_schema.specs.Ranges.{is_among};

use crate::levels::Levels;
use vs_bytes::{Cell, Entry, EntryList, NoMemory};

// Puts one entry into a leaf.
#[inline(always)]
fn put(leaves: &mut [EntryList], leaf: usize, entry: Entry) -> Result<(), NoMemory>
    requires { leaf < length leaves.old }
    ensures { OnOk result (Gains leaves.old leaves.new (λ j. in_leaf (j == leaf) (entry ∷ []))) }
{
    let list = &mut leaves[leaf];
    list.push(entry)
}

/// Puts a value into a leaf, at the definition level of `levels`.
#[inline(always)]
pub(crate) fn put_cell(
    leaves: &mut [EntryList],
    leaf: usize,
    levels: Levels,
    cell: Cell,
) -> Result<(), NoMemory>
    requires { leaf < length leaves.old }
    ensures { OnOk result (Gains leaves.old leaves.new (λ j. in_leaf (j == leaf) (cell_at levels.rep levels.def cell))) }
{
    put(
        leaves,
        leaf,
        Entry {
            rep: levels.rep,
            def: levels.def,
            value: Some(cell),
        },
    )
}

/// Puts an entry without value into a leaf.
pub(crate) fn put_null(
    leaves: &mut [EntryList],
    leaf: usize,
    levels: Levels,
) -> Result<(), NoMemory>
    requires { leaf < length leaves.old }
    ensures { OnOk result (Gains leaves.old leaves.new (λ j. in_leaf (j == leaf) (null_at levels.rep levels.def))) }
{
    put(
        leaves,
        leaf,
        Entry {
            rep: levels.rep,
            def: levels.def,
            value: None,
        },
    )
}

/// Puts an entry without value into each leaf from `from` on in front of `to`.
pub(crate) fn put_nulls(
    leaves: &mut [EntryList],
    from: usize,
    to: usize,
    levels: Levels,
) -> Result<(), NoMemory>
    requires order { from ≤ to }
    requires inside { to ≤ length leaves.old }
    ensures { OnOk result (Gains leaves.old leaves.new (λ j. in_leaf (is_among j from (to - from)) (null_at levels.rep levels.def))) }
{
    for leaf in from..to {
        put_null(leaves, leaf, levels)?;
    }
    Ok(())
}
