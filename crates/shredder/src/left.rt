//! What stands in `value`.

ghost use Rattle.std.specs.Prelude.{◌≡◌, ◌≤◌, [], length, IfOk, OnOk};
ghost use Rattle.std.specs.List.{list_any};
ghost use Rattle.json_tree.specs.Json.{object, names_of};
ghost use Rattle.json_tree.specs.Text.{text_of};
ghost use Rattle.json_tree.specs.View.{view};
ghost use Rattle.variant_write.specs.Chosen.{chosen};
ghost use Rattle.variant_write.specs.Conditions.{IsWidths, HasNames, max_text_len};
ghost use Rattle.shred_schema.specs.Views.{rec_of};
ghost use Rattle.shredder.specs.Shredded.{by_names, members_left, whole_left};

use json_tree::{Members, Tree};
use shred_schema::Record;
use std::alloc::Global;
use variant_meta::Dictionary;
use variant_write::{Widths, encode, encode_members};
use vs_bytes::{Bytes, NoMemory};

// How much room is taken at first: enough for most values, so that the buffer need not grow.
const ROOM: usize = 256;

// Takes the room when the first value is written, since most records have no value that stands in `value`.
fn make_room(scratch: &mut Vec<u8>) -> Result<(), NoMemory>
    ensures { OnOk result (scratch.new.items ≡ []) }
{
    scratch.clear();
    scratch.reserve(ROOM)?;
    Ok(())
}

/// A value that stands in `value`, whole. It is written to `scratch` first, in place of what is there.
pub(crate) fn whole_left(
    alloc: Global,
    scratch: &mut Vec<u8>,
    tree: &Tree,
    dict: &Dictionary,
    widths: Widths,
) -> Result<Record, NoMemory>
    requires names { HasNames dict.now (view tree.now) }
    requires small { length (text_of (view tree.now)) ≤ max_text_len }
    requires widths { IsWidths widths }
    ensures { IfOk result (λ made. rec_of made ≡ whole_left (by_names dict.now widths) (view tree.now)) }
{
    make_room(scratch)?;
    encode(scratch, dict, tree, widths)?;
    Ok(Record {
        value: Some(Bytes::from_slice(alloc, scratch.as_slice())?),
        typed: None,
    })
}

// Whether some member is kept.
fn is_any_kept(kept: &[bool]) -> bool
    ensures { result ≡ list_any (λ keep. keep) kept.now }
{
    for keep in kept {
        if *keep {
            return true;
        }
    }
    false
}

/// The members that are kept, as an object, if there are any. It is written to `scratch` first, in place of what is
/// there.
#[tactic(auto, using(crate::proofs::Kept::kept_some, crate::proofs::Kept::kept_none))]
pub(crate) fn members_left(
    alloc: Global,
    scratch: &mut Vec<u8>,
    members: &Members,
    kept: &[bool],
    dict: &Dictionary,
    widths: Widths,
) -> Result<Option<Bytes>, NoMemory>
    requires each { length kept.now ≡ length (names_of members.now) }
    requires names { HasNames dict.now (object members.now) }
    requires small { length (text_of (object members.now)) ≤ max_text_len }
    requires widths { IsWidths widths }
    ensures { IfOk result (λ left. left ≡ members_left (by_names dict.now widths) (chosen kept.now members.now)) }
{
    if !is_any_kept(kept) {
        return Ok(None);
    }
    make_room(scratch)?;
    encode_members(scratch, dict, members, kept, widths)?;
    Ok(Some(Bytes::from_slice(alloc, scratch.as_slice())?))
}
