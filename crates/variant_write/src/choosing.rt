//! Some members of an object, written.

ghost use Rattle.std.specs.Prelude.{◌≡◌, ◌≤◌, ◌++◌, length, map, OnOk, OnErr};
ghost use Rattle.std.specs.List.{concat};
ghost use Rattle.json_tree.specs.Json.{object, names_of, fields_of};
ghost use Rattle.json_tree.specs.Text.{text_of, more_fields};
ghost use Rattle.json_tree.specs.View.{view, seen};
ghost use Rattle.vs_bytes.specs.Outcome.{Grows};
ghost use Rattle.variant_meta.specs.Written.{ends_from};
ghost use Rattle.variant_write.specs.Chosen.{chosen};
ghost use Rattle.variant_write.specs.Coded.{ids_of, coded, values_coded};
ghost use Rattle.variant_write.specs.Conditions.{IsWidths, HasNames, FieldsHaveNames, max_text_len};

use crate::composing::compose_object;
use crate::encoding::{ENDS_ROOM, SPARE_ROOM, append};
use crate::widths::Widths;
use json_tree::{Members, Tree};
use variant_meta::Dictionary;
use vs_bytes::{NoMemory, Text};

/// Appends the object of some members, those at whose places `kept` says so, in the form of `encode`. Nothing is copied
/// but what is written. After an `Err` the bytes are as before.
pub fn encode_members(
    into: &mut Vec<u8>,
    dict: &Dictionary,
    members: &Members,
    kept: &[bool],
    widths: Widths,
) -> Result<(), NoMemory>
    requires kept { length kept.now ≡ length (names_of members.now) }
    requires names { HasNames dict.now (object members.now) }
    requires small { length (text_of (object members.now)) ≤ max_text_len }
    requires widths { IsWidths widths }
    ensures ok { OnOk result (into.new.items ≡ into.old.items ++ coded dict.now (object (chosen kept.now members.now)) widths) }
    ensures err { OnErr result (into.new.items ≡ into.old.items) }
{
    let before = into.len();
    let done = append_chosen(into, dict, members.as_slice(), kept, widths);
    if done.is_err() {
        into.truncate(before);
    }
    done
}

fn append_chosen(
    into: &mut Vec<u8>,
    dict: &Dictionary,
    pairs: &[(Text, Tree)],
    kept: &[bool],
    widths: Widths,
) -> Result<(), NoMemory>
    requires kept { length kept.now ≡ length pairs.now }
    requires names { FieldsHaveNames dict.now (fields_of (map seen pairs.now)) }
    requires small { length (more_fields (fields_of (map seen pairs.now))) ≤ max_text_len }
    requires widths { IsWidths widths }
    ensures ok { OnOk result (into.new.items ≡ into.old.items ++ coded dict.now (object (chosen kept.now (fields_of (map seen pairs.now)))) widths) }
    ensures grows { Grows into.old.items into.new.items }
{
    let mut spare = Vec::with_capacity(*into.allocator(), SPARE_ROOM)?;
    let mut ends = Vec::with_capacity(*into.allocator(), ENDS_ROOM)?;
    append_chosen_values(&mut spare, into, &mut ends, dict, pairs, kept, widths)?;
    let middle = ends.len();
    append_chosen_ids(&mut ends, dict, pairs, kept)?;
    let (own, ids) = ends.as_slice().split_at(middle);
    compose_object(into, ids, own, spare.as_slice(), widths)
}

// Appends the values of the members that are kept, and where they end after the first one's start.
fn append_chosen_values(
    into: &mut Vec<u8>,
    spare: &mut Vec<u8>,
    ends: &mut Vec<u32>,
    dict: &Dictionary,
    pairs: &[(Text, Tree)],
    kept: &[bool],
    widths: Widths,
) -> Result<(), NoMemory>
    requires kept { length kept.now ≡ length pairs.now }
    requires names { FieldsHaveNames dict.now (fields_of (map seen pairs.now)) }
    requires small { length (more_fields (fields_of (map seen pairs.now))) ≤ max_text_len }
    requires widths { IsWidths widths }
    ensures ok { OnOk result (into.new.items ≡ into.old.items ++ concat (values_coded dict.now (chosen kept.now (fields_of (map seen pairs.now))) widths)) }
    ensures spare { OnOk result (spare.new.items ≡ spare.old.items) }
    ensures ends { OnOk result (ends.new.items ≡ ends.old.items ++ ends_from 0 (values_coded dict.now (chosen kept.now (fields_of (map seen pairs.now))) widths)) }
    ensures grows { Grows into.old.items into.new.items }
    ensures spare_grows { Grows spare.old.items spare.new.items }
{
    let start = into.len();
    for i in 0..pairs.len() {
        if kept[i] {
            append(into, spare, ends, dict, &pairs[i].1, widths)?;
            ends.push((into.len() - start) as u32)?;
        }
    }
    Ok(())
}

// Appends the ids of the members that are kept.
fn append_chosen_ids(
    into: &mut Vec<u32>,
    dict: &Dictionary,
    pairs: &[(Text, Tree)],
    kept: &[bool],
) -> Result<(), NoMemory>
    requires kept { length kept.now ≡ length pairs.now }
    requires names { FieldsHaveNames dict.now (fields_of (map seen pairs.now)) }
    ensures { OnOk result (into.new.items ≡ into.old.items ++ ids_of dict.now (chosen kept.now (fields_of (map seen pairs.now)))) }
{
    for i in 0..pairs.len() {
        if kept[i] {
            into.push(dict.id(pairs[i].0.as_str()).unwrap())?;
        }
    }
    Ok(())
}
