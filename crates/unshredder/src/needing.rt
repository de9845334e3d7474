//! Whether a row has a value that is read.

ghost use Rattle.std.specs.Prelude.{◌≡◌, ℕ, Bool, map};
ghost use Rattle.std.specs.Option.{option_map};
ghost use Rattle.shred_schema.specs.Groups.{kind_width, groups_from};
ghost use Rattle.shred_schema.specs.Ranges.{is_any_read};
ghost use Rattle.shred_schema.specs.Recs.{recs_from, EachRec};
ghost use Rattle.shred_schema.specs.Shapes.{HasShape, PartHasShape, FieldsHaveShape};
ghost use Rattle.shred_schema.specs.Views.{group_of, kind_of, rec_of, part_of, part_or_empty, named};
ghost use Rattle.unshredder.specs.Readings.{IsReading, AreInside, AreReadings, UnderSome};
ghost use Rattle.unshredder.specs.Rows.{has_value, part_has_value, fields_have_value, any_rec};

use crate::readings::Reading;
use shred_schema::{Node, Part, Record, Typed};
use vs_bytes::Text;

/// Whether some value that is read is there, under each mask of which the reading is one. Where no value is read, it isn't
/// looked for.
#[cycle(needing)]
#[tactic(auto, using(crate::proofs::NoValueRead::no_value))]
pub(crate) fn has_value(reading: &Reading, node: &Node, rec: &Record) -> bool
    requires shape { HasShape (group_of node.now) (rec_of rec.now) }
    requires reading { UnderSome (λ mask leaf. IsReading mask (group_of node.now) leaf reading.now) }
    ensures { (mask : ℕ → Bool) (leaf : ℕ) → IsReading mask (group_of node.now) leaf reading.now → result ≡ has_value mask (group_of node.now) leaf (rec_of rec.now) }
{
    if !reading.values {
        return false;
    }
    if reading.value && rec.value.is_some() {
        return true;
    }
    part_has_value(
        reading.typed,
        reading.inside.as_slice(),
        &node.typed,
        &rec.typed,
    )
}

// The same of a typed part. `read` says whether some leaf of it is read.
#[cycle(needing)]
#[tactic(auto, using(crate::proofs::Unread::unread_part))]
fn part_has_value(read: bool, inside: &[Reading], typed: &Typed, part: &Option<Part>) -> bool
    requires shape { PartHasShape (kind_of typed.now) (part_or_empty (option_map part_of part.now)) }
    requires readings { UnderSome (λ mask leaf. AreInside mask (kind_of typed.now) leaf inside.now) }
    ensures { (mask : ℕ → Bool) (leaf : ℕ) → read ≡ is_any_read mask leaf (kind_width (kind_of typed.now)) → AreInside mask (kind_of typed.now) leaf inside.now → result ≡ part_has_value mask (kind_of typed.now) leaf (part_or_empty (option_map part_of part.now)) }
{
    if !read {
        return false;
    }
    match typed {
        Typed::Fields(fields) => match part {
            Some(part) => match part {
                Part::Fields(records) => {
                    fields_have_value(inside, fields.as_slice(), records.as_slice())
                }
                _ => false,
            },
            None => false,
        },
        Typed::Items(node) => match part {
            Some(part) => match part {
                Part::Items(records) => any_has_value(&inside[0], node.get(), records.as_slice()),
                _ => false,
            },
            None => false,
        },
        _ => false,
    }
}

// The same of the fields of an object. Only those are looked at of which some leaf is read.
#[cycle(needing)]
fn fields_have_value(readings: &[Reading], fields: &[(Text, Node)], records: &[Record]) -> bool
    requires shape { FieldsHaveShape (groups_from (map named fields.now)) (recs_from (map rec_of records.now)) }
    requires readings { UnderSome (λ mask leaf. AreReadings mask (groups_from (map named fields.now)) 0 leaf readings.now) }
    ensures { (mask : ℕ → Bool) (leaf : ℕ) → AreReadings mask (groups_from (map named fields.now)) 0 leaf readings.now → result ≡ fields_have_value mask (groups_from (map named fields.now)) leaf (recs_from (map rec_of records.now)) }
{
    for reading in readings {
        let k = reading.place;
        if has_value(reading, &fields[k].1, &records[k]) {
            return true;
        }
    }
    false
}

// The same of the elements of a list.
#[cycle(needing)]
fn any_has_value(reading: &Reading, node: &Node, records: &[Record]) -> bool
    requires shape { EachRec (HasShape (group_of node.now)) (recs_from (map rec_of records.now)) }
    requires reading { UnderSome (λ mask leaf. IsReading mask (group_of node.now) leaf reading.now) }
    ensures { (mask : ℕ → Bool) (leaf : ℕ) → IsReading mask (group_of node.now) leaf reading.now → result ≡ any_rec (has_value mask (group_of node.now) leaf) (recs_from (map rec_of records.now)) }
{
    for rec in records {
        if has_value(reading, node, rec) {
            return true;
        }
    }
    false
}
