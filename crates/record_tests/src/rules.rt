//! Records of the column of the schema `{a:int64,l:[int8]}` that violate rules, and what is read under masks.
//!
//! The column has seven leaves: the metadata, the value, the value and the typed part of `a`, the value of `l`, and the
//! value and the typed part of an element.

ghost use Rattle.std.specs.Prelude.{◌≡◌, true, IfOk};
ghost use Rattle.shred_schema.specs.Lawful.{IsWellFormed};
ghost use Rattle.shred_schema.specs.Shapes.{HasShape, RowHasShape};
ghost use Rattle.shred_schema.specs.Views.{group_of, rec_of, row_rec_of};
ghost use Rattle.record_tests.specs.Columns.{number, element, numbers, top};

use crate::records::tree_text;
use shred_schema::{
    Column, FieldList, Mask, Node, Part, Record, RecordList, RowRecord, Slot, Typed,
};
use sqlite_items::Boxed;
use std::alloc::Global;
use std::process::Abort;
use std::test::Fail;
use test_rows::{Shown, Wrong, bytes_of, check_rows, split_row};
use unshredder::unshred;
use vs_bytes::{Bytes, Cell, NoMemory, Prim, Text};

fn column(alloc: Global) -> Result<Column, NoMemory>
    ensures { IfOk result (λ column. group_of column.node ≡ top) }
{
    let element = Node {
        value: Slot::Optional,
        typed: Typed::Prim(Prim::Int8),
    };
    let numbers = Node {
        value: Slot::Optional,
        typed: Typed::Items(Boxed::new(alloc, element)?),
    };
    let number = Node {
        value: Slot::Optional,
        typed: Typed::Prim(Prim::Int64),
    };
    let mut fields = FieldList::new(alloc);
    fields.push(Text::from_str(alloc, "a")?, number)?;
    fields.push(Text::from_str(alloc, "l")?, numbers)?;
    Ok(Column {
        optional: true,
        node: Node {
            value: Slot::Optional,
            typed: Typed::Fields(fields),
        },
    })
}

// The bytes of a value, or `-` for none.
fn value(alloc: Global, word: &str) -> Result<Option<Bytes>, NoMemory> {
    if word == "-" {
        return Ok(None);
    }
    Ok(Some(Bytes::from_vec(bytes_of(alloc, word)?)?))
}

// The words of a row, one after the other.
#[derive(Drop)]
struct Words<'a> {
    rest: &'a str,
}

impl<'a> Words<'a> {
    // The next word: up to a space.
    fn next(&mut self) -> &'a str {
        let (word, rest) = self.rest.split_once(' ').unwrap_or((self.rest, ""));
        self.rest = rest;
        word
    }
}

// The field `a`, whose number is 1.
#[tactic(auto, unfolding(exact_num::specs::Unscaled::half))]
fn a_record(alloc: Global, words: &mut Words) -> Result<Record, NoMemory>
    ensures { IfOk result (λ made. HasShape number (rec_of made)) }
{
    let value = value(alloc, words.next())?;
    if words.next() == "+" {
        return Ok(Record {
            value,
            typed: Some(Part::Cell(Cell::Num(1))),
        });
    }
    Ok(Record { value, typed: None })
}

// An element, whose number is 2.
#[tactic(auto, unfolding(exact_num::specs::Unscaled::half))]
fn element_record(alloc: Global, words: &mut Words) -> Result<Record, NoMemory>
    ensures { IfOk result (λ made. HasShape element (rec_of made)) }
{
    let value = value(alloc, words.next())?;
    if words.next() == "+" {
        return Ok(Record {
            value,
            typed: Some(Part::Cell(Cell::Num(2))),
        });
    }
    Ok(Record { value, typed: None })
}

// The field `l`: with no typed part (`-`), an empty list (`0`) or one element (`1`), which follows.
fn l_record(alloc: Global, words: &mut Words) -> Result<Record, NoMemory>
    ensures { IfOk result (λ made. HasShape numbers (rec_of made)) }
{
    let value = value(alloc, words.next())?;
    let mut elements = Vec::new(alloc);
    let typed = match words.next() {
        "0" => Some(Part::Items(RecordList::from_vec(elements))),
        "1" => {
            elements.push(element_record(alloc, words)?)?;
            Some(Part::Items(RecordList::from_vec(elements)))
        }
        _ => None,
    };
    Ok(Record { value, typed })
}

// The top: with no typed part (`-`), or with its fields, which follow (`+`).
fn top_record(alloc: Global, words: &mut Words) -> Result<Record, NoMemory>
    ensures { IfOk result (λ made. HasShape top (rec_of made)) }
{
    let value = value(alloc, words.next())?;
    if words.next() != "+" {
        return Ok(Record { value, typed: None });
    }
    let mut fields = Vec::new(alloc);
    fields.push(a_record(alloc, words)?)?;
    fields.push(l_record(alloc, words)?)?;
    Ok(Record {
        value,
        typed: Some(Part::Fields(RecordList::from_vec(fields))),
    })
}

fn row(alloc: Global, text: &str) -> Result<RowRecord, NoMemory>
    ensures { IfOk result (λ row. RowHasShape top (row_rec_of row)) }
{
    let mut words = Words { rest: text };
    let meta = Bytes::from_vec(bytes_of(alloc, words.next())?)?;
    let rec = top_record(alloc, &mut words)?;
    Ok(RowRecord::Present { meta, rec })
}

// Which leaves are read, each 0 or 1.
fn mask(alloc: Global, digits: &str) -> Result<Mask, NoMemory> {
    let mut mask = Mask::new(alloc);
    for digit in digits.as_bytes() {
        mask.push(*digit == b'1')?;
    }
    Ok(mask)
}

// A row, and a mask: the text of what is read, or the rule that it violates.
struct Rows;

impl Shown for Rows {
    fn shown(alloc: Global, given: &str) -> Result<String, Wrong> {
        let (text, digits) = split_row(alloc, given)?;
        let column = column(alloc)?;
        let row = row(alloc, text)?;
        let mask = mask(alloc, digits)?;
        tree_text(alloc, unshred(alloc, &column, &row, &mask))
    }
}

// The value, the typed part and both, of each node.
#[test]
fn parts_mean_a_value_or_break_a_rule(rt: HostRuntime) -> Result<(), Fail> {
    let table = r#"110000 - - | 1111111 | null
110000 0c05 - | 1111111 | 5
110000 020000 - | 1111111 | ObjectWithoutTyped
1101000161 02010000020c02 - | 1111111 | ObjectWithoutTyped
110000 - + - - - - | 1111111 | {}
110000 - + - + - - | 1111111 | {"a":1}
110000 - + 00 - - - | 1111111 | {"a":null}
110000 - + 0c05 + - - | 1111111 | BothPresent
110000 - + - - 00 - | 1111111 | {"l":null}
110000 - + - - - 0 | 1111111 | {"l":[]}
110000 - + - - - 1 - + | 1111111 | {"l":[2]}
110000 - + - - - 1 0578 - | 1111111 | {"l":["x"]}
110000 - + - - - 1 - - | 1111111 | ElementMissing
110000 - + - - - 1 0c05 + | 1111111 | BothPresent
110000 - + - - 0c05 0 | 1111111 | BothPresent
110000 0c05 + - + - - | 1111111 | PartialNotObject
1101000161 02010000020c02 + - + - - | 1111111 | FieldInBoth
1101000161 02010000020c02 + - - - - | 1111111 | FieldInBoth"#;
    check_rows::<Rows>(rt.alloc(), table)?;
    Ok(())
}

// The names of the value come before, between and after those of the fields.
#[test]
fn a_partial_object_has_the_members_of_both_parts(rt: HostRuntime) -> Result<(), Fail> {
    let table = r#"1102000102617a 02010100020c02 + - + - - | 1111111 | {"a":1,"z":2}
11030001020341627a 0203000102000204060c010c020c03 + - + - 0 | 1111111 | {"A":1,"a":1,"b":2,"l":[],"z":3}
110000 020000 + - + - - | 1111111 | {"a":1}"#;
    check_rows::<Rows>(rt.alloc(), table)?;
    Ok(())
}

// The metadata's rules, then node by node the value's, those of both parts, and those of the fields or items in order.
#[test]
fn the_first_rule_of_several_is_answered(rt: HostRuntime) -> Result<(), Fail> {
    let table = r#"11 0c - | 1111111 | MetaShort
110000 0c + 0c05 + - - | 1111111 | ValueShort
110000 0c05 + 0c05 + - - | 1111111 | PartialNotObject
1101000161 02010000020c02 + 0c05 + - - | 1111111 | FieldInBoth
110000 - + 0c + 0c05 0 | 1111111 | ValueShort
110000 - + 0c05 + - 1 - - | 1111111 | BothPresent
110000 - + - + - 1 - - | 1111111 | ElementMissing
110000 - + - - 0c05 1 - - | 1111111 | BothPresent
110000 - + - - 0c 1 - - | 1111111 | ValueShort
110000 - + - - - 1 0c + | 1111111 | ValueShort"#;
    check_rows::<Rows>(rt.alloc(), table)?;
    Ok(())
}

// What isn't read counts as missing, and breaks no rule.
#[test]
fn a_mask_passes_over_what_is_not_read(rt: HostRuntime) -> Result<(), Fail> {
    let table = r#"1101000161 02010000020c02 + - + - - | 0001000 | {"a":1}
110000 - + 0c05 + - - | 0001000 | {"a":1}
110000 - + 0c05 + - - | 1010000 | {"a":5}
1102000102617a 02010100020c02 + - + - - | 1100000 | {"z":2}
1101000161 02010000020c02 - | 1100000 | {"a":2}
110000 - + - - - 1 - - | 0000001 | {"l":[null]}
110000 - + - - - 1 0578 - | 0000001 | {"l":[null]}
110000 - + - - 0c05 1 - + | 0000001 | {"l":[2]}
110000 - + - + - 0 | 0000001 | {"l":[]}
110000 - + - + - 0 | 0000000 | null
11 0c05 + - + - - | 0001000 | {"a":1}
11 0c05 - | 1000000 | null
11 0c05 - | 1100000 | MetaShort"#;
    check_rows::<Rows>(rt.alloc(), table)?;
    Ok(())
}

#[test]
fn an_absent_row_is_none(rt: HostRuntime) -> Result<(), Fail> {
    let column = column(rt.alloc())?;
    let mask = mask(rt.alloc(), "1111111")?;
    let found = unshred(rt.alloc(), &column, &RowRecord::Absent, &mask);
    assert_eq!(&rt; tree_text(rt.alloc(), found)?.as_str(), "absent");
    Ok(())
}
