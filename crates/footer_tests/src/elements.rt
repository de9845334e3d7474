//! Schema elements and logical types, read.

use schema_elements::{ElementDraft, Logical, SchemaElement};
use std::alloc::{AllocError, Global};
use std::test::Fail;
use test_rows::{Shown, Wrong, bytes_of, check_rows, text_or_rule};
use thrift_structs::read_struct;
use vs_bytes::Refusal;

fn number_text(alloc: Global, number: Option<i32>) -> Result<String, AllocError> {
    match number {
        Some(number) => format!(in alloc; "{number}"),
        None => "-".to_string(alloc),
    }
}

fn logical_text(alloc: Global, logical: &Option<Logical>) -> Result<String, AllocError> {
    match logical {
        Some(logical) => {
            let first = number_text(alloc, logical.first)?;
            let second = number_text(alloc, logical.second)?;
            format!(in alloc; "{}:{first}:{second}", logical.member)
        }
        None => "-".to_string(alloc),
    }
}

// The numbers of an element.
fn numbers_text(alloc: Global, element: &SchemaElement) -> Result<String, AllocError> {
    let kind = number_text(alloc, element.kind)?;
    let len = number_text(alloc, element.type_length)?;
    let repetition = number_text(alloc, element.repetition_type)?;
    let children = number_text(alloc, element.num_children)?;
    format!(in alloc; "{kind} {len} {repetition} {children}")
}

// The annotations of an element.
fn notes_text(alloc: Global, element: &SchemaElement) -> Result<String, AllocError> {
    let converted = number_text(alloc, element.converted_type)?;
    let scale = number_text(alloc, element.scale)?;
    let precision = number_text(alloc, element.precision)?;
    let logical = logical_text(alloc, &element.logical_type)?;
    format!(in alloc; "{converted} {scale} {precision} {logical}")
}

/// An element: its name, type, length, repetition and children; its converted type, scale, precision and logical type.
pub fn element_text(alloc: Global, element: &SchemaElement) -> Result<String, AllocError> {
    let numbers = numbers_text(alloc, element)?;
    let notes = notes_text(alloc, element)?;
    format!(in alloc; "{} {numbers} {notes}", element.name.as_str())
}

fn found(alloc: Global, bytes: &[u8]) -> Result<String, Refusal> {
    let (element, _rest) = read_struct::<ElementDraft>(alloc, bytes)?;
    match element {
        Some(element) => Ok(element_text(alloc, &element)?),
        None => Ok("none".to_string(alloc)?),
    }
}

// A row gives the bytes of a SchemaElement.
struct Elements;

impl Shown for Elements {
    fn shown(alloc: Global, given: &str) -> Result<String, Wrong> {
        let bytes = bytes_of(alloc, given)?;
        text_or_rule(alloc, found(alloc, &bytes))
    }
}

// All fields; a name alone; a length below 0; fields that are passed over: field 9, an i64, and field 11, a binary.
const FIELDS: &str =
    "15 02 15 04 15 00 18 01 61 15 00 15 0c 15 02 15 04 2c 1c 00 00 00 | a 1 2 0 0 6 1 2 1:-:-
48 01 61 00 | a - - - - - - - -
25 01 28 01 61 00 | a - -1 - - - - - -
48 01 61 56 02 28 01 ff 00 | a - - - - - - - -";

#[test]
fn fields_of_an_element(rt: HostRuntime) -> Result<(), Fail> {
    check_rows::<Elements>(rt.alloc(), FIELDS)?;
    Ok(())
}

// A name that is missing, isn't UTF-8 or stands twice; children below 0; a type that is an i64; bytes that end.
const FAULTS: &str = "15 02 00 | none
48 01 ff 00 | none
48 01 61 08 08 01 61 00 | none
48 01 61 15 01 00 | none
16 02 38 01 61 00 | none
48 01 61 | Thrift
48 02 61 | Thrift";

#[test]
fn elements_that_are_none(rt: HostRuntime) -> Result<(), Fail> {
    check_rows::<Elements>(rt.alloc(), FAULTS)?;
    Ok(())
}

// STRING; DECIMAL with scale 2 and precision 9; TIME in MICROS; TIMESTAMP in a unit that isn't known; INTEGER of 8 bits
// with a sign, of -1 bits; VARIANT of version 1, in the long form of a header. Then STRING before DECIMAL and after it,
// and a member that isn't known.
const MEMBERS: &str = "48 01 61 6c 1c 00 00 00 | a - - - - - - - 1:-:-
48 01 61 6c 5c 15 04 15 12 00 00 00 | a - - - - - - - 5:2:9
48 01 61 6c 7c 11 1c 2c 00 00 00 00 00 | a - - - - - - - 7:1:2
48 01 61 6c 8c 12 1c 4c 00 00 00 00 00 | a - - - - - - - 8:0:-
48 01 61 6c ac 13 08 11 00 00 00 | a - - - - - - - 10:8:1
48 01 61 6c ac 13 ff 12 00 00 00 | a - - - - - - - 10:-1:0
48 01 61 6c 0c 20 13 01 00 00 00 | a - - - - - - - 16:1:-
48 01 61 6c 1c 00 4c 15 04 15 12 00 00 00 | a - - - - - - - 1:-:-
48 01 61 6c 5c 15 04 15 12 00 0c 02 00 00 00 | a - - - - - - - 5:2:9
48 01 61 6c 9c 00 00 00 | a - - - - - - - 0:-:-";

#[test]
fn members_of_a_logical_type(rt: HostRuntime) -> Result<(), Fail> {
    check_rows::<Elements>(rt.alloc(), MEMBERS)?;
    Ok(())
}

// A member that stands twice, or isn't a struct; a second member with a scale that is an i64; a scale that stands twice;
// isSigned as an i8; a unit as an i32; a unit with MILLIS twice.
const BROKEN: &str = "48 01 61 6c 1c 00 0c 02 00 00 00 | none
48 01 61 6c 15 02 00 00 | none
48 01 61 6c 1c 00 4c 16 04 00 00 00 | none
48 01 61 6c 5c 15 04 05 02 04 00 00 00 | none
48 01 61 6c ac 13 08 13 01 00 00 00 | none
48 01 61 6c 7c 11 15 02 00 00 00 | none
48 01 61 6c 7c 11 1c 1c 00 0c 02 00 00 00 00 00 | none";

#[test]
fn logical_types_that_are_none(rt: HostRuntime) -> Result<(), Fail> {
    check_rows::<Elements>(rt.alloc(), BROKEN)?;
    Ok(())
}
