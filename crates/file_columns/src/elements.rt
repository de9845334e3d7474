//! What an element says of itself (parquet.thrift, SchemaElement).

ghost use Rattle.std.specs.Prelude.{◌≡◌, ◌<◌, ◌^◌, true};
ghost use Rattle.schema_elements.specs.SchemaTrees.{count_in, child_count, is_leaf};
ghost use Rattle.file_columns.specs.Elements.{is_at, is_required, is_optional, is_repeated, type_numbered, type_in, type_of, byte_in, truth_in, decimal_note, integer_note, time_note, stamp_note, logical_note, converted_note, note_in, note_of, is_list_note, prim_of};
ghost use Rattle.file_columns.specs.Columns.{is_binary};

use schema_elements::{Logical, SchemaElement};
use shred_schema::Note;
use vs_bytes::{Phys, Prim};

// FieldRepetitionType of parquet.thrift.
const REQUIRED: u8 = 0;

const OPTIONAL: u8 = 1;

const REPEATED: u8 = 2;

// Type of parquet.thrift.
const BOOLEAN: i32 = 0;

const INT32: i32 = 1;

const INT64: i32 = 2;

const FLOAT: i32 = 4;

const DOUBLE: i32 = 5;

const BYTE_ARRAY: i32 = 6;

const FIXED_LEN_BYTE_ARRAY: i32 = 7;

// Members of the union LogicalType of parquet.thrift, by their ids.
const LOGICAL_STRING: i16 = 1;

const LOGICAL_LIST: i16 = 3;

const LOGICAL_DECIMAL: i16 = 5;

const LOGICAL_DATE: i16 = 6;

const LOGICAL_TIME: i16 = 7;

const LOGICAL_TIMESTAMP: i16 = 8;

const LOGICAL_INTEGER: i16 = 10;

const LOGICAL_UUID: i16 = 14;

const LOGICAL_FLOAT16: i16 = 15;

// ConvertedType of parquet.thrift.
const CONVERTED_UTF8: i32 = 0;

const CONVERTED_LIST: i32 = 3;

const CONVERTED_DECIMAL: i32 = 5;

const CONVERTED_INT_8: i32 = 15;

const CONVERTED_INT_16: i32 = 16;

const CONVERTED_INT_32: i32 = 17;

const CONVERTED_INT_64: i32 = 18;

fn is_at(number: u8, field: Option<i32>) -> bool
    ensures { result ≡ is_at number field }
{
    match field {
        Some(other) => other == i32::from(number),
        None => false,
    }
}

pub(crate) fn is_required(element: &SchemaElement) -> bool
    ensures { result ≡ is_required element.now }
{
    is_at(REQUIRED, element.repetition_type)
}

pub(crate) fn is_optional(element: &SchemaElement) -> bool
    ensures { result ≡ is_optional element.now }
{
    is_at(OPTIONAL, element.repetition_type)
}

pub(crate) fn is_repeated(element: &SchemaElement) -> bool
    ensures { result ≡ is_repeated element.now }
{
    is_at(REPEATED, element.repetition_type)
}

fn count_in(field: Option<i32>) -> u32
    ensures count { result ≡ count_in field }
    ensures fits { result < 2 ^ 31 }
{
    match field {
        Some(number) => { if number < 0 { 0 } else { number as u32 } }
        None => 0,
    }
}

/// Whether it is a BYTE_ARRAY.
#[tactic(auto, unfolding(crate::specs::Columns::is_binary))]
pub(crate) fn is_binary(element: &SchemaElement) -> bool
    ensures { result ≡ is_binary element.now }
{
    element.is_leaf() && is_at(BYTE_ARRAY as u8, element.kind)
}

fn type_numbered(len: u32, number: i32) -> Phys
    ensures { result ≡ type_numbered len number }
{
    if number == BOOLEAN {
        Phys::Boolean
    } else if number == INT32 {
        Phys::Int32
    } else if number == INT64 {
        Phys::Int64
    } else if number == FLOAT {
        Phys::Float
    } else if number == DOUBLE {
        Phys::Double
    } else if number == BYTE_ARRAY {
        Phys::ByteArray
    } else if number == FIXED_LEN_BYTE_ARRAY {
        Phys::Fixed(len)
    } else {
        Phys::Other
    }
}

/// The physical type.
#[tactic(auto, unfolding(crate::specs::Elements::type_of))]
pub(crate) fn type_of(element: &SchemaElement) -> Phys
    ensures { result ≡ type_of element.now }
{
    match element.kind {
        Some(number) => type_numbered(count_in(element.type_length), number),
        None => Phys::Other,
    }
}

fn byte_in(field: Option<i32>) -> Option<u8>
    ensures { result ≡ byte_in field }
{
    match field {
        Some(number) => {
            if 0 <= number && number < 256 {
                Some(number as u8)
            } else {
                None
            }
        }
        None => None,
    }
}

fn truth_in(field: Option<i32>) -> Option<bool>
    ensures { result ≡ truth_in field }
{
    match field {
        Some(number) => Some(number != 0),
        None => None,
    }
}

fn decimal_note(precision: Option<u8>, scale: Option<u8>) -> Note
    ensures { result ≡ decimal_note precision scale }
{
    match (precision, scale) {
        (Some(p), Some(s)) => Note::Decimal { p, s },
        _ => Note::Other,
    }
}

fn integer_note(bits: Option<u8>, signed: Option<bool>) -> Note
    ensures { result ≡ integer_note bits signed }
{
    match (bits, signed) {
        (Some(bits), Some(signed)) => Note::Integer { bits, signed },
        _ => Note::Other,
    }
}

fn time_note(utc: Option<bool>, unit: Option<u8>) -> Note
    ensures { result ≡ time_note utc unit }
{
    match (utc, unit) {
        (Some(utc), Some(unit)) => Note::Time { utc, unit },
        _ => Note::Other,
    }
}

fn stamp_note(utc: Option<bool>, unit: Option<u8>) -> Note
    ensures { result ≡ stamp_note utc unit }
{
    match (utc, unit) {
        (Some(utc), Some(unit)) => Note::Stamp { utc, unit },
        _ => Note::Other,
    }
}

// By the member of the union LogicalType.
#[tactic(auto, unfolding(crate::specs::Elements::logical_note))]
fn logical_note(logical: &Logical) -> Note
    ensures { result ≡ logical_note logical.now }
{
    if logical.member == LOGICAL_STRING {
        Note::Text
    } else if logical.member == LOGICAL_LIST {
        Note::List
    } else if logical.member == LOGICAL_DECIMAL {
        decimal_note(byte_in(logical.second), byte_in(logical.first))
    } else if logical.member == LOGICAL_DATE {
        Note::Date
    } else if logical.member == LOGICAL_TIME {
        time_note(truth_in(logical.first), byte_in(logical.second))
    } else if logical.member == LOGICAL_TIMESTAMP {
        stamp_note(truth_in(logical.first), byte_in(logical.second))
    } else if logical.member == LOGICAL_INTEGER {
        integer_note(byte_in(logical.first), truth_in(logical.second))
    } else if logical.member == LOGICAL_UUID {
        Note::Uuid
    } else if logical.member == LOGICAL_FLOAT16 {
        Note::Float16
    } else {
        Note::Other
    }
}

// By a number of ConvertedType.
#[tactic(auto, unfolding(crate::specs::Elements::converted_note))]
fn converted_note(precision: Option<u8>, scale: Option<u8>, number: i32) -> Note
    ensures { result ≡ converted_note precision scale number }
{
    if number == CONVERTED_UTF8 {
        Note::Text
    } else if number == CONVERTED_LIST {
        Note::List
    } else if number == CONVERTED_DECIMAL {
        decimal_note(precision, scale)
    } else if number == CONVERTED_INT_8 {
        signed_note(8)
    } else if number == CONVERTED_INT_16 {
        signed_note(16)
    } else if number == CONVERTED_INT_32 {
        signed_note(32)
    } else if number == CONVERTED_INT_64 {
        signed_note(64)
    } else {
        Note::Other
    }
}

fn signed_note(bits: u8) -> Note
    ensures { result ≡ Note.Integer bits true }
{
    Note::Integer { bits, signed: true }
}

/// The annotation.
#[tactic(auto, unfolding(crate::specs::Elements::note_of))]
pub(crate) fn note_of(element: &SchemaElement) -> Note
    ensures { result ≡ note_of element.now }
{
    match &element.logical_type {
        Some(logical) => logical_note(logical),
        None => match element.converted_type {
            Some(number) => {
                converted_note(byte_in(element.precision), byte_in(element.scale), number)
            }
            None => Note::None,
        },
    }
}

/// Whether it is annotated as a list.
pub(crate) fn is_list(element: &SchemaElement) -> bool
    ensures { result ≡ is_list_note (note_of element.now) }
{
    match note_of(element) {
        Note::List => true,
        _ => false,
    }
}

/// The kind of a leaf's cells.
#[tactic(auto, unfolding(crate::specs::Elements::prim_of))]
pub(crate) fn prim_of(element: &SchemaElement) -> Prim
    ensures { result ≡ prim_of element.now }
{
    shred_schema::prim_of(type_of(element), note_of(element))
}
