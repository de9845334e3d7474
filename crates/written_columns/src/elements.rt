//! One element.

ghost use Rattle.std.specs.Prelude.{◌≡◌, ℕ, pos, Some, IfOk};
ghost use Rattle.written_columns.specs.Written.{type_number, as_i32, length_written, truth, logical_written, integer_converted, converted_written, precision_written, scale_written, leaf_element, group_element, root_element, column_element};

use schema_elements::{Logical, SchemaElement};
use shred_schema::{Note, form_of};
use std::alloc::Global;
use vs_bytes::{NoMemory, Phys, Prim, Text};

// Members of the union LogicalType of parquet.thrift, by their ids.
const LOGICAL_STRING: i16 = 1;

const LOGICAL_LIST: i16 = 3;

const LOGICAL_DECIMAL: i16 = 5;

const LOGICAL_INTEGER: i16 = 10;

const LOGICAL_VARIANT: i16 = 16;

// ConvertedType of parquet.thrift.
const CONVERTED_UTF8: i32 = 0;

const CONVERTED_LIST: i32 = 3;

const CONVERTED_DECIMAL: i32 = 5;

const CONVERTED_INT_8: i32 = 15;

const CONVERTED_INT_16: i32 = 16;

// The version of the Variant specification.
const VARIANT_VERSION: i32 = 1;

// The number of Type in parquet.thrift.
fn type_number(phys: Phys) -> i32
    ensures { result ≡ pos (type_number phys) }
{
    match phys {
        Phys::Boolean => 0,
        Phys::Int32 => 1,
        Phys::Int64 => 2,
        Phys::Float => 4,
        Phys::Double => 5,
        Phys::ByteArray => 6,
        Phys::Fixed(_) => 7,
        Phys::Other => 3,
    }
}

fn as_i32(count: usize) -> i32
    ensures { result ≡ as_i32 count }
{
    if count < 2_147_483_647 {
        count as i32
    } else {
        2_147_483_647
    }
}

fn length_written(phys: Phys) -> Option<i32>
    ensures { result ≡ length_written phys }
{
    match phys {
        Phys::Fixed(size) => Some(as_i32(size as usize)),
        _ => None,
    }
}

fn truth(is: bool) -> i32
    ensures { result ≡ truth is }
{
    if is { 1 } else { 0 }
}

fn logical(member: i16, first: Option<i32>, second: Option<i32>) -> Option<Logical>
    ensures { result ≡ Some (record { member = member; first = first; second = second }) }
{
    Some(Logical {
        member,
        first,
        second,
    })
}

fn logical_written(note: Note) -> Option<Logical>
    ensures { result ≡ logical_written note }
{
    match note {
        Note::Text => logical(LOGICAL_STRING, None, None),
        Note::List => logical(LOGICAL_LIST, None, None),
        Note::Decimal { p, s } => logical(LOGICAL_DECIMAL, Some(i32::from(s)), Some(i32::from(p))),
        Note::Integer { bits, signed } => {
            logical(LOGICAL_INTEGER, Some(i32::from(bits)), Some(truth(signed)))
        }
        _ => None,
    }
}

fn integer_converted(bits: u8) -> Option<i32>
    ensures { result ≡ integer_converted bits }
{
    if bits == 8 {
        Some(CONVERTED_INT_8)
    } else if bits == 16 {
        Some(CONVERTED_INT_16)
    } else {
        None
    }
}

fn converted_written(note: Note) -> Option<i32>
    ensures { result ≡ converted_written note }
{
    match note {
        Note::Text => Some(CONVERTED_UTF8),
        Note::List => Some(CONVERTED_LIST),
        Note::Decimal { .. } => Some(CONVERTED_DECIMAL),
        Note::Integer { bits, .. } => integer_converted(bits),
        _ => None,
    }
}

fn precision_written(note: Note) -> Option<i32>
    ensures { result ≡ precision_written note }
{
    match note {
        Note::Decimal { p, .. } => Some(i32::from(p)),
        _ => None,
    }
}

fn scale_written(note: Note) -> Option<i32>
    ensures { result ≡ scale_written note }
{
    match note {
        Note::Decimal { s, .. } => Some(i32::from(s)),
        _ => None,
    }
}

/// A leaf of a kind.
#[tactic(auto, unfolding(crate::specs::Written::leaf_element))]
pub(crate) fn leaf_element(
    alloc: Global,
    prim: Prim,
    repetition: u8,
    name: &str,
) -> Result<SchemaElement, NoMemory>
    ensures { IfOk result (λ e. e ≡ leaf_element prim repetition name.now) }
{
    let (phys, note) = form_of(prim);
    Ok(SchemaElement {
        kind: Some(type_number(phys)),
        type_length: length_written(phys),
        repetition_type: Some(i32::from(repetition)),
        name: Text::from_str(alloc, name)?,
        num_children: None,
        converted_type: converted_written(note),
        scale: scale_written(note),
        precision: precision_written(note),
        logical_type: logical_written(note),
    })
}

/// A group of so many elements.
#[tactic(auto, unfolding(crate::specs::Written::group_element))]
pub(crate) fn group_element(
    alloc: Global,
    repetition: u8,
    name: &str,
    count: usize,
    note: Note,
) -> Result<SchemaElement, NoMemory>
    ensures { IfOk result (λ e. e ≡ group_element repetition name.now count note) }
{
    Ok(SchemaElement {
        kind: None,
        type_length: None,
        repetition_type: Some(i32::from(repetition)),
        name: Text::from_str(alloc, name)?,
        num_children: Some(as_i32(count)),
        converted_type: converted_written(note),
        scale: scale_written(note),
        precision: precision_written(note),
        logical_type: logical_written(note),
    })
}

/// The root of the schema.
#[tactic(auto, unfolding(crate::specs::Written::root_element))]
pub(crate) fn root_element(alloc: Global) -> Result<SchemaElement, NoMemory>
    ensures { IfOk result (λ e. e ≡ root_element) }
{
    Ok(SchemaElement {
        kind: None,
        type_length: None,
        repetition_type: None,
        name: Text::from_str(alloc, "schema")?,
        num_children: Some(1),
        converted_type: None,
        scale: None,
        precision: None,
        logical_type: None,
    })
}

/// The group of a column.
#[tactic(auto, unfolding(crate::specs::Written::column_element))]
pub(crate) fn column_element(
    alloc: Global,
    optional: bool,
    name: &str,
    count: usize,
) -> Result<SchemaElement, NoMemory>
    ensures { IfOk result (λ e. e ≡ column_element optional name.now count) }
{
    Ok(SchemaElement {
        kind: None,
        type_length: None,
        repetition_type: Some(truth(optional)),
        name: Text::from_str(alloc, name)?,
        num_children: Some(as_i32(count)),
        converted_type: None,
        scale: None,
        precision: None,
        logical_type: logical(LOGICAL_VARIANT, Some(VARIANT_VERSION), None),
    })
}
