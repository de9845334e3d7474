//! Documents shredded by schemas, and read again.

ghost use Rattle.shred_schema.specs.Lawful.{IsWellFormed};
ghost use Rattle.shred_schema.specs.Shapes.{RowHasShape};
ghost use Rattle.shred_schema.specs.Views.{group_of, row_rec_of};

use crate::records::{row_text, tree_text};
use shred_schema::{Column, RowRecord, width};
use std::alloc::Global;
use std::test::Fail;
use test_records::{document_tree, full_mask, schema_node, shredded_row};
use test_rows::{Shown, Wrong, check_rows, split_row};
use unshredder::unshred;

// The text of a row that is read with all its leaves.
fn read(alloc: Global, column: &Column, row: &RowRecord, leaves: usize) -> Result<String, Wrong>
    requires column { IsWellFormed (group_of column.now.node) }
    requires row { RowHasShape (group_of column.now.node) (row_rec_of row.now) }
{
    let mask = full_mask(alloc, leaves)?;
    tree_text(alloc, unshred(alloc, column, row, &mask))
}

// A schema and a document: the row's metadata and record.
struct Records;

impl Shown for Records {
    fn shown(alloc: Global, given: &str) -> Result<String, Wrong> {
        let (schema, document) = split_row(alloc, given)?;
        let node = schema_node(alloc, schema)?;
        let tree = document_tree(alloc, document)?;
        row_text(alloc, &shredded_row(alloc, &node, &tree)?)
    }
}

// A schema and a document: the text of the row after it was shredded.
struct Again;

impl Shown for Again {
    fn shown(alloc: Global, given: &str) -> Result<String, Wrong> {
        let (schema, document) = split_row(alloc, given)?;
        let node = schema_node(alloc, schema)?;
        let tree = document_tree(alloc, document)?;
        let row = shredded_row(alloc, &node, &tree)?;
        let leaves = 1 + width(&node);
        let column = Column {
            optional: true,
            node,
        };
        read(alloc, &column, &row, leaves)
    }
}

#[test]
fn what_fits_stands_in_the_typed_part(rt: HostRuntime) -> Result<(), Fail> {
    let table = r#"boolean | true | 110000 -:true
int8 | -128 | 110000 -:-128
int8 | 1.0 | 110000 -:1
int16 | 32767 | 110000 -:32767
int32 | -2147483648 | 110000 -:-2147483648
int64 | 9223372036854775807 | 110000 -:9223372036854775807
decimal(9,2) | 1.5 | 110000 -:150
decimal(3,2) | -9.99 | 110000 -:-999
string | "x" | 110000 -:78
{a:int64} | {"a":1,"z":2} | 1102000102617a 02010100020c02:{-:1 }
{b:int8,a:int8} | {"a":1,"b":2} | 11020001026162 -:{-:2 -:1 }
{u:{n:int8}} | {"u":{"n":5,"x":true},"v":false} | 110400010203046e757678 020102000108:{020103000104:{-:5 } }
{t:[string]} | {"t":[]} | 1101000174 -:{-:[] }
{t:[string]} | {"t":["x",1,null]} | 1101000174 -:{-:[-:78 0c01:- 00:- ] }"#;
    check_rows::<Records>(rt.alloc(), table)?;
    Ok(())
}

#[test]
fn what_does_not_fit_stands_in_the_value(rt: HostRuntime) -> Result<(), Fail> {
    let table = r#"variant | {"a":1} | 1101000161 02010000020c01:-
boolean | 1 | 110000 0c01:-
int8 | 128 | 110000 108000:-
int16 | 32768 | 110000 1400800000:-
int32 | 2147483648 | 110000 180000008000000000:-
int64 | 9223372036854775808 | 110000 280000000000000000800000000000000000:-
int64 | null | 110000 00:-
int64 | 1.5 | 110000 20010f000000:-
decimal(9,2) | 1.555 | 110000 200313060000:-
decimal(3,2) | 10 | 110000 0c0a:-
string | 1 | 110000 0c01:-
{a:int64} | [1] | 110000 030100020c01:-
[int8] | {} | 110000 020000:-
{a:int8} | {"a":128} | 1101000161 -:{108000:- }
{t:[string]} | {"t":null} | 1101000174 -:{00:- }"#;
    check_rows::<Records>(rt.alloc(), table)?;
    Ok(())
}

#[test]
fn a_field_that_is_missing_has_neither_part(rt: HostRuntime) -> Result<(), Fail> {
    let table = r#"{t:[string]} | {} | 110000 -:{-:- }
{a:int64,b:string} | {"b":"x"} | 1101000162 -:{-:- -:78 }"#;
    check_rows::<Records>(rt.alloc(), table)?;
    Ok(())
}

#[test]
fn what_is_shredded_comes_back(rt: HostRuntime) -> Result<(), Fail> {
    let table = r#"{t:[string]} | {"t":[]} | {"t":[]}
{t:[string]} | {"t":null} | {"t":null}
{t:[string]} | {} | {}
{t:[string]} | {"t":["x",1,null]} | {"t":["x",1,null]}
int64 | null | null
{a:int64} | {"a":1,"z":2} | {"a":1,"z":2}
{a:int64} | {"a":{"k":1}} | {"a":{"k":1}}
[decimal(9,2)] | [1.5,1.555,"1.5"] | [1.5,1.555,"1.5"]"#;
    check_rows::<Again>(rt.alloc(), table)?;
    Ok(())
}
