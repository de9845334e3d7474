//! Which leaves queries need, by the schema of the column.

use chunk_pruning::needs;
use path_query::{parse_filter, parse_path};
use query_tree::{Path, PathList, Query};
use shred_schema::Column;
use std::alloc::Global;
use std::test::Fail;
use test_records::schema_node;
use test_rows::{Shown, Wrong, check_rows, split_row};

fn path_of(alloc: Global, text: &str) -> Result<Path, Wrong> {
    match parse_path(alloc, text) {
        Ok(path) => Ok(path),
        Err(_) => Err(Wrong::Parts(text.to_string(alloc)?)),
    }
}

// The query of one path, with the filter whose text comes after ` where `, if there is one.
fn query_of(alloc: Global, text: &str) -> Result<Query, Wrong> {
    let mut paths = PathList::new(alloc);
    match text.split_once(" where ") {
        None => {
            paths.push(path_of(alloc, text)?)?;
            Ok(Query {
                filter: None,
                paths,
            })
        }
        Some((path, condition)) => {
            paths.push(path_of(alloc, path)?)?;
            match parse_filter(alloc, condition) {
                Ok(filter) => Ok(Query {
                    filter: Some(filter),
                    paths,
                }),
                Err(_) => Err(Wrong::Parts(condition.to_string(alloc)?)),
            }
        }
    }
}

// The numbers of the leaves that a mask reads.
fn leaves_text(alloc: Global, mask: &[bool]) -> Result<String, Wrong> {
    let mut text = String::new(alloc);
    for k in 0..mask.len() {
        if mask[k] {
            let number = format!(in alloc; " {k}")?;
            text.push_str(number.as_str())?;
        }
    }
    Ok(text)
}

// A row gives a schema and a query.
struct Needs;

impl Shown for Needs {
    fn shown(alloc: Global, given: &str) -> Result<String, Wrong> {
        let (schema, asked) = split_row(alloc, given)?;
        let column = Column {
            optional: true,
            node: schema_node(alloc, schema)?,
        };
        let query = query_of(alloc, asked)?;
        leaves_text(alloc, needs(alloc, &query, &column)?.as_slice())
    }
}

// The leaves of the first schema: 0 the metadata, 1 the value, 2 and 3 id, 4 the value of user, 5 and 6 user.name, 7 the
// value of tags, 8 and 9 its elements. Those of the second: 2 the value of an element, 3 and 4 its field a, 5 and 6 its
// field b.
const ROWS: &str = r#"{id:int64,user:{name:string},tags:[string]} | $.id |  0 2 3
{id:int64,user:{name:string},tags:[string]} | $.user.name |  0 5 6
{id:int64,user:{name:string},tags:[string]} | $.user |  0 4 5 6
{id:int64,user:{name:string},tags:[string]} | $.user.age |  0 4
{id:int64,user:{name:string},tags:[string]} | $.tags[*] |  0 7 8 9
{id:int64,user:{name:string},tags:[string]} | $.tags[0] |  0 7 8 9
{id:int64,user:{name:string},tags:[string]} | $.tags.x |  0 7
{id:int64,user:{name:string},tags:[string]} | $.id.x |  0 2
{id:int64,user:{name:string},tags:[string]} | $.x |  0 1
{id:int64,user:{name:string},tags:[string]} | $[0] |  0 1
{id:int64,user:{name:string},tags:[string]} | $ |  0 1 2 3 4 5 6 7 8 9
{id:int64,user:{name:string},tags:[string]} | $.id where not $.user.name exists and $.x = 1 |  0 1 2 3 5 6
{id:int64,user:{name:string},tags:[string]} | $.id where $.id > 1 or $.tags[*] = "a" |  0 2 3 7 8 9
[{a:int64,b:string}] | $[*].a |  0 1 3 4
[{a:int64,b:string}] | $[7].b |  0 1 5 6
[{a:int64,b:string}] | $[*].c |  0 1 2
[{a:int64,b:string}] | $[*] |  0 1 2 3 4 5 6
variant | $.a.b |  0 1"#;

#[test]
fn a_query_needs_these_leaves(rt: HostRuntime) -> Result<(), Fail> {
    check_rows::<Needs>(rt.alloc(), ROWS)?;
    Ok(())
}
