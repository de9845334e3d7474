//! A query of a loaded file prints what a scan of its documents prints.

use crate::records::RECORDS;
use shelf::MemShelf;
use std::alloc::Global;
use std::test::Fail;
use test_files::{lines_of, loaded, push_answer};
use test_rows::Wrong;
use test_runs::repeated;
use vs_bytes::NoMemory;

// What documents are, from those that no schema below fits to those that one fits, one set a line; a `¶` stands for LF.
const DOCUMENTS: &str = r#"
null
null¶true¶false¶0¶-1.5¶"x"¶[]¶{}¶[null]¶{"":null}¶{"a":{}}¶{"a":[]}
{"a":1}¶{"a":-128}¶{"a":127}¶{"a":128}¶{"a":32768}¶{"a":2147483648}¶{"a":9223372036854775808}¶{"a":0.5}¶{"a":1.0}¶{"a":null}
{"a":"x"}¶{"a":1,"b":"y"}¶{"b":"z","c":[1,"2",{"d":3}]}¶[{"a":1}]¶{"a":{"a":{"a":1}}}
[]¶[1]¶[1,2,3]¶["a"]¶["a",1,null,[],{}]¶[[1],[2,[3]],[]]¶[[[]]]¶{"0":1}
{"t":[]}¶{"t":null}¶{}¶{"t":["x",1,null]}¶{"t":[{"k":1,"v":"a"},{"k":"1"},{"v":2,"w":3},{},7,[]]}¶{"t":{"k":1}}
{"a":{"b":{"c":1}},"t":[{"k":1,"v":"a"}]}¶{"a":{"b":{"c":"1"}},"x":0}¶{"a":{"b":1,"c":2}}¶{"a":{"b":{"d":[{"e":5}]}}}¶{"a":[{"b":1}]}
{"id":1,"ok":true,"n":1.25,"s":"é😀\u0000\n","l":[[1,2],[3]],"o":{"p":null,"q":[null]}}¶{"id":"1","ok":0,"n":1.255,"s":null,"l":[1,[2]],"o":7}¶{"z":99999999999999999999999999999999999999}"#;

// The schemas of the loads, one a line.
const SCHEMAS: &str = r#"variant
int8
string
boolean
decimal(38,38)
[variant]
[int64]
[[int8]]
[{k:int64,v:string}]
{a:variant}
{a:int8}
{a:int64,b:string}
{a:{a:{a:int32}}}
{a:{b:{c:int16,d:[{e:int64}]}}}
{t:[string]}
{t:[{k:int64,v:string}]}
{id:int64,ok:boolean,n:decimal(9,2),s:string,l:[[int8]],o:{p:variant,q:[variant]}}
{"":int64,"0":int8,"a b":string,c:[variant],x:decimal(20,1),y:{z:{w:[boolean]}}}"#;

// How groups and pages are cut, and how wide the numbers of values are.
const OPTIONS: &str = r#"--
--group-rows=1
--group-rows=2
--page-bytes=1024
--group-rows=2 --page-bytes=1024
--offset-width=4 --id-width=3"#;

// What is asked.
const ASKED: &str = r#"$ $.a $.a.b.c $.a.b $.a.a.a $.t[*].k $.t[0] $[0][0] $[*]
--where=$.a·exists $.b $
--where=$.a·>·1·or·$.t[*]·=·"x" $.a $.t
--where=not·$·=·null $.s $.n $.o.q[*]"#;

// How a command ends, for all that is asked.
fn answers_text(
    alloc: Global,
    command: &str,
    shelf: MemShelf,
    input: &str,
) -> Result<String, Wrong> {
    let mut text = String::new(alloc);
    let mut shelf = shelf;
    for asked in ASKED.split('\n') {
        let words = format!(in alloc; "{command} {asked}")?;
        shelf = push_answer(alloc, &mut text, words.as_str(), shelf, input.as_bytes())?;
    }
    Ok(text)
}

// Checks the answers of queries, after a load that ended so.
fn check_answers(
    alloc: Global,
    status: u8,
    shelf: MemShelf,
    load: &str,
    wanted: &str,
) -> Result<(), Wrong> {
    let found = answers_text(alloc, "query f", shelf, "")?;
    if status == 0 && found.as_str() == wanted {
        return Ok(());
    }
    Err(Wrong::Row(format!(in alloc; "{load}: {found}, but scans give {wanted}")?))
}

// Checks what is asked of documents that are loaded by one schema.
fn check_load(
    alloc: Global,
    schema: &str,
    options: &str,
    input: &str,
    wanted: &str,
) -> Result<(), Wrong> {
    let words = format!(in alloc; "load f --schema {schema} {options}")?;
    let load = loaded(alloc, words.as_str(), input.as_bytes())?;
    check_answers(alloc, load.status, load.shelf, words.as_str(), wanted)
}

// Checks documents under all options.
fn check_options(alloc: Global, schema: &str, input: &str, wanted: &str) -> Result<(), Wrong> {
    let schema = schema.replace(alloc, ' ', "·")?;
    for options in OPTIONS.split('\n') {
        check_load(alloc, schema.as_str(), options, input, wanted)?;
    }
    Ok(())
}

// Checks documents under all schemas.
fn check_documents(alloc: Global, input: &str) -> Result<(), Wrong> {
    let no_files = MemShelf::new(alloc, Vec::new(alloc));
    let wanted = answers_text(alloc, "scan", no_files, input)?;
    for schema in SCHEMAS.split('\n') {
        check_options(alloc, schema, input, wanted.as_str())?;
    }
    Ok(())
}

#[test]
fn a_query_of_a_load_is_a_scan(rt: HostRuntime) -> Result<(), Fail> {
    for documents in DOCUMENTS.split('\n') {
        check_documents(rt.alloc(), lines_of(rt.alloc(), documents)?.as_str())?;
    }
    Ok(())
}

#[test]
fn a_query_of_loaded_records_is_a_scan(rt: HostRuntime) -> Result<(), Fail> {
    check_documents(rt.alloc(), RECORDS)?;
    Ok(())
}

// Rows of one number and a list of up to 1,036, so that the entries of one column are many pieces and those of the other
// are one.
fn long_lists(alloc: Global) -> Result<String, NoMemory> {
    let mut rows = String::new(alloc);
    for row in 0..60usize {
        rows.push_str("{\"a\":1,\"t\":[")?;
        rows.push_str(repeated(alloc, "7", ",", row % 29 * 37)?.as_str())?;
        rows.push_str("]}\n")?;
    }
    Ok(rows)
}

#[test]
fn rows_are_put_together_from_pieces(rt: HostRuntime) -> Result<(), Fail> {
    let rows = long_lists(rt.alloc())?;
    let no_files = MemShelf::new(rt.alloc(), Vec::new(rt.alloc()));
    let wanted = answers_text(rt.alloc(), "scan", no_files, rows.as_str())?;
    check_options(
        rt.alloc(),
        "{a:int64,t:[int8]}",
        rows.as_str(),
        wanted.as_str(),
    )?;
    Ok(())
}
