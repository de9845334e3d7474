//! Files that a load wrote, queried and checked in the calls after it.

use shelf::MemShelf;
use std::alloc::Global;
use std::test::Fail;
use test_files::{answer_text, lines_of, push_answer};
use test_rows::{Shown, Wrong, check_rows, split_row};

// Loads documents, and appends how that ends.
fn push_load(alloc: Global, text: &mut String, load: &str, input: &str) -> Result<MemShelf, Wrong> {
    let input = lines_of(alloc, input)?;
    let shelf = MemShelf::new(alloc, Vec::new(alloc));
    push_answer(alloc, text, load, shelf, input.as_bytes())
}

// Loads documents, and shows how the load and the call after it end.
fn answers_text(alloc: Global, load: &str, input: &str, words: &str) -> Result<String, Wrong> {
    let mut text = String::new(alloc);
    let shelf = push_load(alloc, &mut text, load, input)?;
    text.push_str(", ")?;
    push_answer(alloc, &mut text, words, shelf, b"1\n")?;
    Ok(text)
}

// A row gives the words of a load, its documents, and the words of the call after it.
struct Answers;

impl Shown for Answers {
    fn shown(alloc: Global, given: &str) -> Result<String, Wrong> {
        let (load, rest) = split_row(alloc, given)?;
        let (input, words) = split_row(alloc, rest)?;
        answers_text(alloc, load, input, words)
    }
}

// The same, with wide offsets and ids in the values.
struct WideAnswers;

impl Shown for WideAnswers {
    fn shown(alloc: Global, given: &str) -> Result<String, Wrong> {
        let (load, rest) = split_row(alloc, given)?;
        let (input, words) = split_row(alloc, rest)?;
        let wide = format!(in alloc; "{load} --offset-width 4 --id-width 3")?;
        answers_text(alloc, wide.as_str(), input, words)
    }
}

// Lists that are empty, no lists, and not there; a list whose elements fit in part; a member beside the schema's; null
// where a number is wanted; values of other types than the schema's.
const LOADED: &str = r#"load f |  | query f $ | 0, 0
load f |  | check f | 0, 0 ok 0 groups 0 rows¶
load f | ¶ ¶ | check f | 0, 0 ok 0 groups 0 rows¶
load f --schema={t:[string]} | {"t":[]}¶{"t":null}¶{}¶{"t":["x",1,null]} | query f $.t | 0, 0 {"$.t":[]}¶{"$.t":null}¶{}¶{"$.t":["x",1,null]}¶
load f --schema={t:[string]} | {"t":[]}¶{"t":null}¶{}¶{"t":["x",1,null]} | query f $.t[*] | 0, 0 {"$.t[*]":[]}¶{"$.t[*]":[]}¶{"$.t[*]":[]}¶{"$.t[*]":["x",1,null]}¶
load f --schema={t:[string]} | {"t":[]}¶{"t":null}¶{}¶{"t":["x",1,null]} | query f $ | 0, 0 {"$":{"t":[]}}¶{"$":{"t":null}}¶{"$":{}}¶{"$":{"t":["x",1,null]}}¶
load f --schema={t:[string]} | {"t":[]}¶{"t":null}¶{}¶{"t":["x",1,null]} | check f | 0, 0 ok 1 groups 4 rows¶
load f --schema=int64 | null | query f --where=$·=·null $ | 0, 0 {"$":null}¶
load f --schema=int64 | null | check f | 0, 0 ok 1 groups 1 rows¶
load f --schema={a:int64} | {"a":1,"z":2} | query f $.a | 0, 0 {"$.a":1}¶
load f --schema={a:int64} | {"a":1,"z":2} | query f $ | 0, 0 {"$":{"a":1,"z":2}}¶
load f --schema={a:int64} | {"a":1,"z":2} | query f $.z $.a $.b | 0, 0 {"$.z":2,"$.a":1}¶
load f --schema={n:int64} --group-rows=1 | {"n":9}¶{"n":99}¶{"n":500} | query f --where=$.n>100 $.n | 0, 0 {"$.n":500}¶
load f --schema={a:int64} | {"a":5} | query f $.a.k | 0, 0 {}¶
load f --schema={a:int64} | {"a":"x"}¶{"a":1.5}¶{"a":9223372036854775808}¶[1]¶7 | query f $ | 0, 0 {"$":{"a":"x"}}¶{"$":{"a":1.5}}¶{"$":{"a":9223372036854775808}}¶{"$":[1]}¶{"$":7}¶
load f --schema={a:decimal(3,1)} | {"a":99.9}¶{"a":100}¶{"a":0.05}¶{"a":-3.0} | query f $.a | 0, 0 {"$.a":99.9}¶{"$.a":100}¶{"$.a":0.05}¶{"$.a":-3}¶
load f --schema={a:boolean} | {"a":true}¶{"a":false}¶{"a":0} | query f --where=$.a=false $ | 0, 0 {"$":{"a":false}}¶
load f | {"b":1,"a":{"d":[],"c":{}}} | query f $ | 0, 0 {"$":{"a":{"c":{},"d":[]},"b":1}}¶
load f | "\u00e9\ud83d\ude00\u0000" | query f $ | 0, 0 {"$":"é😀\u0000"}¶"#;

#[test]
fn a_query_answers_from_what_was_loaded(rt: HostRuntime) -> Result<(), Fail> {
    check_rows::<Answers>(rt.alloc(), LOADED)?;
    Ok(())
}

#[test]
fn widths_of_numbers_change_no_answer(rt: HostRuntime) -> Result<(), Fail> {
    check_rows::<WideAnswers>(rt.alloc(), LOADED)?;
    Ok(())
}

// Where the load stops, the file has no footer. A file that is there isn't loaded anew.
const REFUSED: &str =
    r#"load f | {"a":1,"a":2} | query f $ | 3 vstore: line 1: DuplicateKey¶, 4 vstore: file 1: NotParquet¶
load f | {"a":1,"a":2} | check f | 3 vstore: line 1: DuplicateKey¶, 4 vstore: file 1: NotParquet¶
load f | {"a":1,"a":2} | load f | 3 vstore: line 1: DuplicateKey¶, 9 vstore: taken¶
load f --group-rows=1 | 1¶2¶01 | query f $ | 3 vstore: line 3: NotJson¶, 4 vstore: file 1: NotParquet¶
load f | 1 | load f | 0, 9 vstore: taken¶
load f | 1 | query g $ | 0, 8 vstore: absent file 1¶
load f | 1 | check g | 0, 8 vstore: absent file 1¶
load f | 1 | query f --column v $ | 0, 4 vstore: file 1: NoVariant¶
load f | 1 | query f --column= $ | 0, 4 vstore: file 1: NoVariant¶
load f | 1 | query f --column=Doc $ | 0, 4 vstore: file 1: NoVariant¶
load f | 1 | query f --column=doc·· $ | 0, 4 vstore: file 1: NoVariant¶
load f | 1 | query f --column=schema $ | 0, 4 vstore: file 1: NoVariant¶
load f | 1 | query f --column=value $ | 0, 4 vstore: file 1: NoVariant¶
load f | 1 | check f --column=d\u006fc | 0, 4 vstore: file 1: NoVariant¶
load f | 1 | check f --column=dóc😀 | 0, 4 vstore: file 1: NoVariant¶
load f | 1 | query f | 0, 2 vstore: usage¶
load f | 1 | query f $. | 0, 2 vstore: bad path¶
load f | 1 | query f $.a $["a"] | 0, 2 vstore: repeated path¶
load f | 1 | query g $.a $["a"] | 0, 2 vstore: repeated path¶
load f | 1 | query g --where=x $. | 0, 2 vstore: bad filter¶
load f | 1 | query g --where=$<true $. | 0, 2 vstore: bad order¶
load f | 1 | load f --schema=int | 0, 2 vstore: bad schema¶
load f | 1 | load f --schema=int --group-rows=0 | 0, 2 vstore: usage¶
load f | 1 | check f $ | 0, 2 vstore: usage¶"#;

#[test]
fn a_refusal_names_what_is_wrong(rt: HostRuntime) -> Result<(), Fail> {
    check_rows::<Answers>(rt.alloc(), REFUSED)?;
    Ok(())
}

// A shelf without files.
struct NoFiles;

impl Shown for NoFiles {
    fn shown(alloc: Global, given: &str) -> Result<String, Wrong> {
        answer_text(alloc, given, MemShelf::new(alloc, Vec::new(alloc)), b"1")
    }
}

const NO_FILES: &str = "query g $ | 8 vstore: absent file 1¶
query g --column v $.a $.b | 8 vstore: absent file 1¶
query  $ | 8 vstore: absent file 1¶
check g | 8 vstore: absent file 1¶
check -- --column | 8 vstore: absent file 1¶
load g | 0
load -- --schema | 0
load | 2 vstore: usage¶
load  x | 2 vstore: usage¶
load g x | 2 vstore: usage¶
load g --page-bytes=1023 | 2 vstore: usage¶
load g --page-bytes=1024 | 0
load g --page-bytes=16777216 | 0
load g --page-bytes=16777217 | 2 vstore: usage¶
load g --group-rows=0 | 2 vstore: usage¶
load g --group-rows=100000 | 0
load g --group-rows=100001 | 2 vstore: usage¶
load g --column=doc | 2 vstore: usage¶
load g --schema={a:int8,a:int8} | 2 vstore: bad schema¶
load g --schema={·a·:·int8·} | 0
query | 2 vstore: usage¶
query g | 2 vstore: usage¶
query g $ --schema=int8 | 2 vstore: usage¶
query g $ --where=$·exists --where=$·exists | 2 vstore: usage¶
check | 2 vstore: usage¶
check g x | 2 vstore: usage¶
check g --where=$·exists | 2 vstore: usage¶
Load g | 2 vstore: usage¶
load· g | 2 vstore: usage¶
reshred g h | 2 vstore: usage¶
g load | 2 vstore: usage¶";

#[test]
fn a_file_that_is_none_is_told(rt: HostRuntime) -> Result<(), Fail> {
    check_rows::<NoFiles>(rt.alloc(), NO_FILES)?;
    Ok(())
}
