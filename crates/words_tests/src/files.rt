//! The words of `load`, `query` and `check`.

use command_words::{
    CheckWords, LoadWords, QueryWords, WordFault, check_words, load_words, query_words,
};
use std::alloc::{AllocError, Global};
use std::test::Fail;
use test_rows::{Shown, Wrong, check_rows};
use vs_bytes::{NoMemory, Sequence, Text};

// The words of a row: one space stands between two of them.
pub fn words_of(alloc: Global, given: &str) -> Result<Sequence<Text>, NoMemory> {
    let mut words = Sequence::new(alloc);
    for word in given.split(' ') {
        words.push(Text::from_str(alloc, word)?)?;
    }
    Ok(words)
}

fn fault_text(alloc: Global, fault: WordFault) -> Result<String, Wrong> {
    match fault {
        WordFault::Usage => Ok("usage".to_string(alloc)?),
        WordFault::NoMemory => Err(Wrong::NoMemory),
    }
}

fn load_text(alloc: Global, words: &LoadWords<'_>) -> Result<String, AllocError> {
    let writing = words.writing;
    let widths = writing.widths;
    format!(in alloc;
        "{} by {}, {} and {}, {} and {}",
        words.out,
        writing.schema,
        widths.offset_width,
        widths.id_width,
        writing.page_bytes,
        writing.group_rows
    )
}

fn query_text(alloc: Global, words: &QueryWords<'_>) -> Result<String, AllocError> {
    let mut text = format!(in alloc; "{} of {}", words.column, words.file)?;
    if let Some(filter) = words.asked.filter {
        text.push_str(" where ")?;
        text.push_str(filter)?;
    }
    for path in words.asked.paths.as_slice() {
        text.push_str(" ")?;
        text.push_str(path)?;
    }
    Ok(text)
}

fn check_text(alloc: Global, words: &CheckWords<'_>) -> Result<String, AllocError> {
    format!(in alloc; "{} of {}", words.column, words.file)
}

struct Load;

impl Shown for Load {
    fn shown(alloc: Global, given: &str) -> Result<String, Wrong> {
        let words = words_of(alloc, given)?;
        match load_words(alloc, words.as_slice()) {
            Ok(read) => Ok(load_text(alloc, &read)?),
            Err(fault) => fault_text(alloc, fault),
        }
    }
}

struct Query;

impl Shown for Query {
    fn shown(alloc: Global, given: &str) -> Result<String, Wrong> {
        let words = words_of(alloc, given)?;
        match query_words(alloc, words.as_slice()) {
            Ok(read) => Ok(query_text(alloc, &read)?),
            Err(fault) => fault_text(alloc, fault),
        }
    }
}

struct Check;

impl Shown for Check {
    fn shown(alloc: Global, given: &str) -> Result<String, Wrong> {
        let words = words_of(alloc, given)?;
        match check_words(alloc, words.as_slice()) {
            Ok(read) => Ok(check_text(alloc, &read)?),
            Err(fault) => fault_text(alloc, fault),
        }
    }
}

// Options in any order, and the limits of their numbers.
const LOADS: &str = "f | f by variant, 1 and 1, 1048576 and 10000
- | - by variant, 1 and 1, 1048576 and 10000
-- --f | --f by variant, 1 and 1, 1048576 and 10000
f -- | f by variant, 1 and 1, 1048576 and 10000
f --schema int64 | f by int64, 1 and 1, 1048576 and 10000
--schema={a:int64} f | f by {a:int64}, 1 and 1, 1048576 and 10000
 --schema int8 |  by int8, 1 and 1, 1048576 and 10000
f --schema= | f by , 1 and 1, 1048576 and 10000
f --schema=a=b | f by a=b, 1 and 1, 1048576 and 10000
f --offset-width 4 --id-width=3 | f by variant, 4 and 3, 1048576 and 10000
--id-width 4 f --offset-width 1 | f by variant, 1 and 4, 1048576 and 10000
f --id-width 0000000004 | f by variant, 1 and 4, 1048576 and 10000
f --page-bytes 1024 --group-rows 1 | f by variant, 1 and 1, 1024 and 1
f --page-bytes 16777216 --group-rows 100000 | f by variant, 1 and 1, 16777216 and 100000
f --page-bytes 0000001024 --group-rows 01 | f by variant, 1 and 1, 1024 and 1
--group-rows=2 --page-bytes=2048 --id-width=3 --offset-width=2 --schema=int8 f | f by int8, 2 and 3, 2048 and 2
--schema int8 -- --schema | --schema by int8, 1 and 1, 1048576 and 10000
f --schema - | f by -, 1 and 1, 1048576 and 10000
-- - | - by variant, 1 and 1, 1048576 and 10000";

#[test]
fn a_load_writes_one_file_by_its_options(rt: HostRuntime) -> Result<(), Fail> {
    check_rows::<Load>(rt.alloc(), LOADS)?;
    Ok(())
}

// Numbers out of their ranges, and words that aren't numbers.
const NO_LOADS: &str = "f g | usage
f -- g | usage
f - | usage
--schema int8 | usage
f --schema | usage
f --schema -x | usage
f --schema int8 --schema int8 | usage
f --column doc | usage
f --where $ | usage
f --id-width 0 | usage
f --offset-width 5 | usage
f --page-bytes 1023 | usage
f --page-bytes 16777217 | usage
f --page-bytes 00000001024 | usage
f --page-bytes 4294968320 | usage
f --group-rows 0 | usage
f --group-rows 100001 | usage
f --group-rows 4294967297 | usage
f --group-rows 9999999999 | usage
f --group-rows +1 | usage
f --group-rows 1_0 | usage
f --group-rows 1e1 | usage
f --group-rows ١ | usage
f --group-rows= | usage
f --group-rows  | usage
f --group-rows 1 --group-rows=1 | usage
f --offset-width=1 --offset-width=1 | usage
f --id-width 1 --offset-width 1 --id-width 1 | usage
--page-bytes 1024 f --page-bytes 2048 | usage
f --schema= --schema= | usage
f --offset-width | usage
f --id-width | usage
f --page-bytes | usage
f --group-rows | usage
--group-rows f | usage
f --page-bytes --group-rows 1 | usage
f --page-bytes --group-rows=1 1024 | usage
f --schema -- | usage
f --page-bytes 0 | usage
f --page-bytes -1024 | usage
f --page-bytes= | usage
f --page-bytes 1k | usage
f --page-bytes 0x400 | usage
f --page-bytes 18446744073709552640 | usage
f --group-rows 00000000001 | usage
f --group-rows -1 | usage
f --group-rows 1. | usage
f --group-row 1 | usage
f --group-rowss 1 | usage
f --group_rows 1 | usage
f --Schema int8 | usage
f --schemas=int8 | usage
f --help | usage
f --version | usage
f -h | usage
f -schema int8 | usage
f --=int8 | usage
-- | usage
 f | usage";

#[test]
fn words_that_are_no_load_are_usage(rt: HostRuntime) -> Result<(), Fail> {
    check_rows::<Load>(rt.alloc(), NO_LOADS)?;
    Ok(())
}

// The first operand is the file, wherever it stands.
const QUERIES: &str = "f $ | doc of f $
f $.a $.b | doc of f $.a $.b
f $ $ | doc of f $ $
-- f -x | doc of f -x
f -- --where | doc of f --where
--where $.a=1 f $.b | doc of f where $.a=1 $.b
f --where= $ | doc of f where  $
f --column v $ | v of f $
--column=v f --where=x $.a --  | v of f where x $.a 
f --column= $ |  of f $
f | usage
 | usage
-- | usage
f --column v | usage
f $ --column | usage
f $ --column v --column v | usage
f $ --where x --where y | usage
f $ --column -v | usage
f $ -x | usage
f $ --schema int8 | usage
f --column - $ | - of f $
f --column=a=b $ | a=b of f $
f --column ó😀 $ | ó😀 of f $
f --column .doc* $ | .doc* of f $
f --column  $ |  of f $
-- --column --where | doc of --column --where
f --where $ --column v -- $ | v of f where $ $
--column v | usage
--column v --where x f | usage
-- f | usage
f $ --column=v --column= | usage
f $ --where | usage
f $ --column --where x | usage
f $ --column -- | usage
f $ --columns v | usage
f $ --Where x | usage
f $ --group-rows 1 | usage
f $ --help | usage";

#[test]
fn a_query_asks_one_file_for_its_paths(rt: HostRuntime) -> Result<(), Fail> {
    check_rows::<Query>(rt.alloc(), QUERIES)?;
    Ok(())
}

// A file and 64 paths, and one path more.
#[test]
fn a_query_has_at_most_64_paths(rt: HostRuntime) -> Result<(), Fail> {
    let alloc = rt.alloc();
    let mut words = Sequence::new(alloc);
    words.push(Text::from_str(alloc, "f")?)?;
    for _path in 0..64 {
        words.push(Text::from_str(alloc, "$")?)?;
    }
    match query_words(alloc, words.as_slice()) {
        Ok(read) => assert_eq!(&rt; read.asked.paths.len(), 64),
        Err(fault) => assert_eq!(&rt; fault, WordFault::NoMemory),
    }
    words.push(Text::from_str(alloc, "$")?)?;
    match query_words(alloc, words.as_slice()) {
        Ok(read) => assert_eq!(&rt; read.asked.paths.len(), 0),
        Err(fault) => assert_eq!(&rt; fault, WordFault::Usage),
    }
    Ok(())
}

const CHECKS: &str = "f | doc of f
-- f | doc of f
f --column v | v of f
--column=--x f | usage
-- --column | doc of --column
f g | usage
 --column v | v of 
--column v | usage
f --column | usage
f --column v --column v | usage
f --where $ | usage
f $ | usage
-- -x | doc of -x
- --column=- | - of -
--column=ó😀 f | ó😀 of f
f --column= |  of f
 | doc of 
f --column=v --column v | usage
f -- g | usage
f -x | usage
f --columns v | usage
f --column -- | usage
f --group-rows 1 | usage
-- | usage";

#[test]
fn a_check_reads_one_file(rt: HostRuntime) -> Result<(), Fail> {
    check_rows::<Check>(rt.alloc(), CHECKS)?;
    Ok(())
}
