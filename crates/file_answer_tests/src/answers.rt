//! Queries and checks of files.

use crate::files::{shelf_with, shown_of, words_of};
use command_parsing::{CheckCommand, QueryCommand, asked_check, asked_query};
use file_answers::{answer_query, judge_file};
use outside::MemSink;
use shelf::MemShelf;
use std::alloc::Global;
use std::test::Fail;
use test_rows::{Shown, Wrong, check_rows, number_of, split_row};

fn query_asked(alloc: Global, words: &str) -> Result<QueryCommand, Wrong> {
    let words = words_of(alloc, words)?;
    match asked_query(alloc, words.as_slice()) {
        Ok(asked) => Ok(asked),
        Err(_) => Err(Wrong::NoMemory),
    }
}

fn check_asked(alloc: Global, words: &str) -> Result<CheckCommand, Wrong> {
    let words = words_of(alloc, words)?;
    match asked_check(alloc, words.as_slice()) {
        Ok(asked) => Ok(asked),
        Err(_) => Err(Wrong::NoMemory),
    }
}

fn query_text(alloc: Global, asked: QueryCommand, shelf: &mut MemShelf) -> Result<String, Wrong> {
    let mut out = MemSink::new(alloc, Vec::new(alloc));
    let done = answer_query(alloc, asked, shelf, &mut out);
    shown_of(alloc, &done, shelf, &out)
}

fn check_text(alloc: Global, asked: CheckCommand, shelf: &mut MemShelf) -> Result<String, Wrong> {
    let mut out = MemSink::new(alloc, Vec::new(alloc));
    let done = judge_file(alloc, asked, shelf, &mut out);
    shown_of(alloc, &done, shelf, &out)
}

// A row gives the name of the file that there is, the number of the call of the shelf that fails, and the words.
struct Queries;

impl Shown for Queries {
    fn shown(alloc: Global, given: &str) -> Result<String, Wrong> {
        let (name, rest) = split_row(alloc, given)?;
        let (failing, words) = split_row(alloc, rest)?;
        let mut shelf = shelf_with(alloc, name, number_of(alloc, failing)?)?;
        query_text(alloc, query_asked(alloc, words)?, &mut shelf)
    }
}

struct Checks;

impl Shown for Checks {
    fn shown(alloc: Global, given: &str) -> Result<String, Wrong> {
        let (name, rest) = split_row(alloc, given)?;
        let (failing, words) = split_row(alloc, rest)?;
        let mut shelf = shelf_with(alloc, name, number_of(alloc, failing)?)?;
        check_text(alloc, check_asked(alloc, words)?, &mut shelf)
    }
}

const QUERIES: &str = r#"two | 99 | two $ | done: {} {"$":null}  (220 8)(0 4)(62 158)(4 30)(34 28)
two | 99 | two --where $=null $ | done: {"$":null}  (220 8)(0 4)(62 158)(4 30)(34 28)
empty | 99 | empty $ | done:  (86 8)(0 4)(4 82)
two | 99 | other $ | absent:  
two | 99 | two --column value $ | NoVariant:  (220 8)(0 4)(62 158)
cut | 99 | cut $ | NotParquet:  
two | 0 | two $ | read fault:  
two | 5 | two $ | read fault:  (220 8)(0 4)(62 158)(4 30)(34 28)
codec | 99 | codec $ | Codec group 0 leaf 1:  (220 8)(0 4)(62 158)(4 30)
short | 99 | short $ | ValueShort group 0 row 1:  (220 8)(0 4)(62 158)(4 30)(34 28)"#;

#[test]
fn queries_of_files(rt: HostRuntime) -> Result<(), Fail> {
    check_rows::<Queries>(rt.alloc(), QUERIES)?;
    Ok(())
}

const CHECKS: &str = r#"two | 99 | two | done: ok 1 groups 2 rows  (220 8)(0 4)(62 158)(4 30)(34 28)
empty | 99 | empty | done: ok 0 groups 0 rows  (86 8)(0 4)(4 82)
two | 99 | other | absent:  
cut | 99 | cut | NotParquet:  
two | 4 | two | read fault:  (220 8)(0 4)(62 158)(4 30)
short | 99 | short | ValueShort group 0 row 1:  (220 8)(0 4)(62 158)(4 30)(34 28)"#;

#[test]
fn checks_of_files(rt: HostRuntime) -> Result<(), Fail> {
    check_rows::<Checks>(rt.alloc(), CHECKS)?;
    Ok(())
}
