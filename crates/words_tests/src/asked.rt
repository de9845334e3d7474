//! What the words of commands over files ask for, and which fault of them comes first.

use crate::files::words_of;
use command_parsing::{
    BadWords, CheckCommand, LoadCommand, QueryCommand, WordsFault, asked_check, asked_load,
    asked_query,
};
use shred_schema::Typed;
use std::alloc::{AllocError, Global};
use std::test::Fail;
use test_rows::{Shown, Wrong, check_rows};

fn fault_text(alloc: Global, fault: WordsFault) -> Result<String, Wrong> {
    let name = match fault {
        WordsFault::Wrong(BadWords::Usage) => "usage",
        WordsFault::Wrong(BadWords::BadSchema) => "bad schema",
        WordsFault::Wrong(BadWords::BadFilter) => "bad filter",
        WordsFault::Wrong(BadWords::BadOrder) => "bad order",
        WordsFault::Wrong(BadWords::BadPath) => "bad path",
        WordsFault::Wrong(BadWords::RepeatedPath) => "repeated path",
        WordsFault::NoMemory => return Err(Wrong::NoMemory),
    };
    Ok(name.to_string(alloc)?)
}

fn load_text(alloc: Global, load: &LoadCommand) -> Result<String, AllocError> {
    let schema = match load.schema.typed {
        Typed::Free => "free",
        _ => "typed",
    };
    format!(in alloc;
        "{} {schema} {} {} {} {}",
        load.out.as_str(),
        load.widths.offset_width,
        load.widths.id_width,
        load.page_bytes,
        load.group_rows
    )
}

fn query_text(alloc: Global, query: &QueryCommand) -> Result<String, AllocError> {
    let filter = if query.query.filter.is_some() {
        "some"
    } else {
        "all"
    };
    format!(in alloc;
        "{} of {}, {filter}, {}",
        query.column.as_str(),
        query.file.as_str(),
        query.query.paths.len()
    )
}

fn check_text(alloc: Global, check: &CheckCommand) -> Result<String, AllocError> {
    format!(in alloc; "{} of {}", check.column.as_str(), check.file.as_str())
}

struct Load;

impl Shown for Load {
    fn shown(alloc: Global, given: &str) -> Result<String, Wrong> {
        let words = words_of(alloc, given)?;
        match asked_load(alloc, words.as_slice()) {
            Ok(load) => Ok(load_text(alloc, &load)?),
            Err(fault) => fault_text(alloc, fault),
        }
    }
}

struct Query;

impl Shown for Query {
    fn shown(alloc: Global, given: &str) -> Result<String, Wrong> {
        let words = words_of(alloc, given)?;
        match asked_query(alloc, words.as_slice()) {
            Ok(query) => Ok(query_text(alloc, &query)?),
            Err(fault) => fault_text(alloc, fault),
        }
    }
}

struct Check;

impl Shown for Check {
    fn shown(alloc: Global, given: &str) -> Result<String, Wrong> {
        let words = words_of(alloc, given)?;
        match asked_check(alloc, words.as_slice()) {
            Ok(check) => Ok(check_text(alloc, &check)?),
            Err(fault) => fault_text(alloc, fault),
        }
    }
}

const LOADS: &str = "f | f free 1 1 1048576 10000
f --schema variant | f free 1 1 1048576 10000
f --schema {a:[int8]} --group-rows 2 | f typed 1 1 1048576 2
f --offset-width 2 --id-width 3 --page-bytes 4096 | f free 2 3 4096 10000
f --schema= | bad schema
f --schema int | bad schema
f --schema {} | bad schema
f --schema {a:int8,a:int8} | bad schema
f --schema decimal(39,0) | bad schema
f g --schema int | usage
f --schema int --group-rows 0 | usage";

#[test]
fn a_load_has_a_schema(rt: HostRuntime) -> Result<(), Fail> {
    check_rows::<Load>(rt.alloc(), LOADS)?;
    Ok(())
}

const QUERIES: &str = "f $.a | doc of f, all, 1
f --column v --where $.a=1 $.a $.b | v of f, some, 2
f --where= $ | bad filter
f --where $.a<true $. | bad order
f --where $.a=1or $ | bad filter
f $ $. | bad path
f $.a $[\"a\"] $. | bad path
f $.a $[\"a\"] | repeated path
f $. --where | usage
f --where x | usage";

#[test]
fn a_query_has_a_filter_and_paths(rt: HostRuntime) -> Result<(), Fail> {
    check_rows::<Query>(rt.alloc(), QUERIES)?;
    Ok(())
}

const CHECKS: &str = "f | doc of f
f --column v | v of f
f g | usage";

#[test]
fn a_check_has_a_file(rt: HostRuntime) -> Result<(), Fail> {
    check_rows::<Check>(rt.alloc(), CHECKS)?;
    Ok(())
}
