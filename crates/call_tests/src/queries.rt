//! Lines to trees, paths and their matches, filters.

use exact_json::{DocFault, read_line};
use json_tree::{Tree, print};
use path_query::{Path, PathList, Query, TextFault, at, holds, line, parse_filter, parse_path};
use std::alloc::Global;
use std::process::Abort;
use std::test::Fail;
use vs_bytes::NoMemory;

// Some values in their canonical text, each with a semicolon after it.
fn text_of(alloc: Global, values: &[&Tree]) -> Result<Vec<u8>, NoMemory> {
    let mut text = Vec::new(alloc);
    for value in values {
        print(&mut text, value)?;
        text.push(b';')?;
    }
    Ok(text)
}

#[test]
fn a_line_is_read(rt: HostRuntime) -> Result<(), Fail> {
    let tree = read_line(rt.alloc(), b" { \"b\" : [ 1 , null ] , \"a\" : \"x\" } ")?;
    let text = text_of(rt.alloc(), &[&tree])?;
    assert_eq!(&rt;
        text.as_slice(),
        b"{\"a\":\"x\",\"b\":[1,null]};".as_slice()
    );
    Ok(())
}

#[test]
fn a_line_that_is_no_document_is_refused(rt: HostRuntime) {
    let read = read_line(rt.alloc(), b"[01]");
    assert!(&rt; matches!(read, Err(DocFault::NotJson)));
}

#[test]
fn a_path_has_its_text(rt: HostRuntime) -> Result<(), Fail> {
    let path = parse_path(rt.alloc(), "$.a[*].b")?;
    assert_eq!(&rt; path.text(), b"$.a[*].b".as_slice());
    assert_eq!(&rt; path.key(), b"\"$.a[*].b\"".as_slice());
    assert_eq!(&rt; path.len(), 3);
    Ok(())
}

#[test]
fn a_text_that_is_no_path_is_refused(rt: HostRuntime) {
    assert!(&rt; matches!(parse_path(rt.alloc(), "$."), Err(TextFault::BadPath)));
}

#[test]
fn the_matches_of_a_path_come_in_order(rt: HostRuntime) -> Result<(), Fail> {
    let path = parse_path(rt.alloc(), "$.a[*].b")?;
    let tree = read_line(rt.alloc(), b"{\"a\":[{\"b\":3},{\"b\":1},7,{\"b\":[2]}]}")?;
    let found = at(rt.alloc(), &path, Some(&tree))?;
    let text = text_of(rt.alloc(), found.as_slice())?;
    assert_eq!(&rt; text.as_slice(), b"3;1;[2];".as_slice());
    Ok(())
}

#[test]
fn an_absent_row_has_no_match(rt: HostRuntime) -> Result<(), Fail> {
    for text in ["$", "$.a", "$[*]"] {
        let path = parse_path(rt.alloc(), text)?;
        assert!(&rt; at(rt.alloc(), &path, None)?.is_empty());
    }
    Ok(())
}

// A query for one path.
fn query_of(alloc: Global, path: Path) -> Result<Query, NoMemory> {
    let mut paths = PathList::new(alloc);
    paths.push(path)?;
    Ok(Query {
        filter: None,
        paths,
    })
}

// Asserts what is printed for an absent row.
fn check_absent(rt: &impl Abort, alloc: Global, text: &str, wanted: &[u8]) -> Result<(), Fail> {
    let query = query_of(alloc, parse_path(alloc, text)?)?;
    let mut printed = Vec::new(alloc);
    line(&mut printed, &query, None)?;
    assert_eq!(rt; printed.as_slice(), wanted);
    Ok(())
}

#[test]
fn an_absent_row_is_printed(rt: HostRuntime) -> Result<(), Fail> {
    check_absent(&rt, rt.alloc(), "$", b"{}\n")?;
    check_absent(&rt, rt.alloc(), "$.a", b"{}\n")?;
    check_absent(&rt, rt.alloc(), "$[*]", b"{\"$[*]\":[]}\n")
}

#[test]
fn a_filter_judges_an_absent_row(rt: HostRuntime) -> Result<(), Fail> {
    for (text, wanted) in [
        ("$ exists", false),
        ("$ missing", true),
        ("not $ = 1", true),
    ] {
        let filter = parse_filter(rt.alloc(), text)?;
        assert_eq!(&rt; holds(&filter, None), wanted, "{text}");
    }
    Ok(())
}
