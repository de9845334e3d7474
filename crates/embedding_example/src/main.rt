//! How a Rust programmer calls the library: prints what a path finds in each line of the input.
#![tactic(auto)]

use exact_json::{DocFault, read_line};
use json_tree::{Tree, print};
use path_query::{Path, at, parse_path};
use std::alloc::Global;
use std::io;
use std::io::Write;
use vs_bytes::NoMemory;

/// Values in their canonical text, each on a line of its own.
fn lines_of(alloc: Global, values: &[&Tree]) -> Result<Vec<u8>, NoMemory> {
    let mut text = Vec::new(alloc);
    for value in values {
        print(&mut text, value)?;
        text.push(b'\n')?;
    }
    Ok(text)
}

/// The matches of a path in a JSON text, or the first fault of the text.
fn matches_in(alloc: Global, path: &Path, document: &str) -> Result<Vec<u8>, DocFault> {
    let tree = read_line(alloc, document.as_bytes())?;
    at(alloc, path, Some(&tree))
        .and_then(|found| lines_of(alloc, found.as_slice()))
        .map_err(|_| DocFault::NoMemory)
}

fn main(rt: HostRuntime) -> io::Result<()> {
    let alloc = rt.alloc();
    let Ok(path) = parse_path(alloc, "$.rooms[*].name") else {
        return println!(rt; "this is no path");
    };
    for line in rt.lines(alloc) {
        match matches_in(alloc, &path, line?.as_str()) {
            Ok(text) => rt.stdout().write_all(text.as_slice())?,
            Err(fault) => println!(rt; "refused: {}", fault.name())?,
        }
    }
    Ok(())
}
