//! The rows that are loaded, and what the commands answer of them.

use std::alloc::Global;
use test_files::load_file;
use vs_bytes::NoMemory;

/// Seven rows, which a load puts into groups of two.
pub const ROWS: &[u8] =
    b"{\"a\":1}\n{\"a\":\"x\"}\n{\"b\":3}\n[]\n{\"a\":5}\n6\n{\"a\":7,\"b\":[]}\n";

/// The words of the load, as a row has them.
pub const LOAD_ROW: &str = "load f --schema={a:int64} --group-rows=2";

/// The same words, one by one.
pub const LOAD: [&str; 4] = ["load", "f", "--schema={a:int64}", "--group-rows=2"];

pub const QUERY: [&str; 3] = ["query", "f", "$.a"];

/// What the query prints of the rows.
pub const ANSWER: &[u8] = b"{\"$.a\":1}\n{\"$.a\":\"x\"}\n{}\n{}\n{\"$.a\":5}\n{}\n{\"$.a\":7}\n";

pub const CHECK: [&str; 2] = ["check", "f"];

/// What the check prints of them.
pub const COUNTS: &[u8] = b"ok 4 groups 7 rows\n";

/// The file of some rows.
pub fn file_with(alloc: Global, rows: &[u8]) -> Result<Vec<u8>, NoMemory> {
    load_file(alloc, LOAD_ROW, rows)
}

/// How many lines some bytes end.
pub fn lf_count(bytes: &[u8]) -> usize {
    bytes.iter().filter(|byte| **byte == b'\n').count()
}

/// The first lines of some bytes, so many.
pub fn first_lines(bytes: &[u8], count: usize) -> &[u8] {
    for len in 0..bytes.len() {
        if lf_count(&bytes[..len]) == count {
            return &bytes[..len];
        }
    }
    bytes
}
