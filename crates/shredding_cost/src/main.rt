//! What shredding costs, for `make bench` to count: shreds the document on the standard input by a schema, or reads its
//! record again, as often as the words say.
//!
//! Words: `shred`, `read` (with each leaf) or the number of the one leaf to read, how often, and the schema.
#![tactic(auto)]

mod turns;

use json_tree::text_len;
use std::alloc::Global;
use std::{env, io};
use test_records::{document_tree, schema_node};
use test_rows::Wrong;

// The bytes of the document's text, and how many rows were made or read.
fn spent(
    alloc: Global,
    document: &str,
    schema: &str,
    what: &str,
    turns: u32,
) -> Result<(u64, usize), Wrong> {
    let node = schema_node(alloc, schema)?;
    let tree = document_tree(alloc, document)?;
    let rows = match what {
        "shred" => turns::shred_often(alloc, &node, &tree, turns)?,
        "read" => turns::read_often(alloc, node, &tree, None, turns)?,
        leaf => turns::read_often(alloc, node, &tree, leaf.parse::<usize>().ok(), turns)?,
    };
    Ok((text_len(&tree), rows))
}

fn main(rt: HostRuntime) -> io::Result<()> {
    let alloc = rt.alloc();
    let mut words = env::args(&rt)?.skip(1);
    let (Some(what), Some(count), Some(schema)) = (words.next(), words.next(), words.next()) else {
        return println!(rt; "usage: shredding_cost shred|read|LEAF TURNS SCHEMA");
    };
    let Ok(turns) = count.parse::<u32>() else {
        return println!(rt; "no number of turns");
    };
    for line in rt.lines(alloc) {
        match spent(alloc, line?.as_str(), schema.as_str(), what.as_str(), turns) {
            Ok((len, rows)) => println!(rt; "{} bytes, {} rows", len, rows)?,
            Err(Wrong::NoMemory) => println!(rt; "no memory")?,
            Err(_) => println!(rt; "no document or schema")?,
        }
    }
    Ok(())
}
