//! What reading Variant bytes costs, for `make bench` to count: codes the document on the standard input, and then
//! views its bytes, or makes their tree, as often as the words say.
//!
//! Words: `view` or `tree`, and how often.
#![tactic(auto)]

use exact_json::read_line;
use json_tree::{Tree, depth, text_len};
use std::alloc::Global;
use std::{env, io};
use variant_meta::MetaRef;
use variant_read::{to_tree, view};
use variant_write::{Widths, dictionary_of, encode};
use vs_bytes::NoMemory;

const WIDTHS: Widths = Widths { offset: 1, id: 1 };

/// The two cells of a document.
#[derive(Drop)]
struct Cells {
    metadata: Vec<u8>,
    value: Vec<u8>,
}

/// The cells of a document that is short and flat enough for them.
fn cells_of(alloc: Global, tree: &Tree) -> Result<Option<Cells>, NoMemory> {
    if text_len(tree) > 16_777_216 || depth(tree) > 64 {
        return Ok(None);
    }
    let mut cells = Cells {
        metadata: Vec::new(alloc),
        value: Vec::new(alloc),
    };
    let dictionary = dictionary_of(alloc, tree)?;
    dictionary.write(&mut cells.metadata, WIDTHS.offset)?;
    encode(&mut cells.value, &dictionary, tree, WIDTHS)?;
    Ok(Some(cells))
}

// The turns differ in the containers around the value, so that no turn can be left out.
fn views(meta: MetaRef<'_>, bytes: &[u8], turns: u32) -> u32 {
    let mut refused: u32 = 0;
    for turn in 0..turns {
        if view(meta, bytes, (turn % 2) as u8).is_err() {
            refused = refused.saturating_add(1);
        }
    }
    refused
}

fn trees(alloc: Global, meta: MetaRef<'_>, bytes: &[u8], turns: u32) -> Result<u32, NoMemory> {
    let mut refused: u32 = 0;
    for turn in 0..turns {
        match view(meta, bytes, (turn % 2) as u8) {
            Ok(value) => {
                let _tree = to_tree(alloc, value)?;
            }
            Err(_) => refused = refused.saturating_add(1),
        }
    }
    Ok(refused)
}

/// How many turns were refused: none.
fn turns_over(alloc: Global, cells: &Cells, kind: &str, turns: u32) -> Result<u32, NoMemory> {
    match MetaRef::view(cells.metadata.as_slice()) {
        Ok(meta) => {
            if kind == "tree" {
                return trees(alloc, meta, cells.value.as_slice(), turns);
            }
            Ok(views(meta, cells.value.as_slice(), turns))
        }
        Err(_) => Ok(turns),
    }
}

/// The bytes of the document's value, and how many turns were refused.
fn cost(
    alloc: Global,
    document: &str,
    kind: &str,
    turns: u32,
) -> Result<Option<(usize, u32)>, NoMemory> {
    let Ok(tree) = read_line(alloc, document.as_bytes()) else {
        return Ok(None);
    };
    let Some(cells) = cells_of(alloc, &tree)? else {
        return Ok(None);
    };
    let refused = turns_over(alloc, &cells, kind, turns)?;
    Ok(Some((cells.value.len(), refused)))
}

fn main(rt: HostRuntime) -> io::Result<()> {
    let alloc = rt.alloc();
    let mut words = env::args(&rt)?.skip(1);
    let (Some(kind), Some(count)) = (words.next(), words.next()) else {
        return println!(rt; "usage: variant_cost view|tree TURNS");
    };
    let Ok(turns) = count.parse::<u32>() else {
        return println!(rt; "no number of turns");
    };
    for line in rt.lines(alloc) {
        match cost(alloc, line?.as_str(), kind.as_str(), turns) {
            Ok(Some((len, refused))) => println!(rt;
                "{} bytes, {} of {} refused",
                len, refused, turns
            )?,
            Ok(None) => println!(rt; "no document")?,
            Err(NoMemory) => println!(rt; "no memory")?,
        }
    }
    Ok(())
}
