//! Pages of integers of 64 bits, a tenth of them missing.

ghost use Rattle.std.specs.Prelude.{◌≤◌, ◌<◌, IfOk};
ghost use Rattle.std.specs.List.{All};
ghost use Rattle.pages.specs.Entries.{IsEntry};
ghost use Rattle.pages.specs.Written.{weight, weights};
ghost use Rattle.column_cost.specs.Columns.{integers};

use crate::cells::INTEGERS;
use crate::numbers::COUNT;
use pages::{read_page, write_page};
use std::alloc::Global;
use thrift_compact::read_page_header;
use vs_bytes::{Cell, Entry, NoMemory, Refused, rest};

#[tactic(auto, using(crate::proofs::Given::entry_fits))]
fn entry(i: usize) -> Entry
    requires { i < 1000000 }
    ensures of { IsEntry integers result }
    ensures light { weight integers.phys result ≤ 12 }
{
    if i % 10 == 9 {
        return Entry {
            rep: 0,
            def: 0,
            value: None,
        };
    }
    Entry {
        rep: 0,
        def: 1,
        value: Some(Cell::Num(i as i128)),
    }
}

#[tactic(auto, using(crate::proofs::Given::entry_more, crate::proofs::Given::weight_more))]
fn entries(alloc: Global) -> Result<Vec<Entry>, NoMemory>
    ensures of { IfOk result (λ entries. All (IsEntry integers) entries.items) }
    ensures light { IfOk result (λ entries. weights integers.phys entries.items ≤ 1000000000) }
{
    let mut entries = Vec::with_capacity(alloc, COUNT)?;
    for i in 0..COUNT {
        entries.push(entry(i))?;
    }
    Ok(entries)
}

/// Writes a page so often. Answers how many entries were written.
pub(crate) fn write(alloc: Global, turns: u32) -> Result<usize, NoMemory> {
    let entries = entries(alloc)?;
    let mut bytes = Vec::new(alloc);
    let mut count: usize = 0;
    for _turn in 0..turns {
        bytes.clear();
        write_page(&mut bytes, alloc, &INTEGERS, &entries)?;
        count = count.saturating_add(entries.len());
    }
    Ok(count)
}

// How many entries a page has.
fn page_len(alloc: Global, page: &[u8]) -> Result<usize, NoMemory> {
    let Ok((header, used)) = read_page_header(page) else {
        return Ok(0);
    };
    match read_page(alloc, &INTEGERS, &header, rest(page, used)) {
        Ok(entries) => Ok(entries.len()),
        Err(Refused::NoMemory) => Err(NoMemory),
        Err(Refused::Fault(_)) => Ok(0),
    }
}

fn page(alloc: Global) -> Result<Vec<u8>, NoMemory> {
    let entries = entries(alloc)?;
    let mut bytes = Vec::new(alloc);
    write_page(&mut bytes, alloc, &INTEGERS, &entries)?;
    Ok(bytes)
}

/// Reads a page so often. Answers how many entries were read.
pub(crate) fn read(alloc: Global, turns: u32) -> Result<usize, NoMemory> {
    let page = page(alloc)?;
    let mut count: usize = 0;
    for _turn in 0..turns {
        count = count.saturating_add(page_len(alloc, &page)?);
    }
    Ok(count)
}
