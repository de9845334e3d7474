//! Readers of bytes that nobody wrote: each answers something, or names a rule.

ghost use Rattle.std.specs.Prelude.{◌≤◌};

use chunks::ChunkReader;
use hybrid_levels::{decode, measure};
use pages::read_page;
use std::alloc::Global;
use std::process::Abort;
use std::test::Fail;
use test_rows::column_of;
use thrift_compact::{Reader, read_page_header};
use thrift_structs::{ChunkDraft, read_struct};
use vs_bytes::{Bytes, Leaf, NoMemory, Refused, rest};

// A linear congruential generator (Numerical Recipes): its high bits are used.
fn next_state(state: u32) -> u32 {
    state.wrapping_mul(1_664_525).wrapping_add(1_013_904_223)
}

// So many bytes. Half of them are below 32, so that headers, types and lengths come often.
fn some_bytes(alloc: Global, seed: u32, len: usize) -> Result<Vec<u8>, NoMemory> {
    let mut bytes = Vec::new(alloc);
    let mut state = seed;
    for _i in 0..len {
        state = next_state(state);
        let byte = (state >> 24) as u8;
        if state >> 23 & 1 == 0 {
            bytes.push(byte)?;
        } else {
            bytes.push(byte % 32)?;
        }
    }
    Ok(bytes)
}

// The columns that are read from any bytes in turn.
fn leaf_of(turn: u32) -> Leaf {
    let name = match turn % 6 {
        0 => "boolean",
        1 => "int32",
        2 => "int64",
        3 => "text",
        4 => "decimal",
        _ => "fixed 2",
    };
    let column = column_of(name);
    Leaf {
        rep: (turn / 6 % 3) as u16,
        def: (turn / 18 % 4) as u16,
        phys: column.phys,
        prim: column.prim,
    }
}

// How many fields are passed over, up to the stop or the first rule.
fn field_count(bytes: &[u8]) -> usize {
    let mut reader = Reader::new(bytes);
    for count in 0..bytes.len() {
        match reader.field() {
            Ok(Some((_, kind))) => {
                if reader.skip(kind).is_err() {
                    return count;
                }
            }
            _ => return count,
        }
    }
    bytes.len()
}

// Whether both calls on runs find the same.
fn runs_agree(width: u8, bytes: &[u8]) -> bool
    requires { width ≤ 32 }
{
    let mut numbers = [0u32; 100];
    decode(width, bytes, &mut numbers) == measure(width, 100, bytes)
}

// What is read of a body by a header that isn't its own.
fn read_body(alloc: Global, leaf: &Leaf, bytes: &[u8]) -> Result<usize, NoMemory> {
    let Ok((header, used)) = read_page_header(bytes) else {
        return Ok(0);
    };
    match read_page(alloc, leaf, &header, rest(bytes, used)) {
        Ok(entries) => Ok(entries.len()),
        Err(Refused::Fault(_)) => Ok(0),
        Err(Refused::NoMemory) => Err(NoMemory),
    }
}

fn read_metadata(alloc: Global, bytes: &[u8]) -> Result<(), NoMemory> {
    match read_struct::<ChunkDraft>(alloc, bytes) {
        Err(Refused::NoMemory) => Err(NoMemory),
        _ => Ok(()),
    }
}

// How many entries a chunk of one entry has, or none where it violates a rule.
fn read_chunk(alloc: Global, leaf: Leaf, bytes: Vec<u8>) -> Result<usize, NoMemory> {
    match ChunkReader::new(Bytes::from_vec(bytes)?, leaf, 1).into_entries(alloc) {
        Ok(mut entries) => Ok(entries.take(alloc, 2)?.len()),
        Err(Refused::Fault(_)) => Ok(0),
        Err(Refused::NoMemory) => Err(NoMemory),
    }
}

fn read_all(alloc: Global, turn: u32) -> Result<bool, NoMemory> {
    let bytes = some_bytes(alloc, turn, (turn % 60) as usize)?;
    let leaf = leaf_of(turn);
    let _fields = field_count(&bytes);
    let _entries = read_body(alloc, &leaf, &bytes)?;
    read_metadata(alloc, &bytes)?;
    let agree = runs_agree((turn % 33) as u8, &bytes);
    let _entries = read_chunk(alloc, leaf, bytes)?;
    Ok(agree)
}

#[test]
fn any_bytes_are_read_or_violate_a_rule(rt: HostRuntime) -> Result<(), Fail> {
    for turn in 0..10_000u32 {
        let agree = read_all(rt.alloc(), turn)?;
        assert!(&rt; agree);
    }
    Ok(())
}

// A page of one entry: a header of 17 bytes, the definition levels with their length, and an integer.
const PAGE: [u8; 32] =
    *b"\x15\x00\x15\x1e\x15\x1e\x2c\x15\x02\x15\x00\x15\x06\x15\x06\x00\x00\x03\x00\x00\x00\x03\x03\x00\x09\x00\x00\x00\x00\x00\x00\x00";

// The page with one byte that is another.
fn changed(alloc: Global, at: usize, byte: u8) -> Result<Vec<u8>, NoMemory> {
    let mut bytes = Vec::from_slice(alloc, &PAGE)?;
    if at < bytes.len() {
        bytes[at] = byte;
    }
    Ok(bytes)
}

// How many of the 256 pages are read that differ at a place.
fn read_count(alloc: Global, at: usize) -> Result<usize, NoMemory> {
    let leaf = Leaf {
        rep: 0,
        def: 3,
        ..column_of("int64")
    };
    let mut count: usize = 0;
    for byte in 0..=255u8 {
        let read = read_chunk(alloc, leaf, changed(alloc, at, byte)?)?;
        count = count.saturating_add(read);
    }
    Ok(count)
}

// Each byte of the value may be any, and so may both bytes of the group of levels: two bits are no level above 3, and
// the other numbers fill up the group. Any other byte has some values with which the page isn't read.
#[test]
fn a_page_with_one_other_byte_is_read_or_violates_a_rule(rt: HostRuntime) -> Result<(), Fail> {
    for at in 0..32usize {
        let count = read_count(rt.alloc(), at)?;
        if at >= 22 {
            assert!(&rt; count == 256);
        } else {
            assert!(&rt; 1 <= count && count < 256);
        }
    }
    Ok(())
}
