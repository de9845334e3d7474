//! Chunks of one page, and of two.

ghost use Rattle.std.specs.Prelude.{◌≡◌, [], ◌∷◌, pos, Some, IfOk};
ghost use Rattle.vs_bytes.specs.declared.leaf_columns.Cell.TheVariants as cell;
ghost use Rattle.pages.specs.Bodies.{entry};

use chunks::{ChunkReader, write_chunk};
use std::alloc::Global;
use std::process::Abort;
use std::test::Fail;
use vs_bytes::{Bytes, Cell, Entry, Leaf, NoMemory, Phys, Prim};

// A column of optional INT64 values whose definition levels reach 3.
const INTEGERS: Leaf = Leaf {
    rep: 0,
    def: 3,
    phys: Phys::Int64,
    prim: Prim::Int64,
};

fn nine() -> Entry
    ensures { result ≡ entry 0 3 (Some (cell.Num (pos 9))) }
{
    Entry {
        rep: 0,
        def: 3,
        value: Some(Cell::Num(9)),
    }
}

fn one_value(alloc: Global) -> Result<Vec<Entry>, NoMemory>
    ensures { IfOk result (λ entries. entries.items ≡ entry 0 3 (Some (cell.Num (pos 9))) ∷ []) }
{
    let mut entries = Vec::new(alloc);
    entries.push(nine())?;
    Ok(entries)
}

fn three_values(alloc: Global) -> Result<Vec<Entry>, NoMemory>
    ensures { IfOk result (λ entries. entries.items ≡ entry 0 3 (Some (cell.Num (pos 9))) ∷ (entry 0 3 (Some (cell.Num (pos 9))) ∷ (entry 0 3 (Some (cell.Num (pos 9))) ∷ []))) }
{
    let mut entries = Vec::new(alloc);
    entries.push(nine())?;
    entries.push(nine())?;
    entries.push(nine())?;
    Ok(entries)
}

#[tactic(auto, using(crate::proofs::Given::one_is, crate::proofs::Given::one_light))]
fn one_page(alloc: Global) -> Result<Bytes, NoMemory> {
    let entries = one_value(alloc)?;
    write_chunk(alloc, &INTEGERS, &entries, 1_048_576)
}

// Each value weighs 12, so the second row takes a page to 24.
#[tactic(auto, using(crate::proofs::Given::three_are, crate::proofs::Given::three_light))]
fn two_pages(alloc: Global) -> Result<Bytes, NoMemory> {
    let entries = three_values(alloc)?;
    write_chunk(alloc, &INTEGERS, &entries, 24)
}

// How many entries the next page has, and 0 at the end or of a rule.
fn next_len(alloc: Global, reader: &mut ChunkReader) -> usize {
    match reader.next(alloc) {
        Ok(Some(page)) => page.len(),
        _ => 0,
    }
}

// The header has a page of kind 0, twice 15 bytes of body, and inside it 1 entry in PLAIN (0) with levels in RLE (3).
// The body has 3 bytes of definition levels, one group in which the first level is 3, then the value.
#[test]
fn one_value_is_a_page_of_32_bytes(rt: HostRuntime) -> Result<(), Fail> {
    let chunk = one_page(rt.alloc())?;
    assert_eq!(&rt;
        chunk.as_slice(),
        b"\x15\x00\x15\x1e\x15\x1e\x2c\x15\x02\x15\x00\x15\x06\x15\x06\x00\x00\x03\x00\x00\x00\x03\x03\x00\x09\x00\x00\x00\x00\x00\x00\x00".as_slice()
    );
    Ok(())
}

#[test]
fn three_rows_are_two_pages(rt: HostRuntime) -> Result<(), Fail> {
    let mut reader = ChunkReader::new(two_pages(rt.alloc())?, INTEGERS, 3);
    assert_eq!(&rt; next_len(rt.alloc(), &mut reader), 2);
    assert_eq!(&rt; next_len(rt.alloc(), &mut reader), 1);
    assert!(&rt; matches!(reader.next(rt.alloc()), Ok(None)));
    Ok(())
}
