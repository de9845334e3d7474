//! Where the entries of a chunk are cut into pages.

ghost use Rattle.std.specs.Prelude.{◌≡◌, ◌+◌, ◌^◌, ◌<◌, ◌≤◌, length};
ghost use Rattle.std.specs.List.{All};
ghost use Rattle.plain_values.specs.Written.{IsArray, IsCell, array_written};
ghost use Rattle.pages.specs.Entries.{IsEntry};
ghost use Rattle.pages.specs.Written.{cell_weight, weight, weights};
ghost use Rattle.chunks.specs.PageCuts.{begins_page, later_len, page_len};

use vs_bytes::{Cell, Entry, Leaf, Phys, Prim};

// What an entry weighs beside the bytes of its value.
const ENTRY_WEIGHT: usize = 4;

// How many bytes the length of a cell takes in a BYTE_ARRAY.
const LENGTH_BYTES: usize = 4;

// How many bytes a decimal has in a BYTE_ARRAY.
const DECIMAL_BYTES: usize = 16;

#[tactic(auto, using(plain_values::proofs::Sizes::array_short, crate::proofs::Weights::truth_len, crate::proofs::Weights::number_len, crate::proofs::Weights::bytes_len))]
fn array_weight(kind: Prim, cell: &Cell) -> usize
    requires { IsArray kind cell.now }
    ensures value { result ≡ length (array_written cell.now) }
    ensures fits { result < 2 ^ 33 }
{
    match cell {
        Cell::Bool(_) => 0,
        Cell::Num(_) => LENGTH_BYTES + DECIMAL_BYTES,
        Cell::Bytes(bytes) => LENGTH_BYTES + bytes.as_slice().len(),
    }
}

#[tactic(auto, using(crate::proofs::Weights::integer_len, crate::proofs::Weights::fixed_len))]
fn cell_weight(leaf: &Leaf, cell: &Cell) -> usize
    requires { IsCell leaf.now.phys leaf.now.prim cell.now }
    ensures value { result ≡ cell_weight leaf.now.phys cell.now }
    ensures fits { result < 2 ^ 33 }
{
    match leaf.phys {
        Phys::Boolean => 1,
        Phys::Int32 => 4,
        Phys::Int64 => 8,
        Phys::Fixed(size) => size as usize,
        _ => array_weight(leaf.prim, cell),
    }
}

fn weight(leaf: &Leaf, entry: &Entry) -> usize
    requires { IsEntry leaf.now entry.now }
    ensures { result ≡ weight leaf.now.phys entry.now }
{
    match &entry.value {
        Some(cell) => ENTRY_WEIGHT + cell_weight(leaf, cell),
        None => ENTRY_WEIGHT,
    }
}

fn begins_page(page_bytes: u32, held: usize, entry: &Entry) -> bool
    ensures { result ≡ begins_page page_bytes held entry.now }
{
    entry.rep == 0 && page_bytes as usize <= held
}

// How many of the entries after those of a page that weighs so much belong to it.
#[tactic(auto, unfolding(crate::specs::PageCuts::later_len))]
fn later_len(leaf: &Leaf, page_bytes: u32, before: usize, later: &[Entry]) -> usize
    requires of { All (IsEntry leaf.now) later.now }
    requires light { before + weights leaf.now.phys later.now ≤ 1000000000 }
    ensures value { result ≡ later_len leaf.now.phys page_bytes before later.now }
    ensures within { result ≤ length later.now }
{
    let mut held = before;
    let mut len = 0;
    for entry in later {
        if begins_page(page_bytes, held, entry) {
            return len;
        }
        held += weight(leaf, entry);
        len += 1;
    }
    len
}

/// How many entries the first page has.
#[tactic(auto, using(crate::proofs::Weights::light_parts, crate::proofs::Weights::rest_are), unfolding(crate::specs::PageCuts::page_len))]
pub(crate) fn page_len(leaf: &Leaf, page_bytes: u32, entries: &[Entry]) -> usize
    requires of { All (IsEntry leaf.now) entries.now }
    requires light { weights leaf.now.phys entries.now ≤ 1000000000 }
    ensures value { result ≡ page_len leaf.now.phys page_bytes entries.now }
    ensures within { result ≤ length entries.now }
{
    match entries.split_first() {
        None => 0,
        Some((first, later)) => 1 + later_len(leaf, page_bytes, weight(leaf, first), later),
    }
}
