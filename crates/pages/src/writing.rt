//! The body of a page, written.

ghost use Rattle.std.specs.Prelude.{◌≡◌, ◌<◌, ◌≤◌, ◌^◌, ◌++◌, ℕ, length, map, slice_index, IfOk, OnOk, OnErr};
ghost use Rattle.std.specs.List.{All, flat_map};
ghost use Rattle.vs_bytes.specs.Outcome.{Grows};
ghost use Rattle.hybrid_levels.specs.Written.{encoded};
ghost use Rattle.plain_values.specs.Written.{cell_written, booleans_written, plain_written};
ghost use Rattle.pages.specs.Entries.{rep_levels, def_levels, values, IsEntry};
ghost use Rattle.pages.specs.Levels.{level_width};
ghost use Rattle.pages.specs.Written.{as_truth, value_written, levels_written, body_written, header_of, header_written, page_written, weights};

use crate::levels::level_width;
use crate::reading::{DATA_PAGE, PLAIN, RLE};
use hybrid_levels::encode;
use plain_values::{append, append_cell};
use std::alloc::Global;
use thrift_compact::{DataHeader, PageHeader, write_page_header};
use vs_bytes::{Cell, Entry, Le, Leaf, NoMemory, Phys, Prim};

fn rep_levels(alloc: Global, entries: &[Entry]) -> Result<Vec<u32>, NoMemory>
    ensures { IfOk result (λ levels. levels.items ≡ rep_levels entries.now) }
{
    let mut levels = Vec::with_capacity(alloc, entries.len())?;
    for entry in entries {
        levels.push(u32::from(entry.rep))?;
    }
    Ok(levels)
}

fn def_levels(alloc: Global, entries: &[Entry]) -> Result<Vec<u32>, NoMemory>
    ensures { IfOk result (λ levels. levels.items ≡ def_levels entries.now) }
{
    let mut levels = Vec::with_capacity(alloc, entries.len())?;
    for entry in entries {
        levels.push(u32::from(entry.def))?;
    }
    Ok(levels)
}

#[tactic(auto, unfolding(crate::specs::Written::levels_written, crate::specs::Written::prefix_written))]
fn append_levels(
    into: &mut Vec<u8>,
    alloc: Global,
    maximum: u16,
    levels: &[u32],
) -> Result<(), NoMemory>
    requires fit { (k : ℕ) → slice_index levels.now k < 2 ^ level_width maximum }
    requires few { length levels.now < 2 ^ 31 }
    requires short { length (encoded (level_width maximum) levels.now) < 256 ^ 4 }
    ensures ok { OnOk result (into.new.items ≡ into.old.items ++ levels_written maximum levels.now) }
    ensures grows { Grows into.old.items into.new.items }
{
    if maximum == 0 {
        return Ok(());
    }
    let mut bytes = Vec::new(alloc);
    encode(&mut bytes, level_width(maximum), levels)?;
    Le::<4>::write(into, bytes.len() as u32)?;
    into.extend_from_slice(&bytes)?;
    Ok(())
}

#[inline(always)]
fn append_value(into: &mut Vec<u8>, leaf: &Leaf, entry: &Entry) -> Result<(), NoMemory>
    requires { IsEntry leaf.now entry.now }
    ensures ok { OnOk result (into.new.items ≡ into.old.items ++ value_written leaf.now.phys entry.now.value) }
    ensures grows { Grows into.old.items into.new.items }
{
    match &entry.value {
        Some(cell) => append_cell(into, leaf, cell),
        None => Ok(()),
    }
}

#[inline(always)]
#[tactic(auto, using(vs_bytes::proofs::Growing::grows_on))]
fn append_cells(into: &mut Vec<u8>, leaf: &Leaf, entries: &[Entry]) -> Result<(), NoMemory>
    requires { All (IsEntry leaf.now) entries.now }
    ensures ok { OnOk result (into.new.items ≡ into.old.items ++ flat_map (λ e. value_written leaf.now.phys e.value) entries.now) }
    ensures grows { Grows into.old.items into.new.items }
{
    for entry in entries {
        append_value(into, leaf, entry)?;
    }
    Ok(())
}

fn as_truth(cell: &Cell) -> Cell
    ensures { result ≡ as_truth cell.now }
{
    match cell {
        Cell::Bool(truth) => Cell::Bool(*truth),
        _ => Cell::Bool(false),
    }
}

fn truths(alloc: Global, entries: &[Entry]) -> Result<Vec<Cell>, NoMemory>
    ensures { IfOk result (λ cells. cells.items ≡ map as_truth (values entries.now)) }
{
    let mut cells = Vec::with_capacity(alloc, entries.len())?;
    for entry in entries {
        match &entry.value {
            Some(cell) => cells.push(as_truth(cell))?,
            None => {}
        }
    }
    Ok(cells)
}

#[tactic(auto, using(crate::proofs::Truths::truths_are, crate::proofs::Truths::truths_written))]
fn append_truths(into: &mut Vec<u8>, alloc: Global, entries: &[Entry]) -> Result<(), NoMemory>
    ensures ok { OnOk result (into.new.items ≡ into.old.items ++ booleans_written (values entries.now)) }
    ensures grows { Grows into.old.items into.new.items }
{
    let cells = truths(alloc, entries)?;
    let bits = Leaf {
        rep: 0,
        def: 0,
        phys: Phys::Boolean,
        prim: Prim::Boolean,
    };
    append(into, &bits, &cells)
}

// It is put in line where the type is known, so that integers have a loop of their own.
#[inline(always)]
fn append_plain(into: &mut Vec<u8>, leaf: &Leaf, entries: &[Entry]) -> Result<(), NoMemory>
    requires { All (IsEntry leaf.now) entries.now }
    ensures ok { OnOk result (into.new.items ≡ into.old.items ++ flat_map (cell_written leaf.now.phys) (values entries.now)) }
    ensures grows { Grows into.old.items into.new.items }
{
    match append_cells(into, leaf, entries) {
        Ok(()) => Ok(()),
        Err(error) => Err(error),
    }
}

fn append_values(
    into: &mut Vec<u8>,
    alloc: Global,
    leaf: &Leaf,
    entries: &[Entry],
) -> Result<(), NoMemory>
    requires { All (IsEntry leaf.now) entries.now }
    ensures ok { OnOk result (into.new.items ≡ into.old.items ++ plain_written leaf.now.phys (values entries.now)) }
    ensures grows { Grows into.old.items into.new.items }
{
    match leaf.phys {
        Phys::Boolean => append_truths(into, alloc, entries),
        Phys::Int64 => append_plain(into, &leaf.of_type(Phys::Int64), entries),
        _ => append_plain(into, leaf, entries),
    }
}

#[tactic(auto, using(crate::proofs::Fitting::reps_fit, crate::proofs::Fitting::reps_few, crate::proofs::Fitting::reps_short), unfolding(crate::specs::Written::levels_written))]
fn append_reps(
    into: &mut Vec<u8>,
    alloc: Global,
    leaf: &Leaf,
    entries: &[Entry],
) -> Result<(), NoMemory>
    requires of { All (IsEntry leaf.now) entries.now }
    requires few { length entries.now ≤ 1000000000 }
    ensures ok { OnOk result (into.new.items ≡ into.old.items ++ levels_written leaf.now.rep (rep_levels entries.now)) }
    ensures grows { Grows into.old.items into.new.items }
{
    if leaf.rep == 0 {
        return Ok(());
    }
    let levels = rep_levels(alloc, entries)?;
    append_levels(into, alloc, leaf.rep, &levels)
}

#[tactic(auto, using(crate::proofs::Fitting::defs_fit, crate::proofs::Fitting::defs_few, crate::proofs::Fitting::defs_short), unfolding(crate::specs::Written::levels_written))]
fn append_defs(
    into: &mut Vec<u8>,
    alloc: Global,
    leaf: &Leaf,
    entries: &[Entry],
) -> Result<(), NoMemory>
    requires of { All (IsEntry leaf.now) entries.now }
    requires few { length entries.now ≤ 1000000000 }
    ensures ok { OnOk result (into.new.items ≡ into.old.items ++ levels_written leaf.now.def (def_levels entries.now)) }
    ensures grows { Grows into.old.items into.new.items }
{
    if leaf.def == 0 {
        return Ok(());
    }
    let levels = def_levels(alloc, entries)?;
    append_levels(into, alloc, leaf.def, &levels)
}

#[tactic(auto, using(vs_bytes::proofs::Growing::grows_on), unfolding(crate::specs::Written::body_written))]
fn append_body(
    into: &mut Vec<u8>,
    alloc: Global,
    leaf: &Leaf,
    entries: &[Entry],
) -> Result<(), NoMemory>
    requires of { All (IsEntry leaf.now) entries.now }
    requires few { length entries.now ≤ 1000000000 }
    ensures ok { OnOk result (into.new.items ≡ into.old.items ++ body_written leaf.now entries.now) }
    ensures grows { Grows into.old.items into.new.items }
{
    append_reps(into, alloc, leaf, entries)?;
    append_defs(into, alloc, leaf, entries)?;
    append_values(into, alloc, leaf, entries)
}

fn header_of(count: usize, size: usize) -> PageHeader
    requires few { count < 2 ^ 31 }
    requires short { size < 2 ^ 31 }
    ensures { result ≡ header_of count size }
{
    PageHeader {
        kind: DATA_PAGE,
        uncompressed_page_size: size as i32,
        compressed_page_size: size as i32,
        data_page_header: Some(DataHeader {
            num_values: count as i32,
            encoding: PLAIN,
            definition_level_encoding: RLE,
            repetition_level_encoding: RLE,
        }),
        dictionary_page_header: None,
        data_page_header_v2: None,
    }
}

#[tactic(auto, using(crate::proofs::PageBack::header_writable), unfolding(crate::specs::Written::header_written))]
fn append_header(into: &mut Vec<u8>, count: usize, size: usize) -> Result<(), NoMemory>
    requires few { count < 2 ^ 31 }
    requires short { size < 2 ^ 31 }
    ensures ok { OnOk result (into.new.items ≡ into.old.items ++ header_written count size) }
    ensures err { OnErr result (into.new.items ≡ into.old.items) }
{
    write_page_header(into, &header_of(count, size))
}

#[tactic(auto, using(crate::proofs::Light::few_entries, crate::proofs::Light::short_body), unfolding(crate::specs::Written::page_written))]
fn append_page(
    into: &mut Vec<u8>,
    alloc: Global,
    leaf: &Leaf,
    entries: &[Entry],
) -> Result<(), NoMemory>
    requires of { All (IsEntry leaf.now) entries.now }
    requires light { weights leaf.now.phys entries.now ≤ 1000000000 }
    ensures ok { OnOk result (into.new.items ≡ into.old.items ++ page_written leaf.now entries.now) }
    ensures grows { Grows into.old.items into.new.items }
{
    let mut body = Vec::new(alloc);
    append_body(&mut body, alloc, leaf, entries)?;
    append_header(into, entries.len(), body.len())?;
    into.extend_from_slice(&body)?;
    Ok(())
}

/// Appends a page, its header and its body, for entries of a leaf column. After an `Err` the bytes are as before.
///
/// Values are in PLAIN, levels in RLE. Memory of the body's size is taken for a while.
pub fn write_page(
    into: &mut Vec<u8>,
    alloc: Global,
    leaf: &Leaf,
    entries: &[Entry],
) -> Result<(), NoMemory>
    requires of { All (IsEntry leaf.now) entries.now }
    requires light { weights leaf.now.phys entries.now ≤ 1000000000 }
    ensures ok { OnOk result (into.new.items ≡ into.old.items ++ page_written leaf.now entries.now) }
    ensures err { OnErr result (into.new.items ≡ into.old.items) }
{
    let before = into.len();
    let done = append_page(into, alloc, leaf, entries);
    if done.is_err() {
        into.truncate(before);
    }
    done
}
