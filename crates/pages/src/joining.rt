//! Entries of levels and values.

ghost use Rattle.std.specs.Prelude.{◌≡◌, ◌≤◌, ◌<◌, ◌==◌, true, is_ok, length, drop, IfOk};
ghost use Rattle.vs_bytes.specs.Outcome.{Makes};
ghost use Rattle.plain_values.specs.Plain.{front_cell};
ghost use Rattle.pages.specs.Bodies.{joined};
ghost use Rattle.pages.specs.ReadInTurn.{one_more, entries_at_once};
ghost use Rattle.pages.specs.Shown.{shown};
ghost use Rattle.pages.specs.Waiting.{left, IsPiece};

use crate::levels::Levels;
use plain_values::{decode, front_cell};
use std::alloc::Global;
use vs_bytes::{Cells, Entry, EntryList, Leaf, NoMemory, Phys, Refusal, Refused, rest};

// The entries of `count` levels of both kinds, and of the values at the maximum definition level.
fn joined(
    alloc: Global,
    maximum: u16,
    count: usize,
    reps: &Levels,
    defs: &Levels,
    cells: Cells,
) -> Result<EntryList, NoMemory>
    requires reps { length (shown reps.now) ≡ count }
    requires defs { length (shown defs.now) ≡ count }
    ensures { IfOk result (λ entries. entries ≡ joined maximum (shown reps.now) (shown defs.now) cells) }
{
    let mut entries = Vec::with_capacity(alloc, count)?;
    let mut values = cells.into_vec().into_iter();
    for i in 0..count {
        let def = defs.at(i);
        let value = if def == maximum { values.next() } else { None };
        entries.push(Entry {
            rep: reps.at(i),
            def,
            value,
        })?;
    }
    Ok(EntryList::from_vec(entries))
}

/// The entries of `count` levels of both kinds, and of the values at the front of `bytes`, which are all read first.
pub(crate) fn entries_at_once(
    alloc: Global,
    leaf: &Leaf,
    count: usize,
    reps: &Levels,
    defs: &Levels,
    bytes: &[u8],
) -> Result<EntryList, Refusal>
    requires reps { length (shown reps.now) ≡ count }
    requires defs { length (shown defs.now) ≡ count }
    ensures { Makes (λ entries. entries) result (entries_at_once leaf.now (shown reps.now) (shown defs.now) bytes.now) }
{
    let cells = match decode(alloc, leaf, defs.count(leaf.def), bytes) {
        Ok(cells) => cells,
        Err(refusal) => return Err(refusal),
    };
    match joined(alloc, leaf.def, count, reps, defs, cells) {
        Ok(entries) => Ok(entries),
        Err(_) => Err(Refused::NoMemory),
    }
}

// One more entry, whose value is at the front of the bytes if it is due. Answers how many bytes that takes. Room is
// made first and each way has its own push, so that an entry is written where it stays.
#[inline(always)]
fn push_entry(
    alloc: Global,
    leaf: &Leaf,
    entries: &mut Vec<Entry>,
    rep: u16,
    def: u16,
    bytes: &[u8],
) -> Result<usize, Refusal>
    ensures exact { Makes (λ used. (entries.new.items, used)) result (one_more (front_cell leaf.now.phys leaf.now.prim) leaf.now.def rep def entries.old.items bytes.now) }
    ensures within { IfOk result (λ used. used ≤ length bytes.now) }
{
    match entries.reserve(1) {
        Ok(()) => (),
        Err(_) => return Err(Refused::NoMemory),
    }
    if def == leaf.def {
        let (cell, used) = match front_cell(alloc, leaf, bytes) {
            Ok(front) => front,
            Err(refusal) => return Err(refusal),
        };
        entries.push_reserved(Entry {
            rep,
            def,
            value: Some(cell),
        });
        Ok(used)
    } else {
        entries.push_reserved(Entry {
            rep,
            def,
            value: None,
        });
        Ok(0)
    }
}

// The entries from `from` on in front of `end` of a page that was judged, and how many bytes their values take.
#[inline(always)]
fn piece_in_turn(
    alloc: Global,
    leaf: &Leaf,
    reps: &Levels,
    defs: &Levels,
    from: usize,
    end: usize,
    bytes: &[u8],
) -> Result<(EntryList, usize), NoMemory>
    requires order { from ≤ end }
    requires reps { end ≤ length (shown reps.now) }
    requires defs { end ≤ length (shown defs.now) }
    requires good { is_ok (left leaf.now (drop from (shown reps.now)) (drop from (shown defs.now)) bytes.now) ≡ true }
    ensures { IfOk result (λ p. IsPiece leaf.now (shown reps.now) (shown defs.now) from end bytes.now p.0 p.1) }
{
    let mut entries = Vec::with_capacity(alloc, end - from)?;
    let mut at = 0;
    for i in from..end {
        let rep = reps.at(i);
        let def = defs.at(i);
        match push_entry(alloc, leaf, &mut entries, rep, def, rest(bytes, at)) {
            Ok(used) => at += used,
            Err(Refused::NoMemory) => return Err(NoMemory),
            Err(Refused::Fault(_)) => unreachable!(),
        }
    }
    Ok((EntryList::from_vec(entries), at))
}

/// The entries from `from` on in front of `end` of a page that was judged, and how many bytes of `bytes` their values
/// take.
#[inline(never)]
pub(crate) fn piece(
    alloc: Global,
    leaf: &Leaf,
    reps: &Levels,
    defs: &Levels,
    from: usize,
    end: usize,
    bytes: &[u8],
) -> Result<(EntryList, usize), NoMemory>
    requires order { from ≤ end }
    requires reps { end ≤ length (shown reps.now) }
    requires defs { end ≤ length (shown defs.now) }
    requires good { is_ok (left leaf.now (drop from (shown reps.now)) (drop from (shown defs.now)) bytes.now) ≡ true }
    ensures { IfOk result (λ p. IsPiece leaf.now (shown reps.now) (shown defs.now) from end bytes.now p.0 p.1) }
{
    match leaf.phys {
        Phys::Int32 => piece_in_turn(
            alloc,
            &leaf.of_type(Phys::Int32),
            reps,
            defs,
            from,
            end,
            bytes,
        ),
        Phys::Int64 => piece_in_turn(
            alloc,
            &leaf.of_type(Phys::Int64),
            reps,
            defs,
            from,
            end,
            bytes,
        ),
        Phys::ByteArray => piece_in_turn(
            alloc,
            &leaf.of_type(Phys::ByteArray),
            reps,
            defs,
            from,
            end,
            bytes,
        ),
        _ => piece_in_turn(alloc, leaf, reps, defs, from, end, bytes),
    }
}
