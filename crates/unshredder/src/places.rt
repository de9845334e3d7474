//! The places of an object's fields in the order of their names.

ghost use Rattle.std.specs.Prelude.{◌≡◌, ◌↔◌, map, IfOk, IsErrOf, IsTrue, IsPermutation};
ghost use Rattle.json_tree.specs.Json.{fields_of};
ghost use Rattle.json_tree.specs.Order.{sorted};
ghost use Rattle.json_tree.specs.View.{seen};
ghost use Rattle.vs_bytes.specs.Names.{repeats};

use crate::readings::Reading;
use json_tree::{Members, MembersFault, Tree};
use shred_schema::Node;
use sqlite_items::Items;
use std::alloc::Global;
use vs_bytes::{NoMemory, Text};

/// Moves: each of two places, whose members change places.
///
/// What members come of pairs doesn't rest on their order, so nothing but time rests on the moves.
pub(crate) type Moves = Items<(usize, usize)>;

// The names of the fields that are read, in their order, each with its place among these fields.
fn named_places<'a>(
    alloc: Global,
    fields: &'a [(Text, Node)],
    readings: &[Reading],
) -> Result<Vec<(&'a Text, usize)>, NoMemory> {
    let mut named = Vec::with_capacity(alloc, readings.len())?;
    for k in 0..readings.len() {
        if let Some(field) = fields.get(readings[k].place) {
            named.push((&field.0, k))?;
        }
    }
    named.sort_unstable_by(|a, b| a.0.cmp(b.0));
    Ok(named)
}

fn place_at(places: &[usize], k: usize) -> usize {
    match places.get(k) {
        Some(place) => *place,
        None => 0,
    }
}

fn set_place(places: &mut [usize], k: usize, place: usize) {
    if k < places.len() {
        places[k] = place;
    }
}

// Each number below `count`.
fn counted(alloc: Global, count: usize) -> Result<Vec<usize>, NoMemory> {
    let mut numbers = Vec::with_capacity(alloc, count)?;
    for k in 0..count {
        numbers.push(k)?;
    }
    Ok(numbers)
}

/// Moves by which the members of the fields that are read, in the order of the file, come into the order of their names.
pub(crate) fn moves_of(
    alloc: Global,
    fields: &[(Text, Node)],
    readings: &[Reading],
) -> Result<Moves, NoMemory> {
    let named = named_places(alloc, fields, readings)?;
    let mut members_at = counted(alloc, named.len())?;
    let mut places_of = counted(alloc, named.len())?;
    let mut moves = Items::new(alloc);
    for k in 0..named.len() {
        let from = place_at(places_of.as_slice(), named[k].1);
        if from != k {
            moves.push((k, from))?;
            let other = place_at(members_at.as_slice(), k);
            set_place(members_at.as_mut_slice(), from, other);
            set_place(places_of.as_mut_slice(), other, from);
        }
    }
    Ok(moves)
}

#[tactic(auto, using(crate::proofs::Moved::unmoved))]
fn change_places(pairs: &mut Vec<(Text, Tree)>, a: usize, b: usize)
    ensures { IsPermutation pairs.old.items pairs.new.items }
{
    if a < pairs.len() {
        if b < pairs.len() {
            pairs.swap(a, b);
        }
    }
}

// Makes the moves, each where its places are there.
#[tactic(auto, using(crate::proofs::Moved::unmoved))]
fn apply(pairs: &mut Vec<(Text, Tree)>, moves: &[(usize, usize)])
    ensures { IsPermutation pairs.old.items pairs.new.items }
{
    for k in 0..moves.len() {
        change_places(pairs, moves[k].0, moves[k].1);
    }
}

/// The members of an object, whatever the moves are. Moves that bring them into order spare sorting them.
pub(crate) fn members_of(
    pairs: Vec<(Text, Tree)>,
    moves: &[(usize, usize)],
) -> Result<Members, MembersFault>
    ensures ok { IfOk result (λ members. members ≡ fields_of (sorted (map seen pairs.items))) }
    ensures repeated { IsErrOf result MembersFault.Repeated ↔ IsTrue (repeats (map (λ pair. pair.0) pairs.items)) }
{
    let mut pairs = pairs;
    apply(&mut pairs, moves);
    match Members::from_pairs(pairs) {
        Ok(members) => {
            // Its clause says that the members' names rise, so that pairs in either order make the same members.
            let _pairs = members.as_slice();
            Ok(members)
        }
        Err(fault) => Err(fault),
    }
}
