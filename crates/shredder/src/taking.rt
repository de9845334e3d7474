//! Members that fields take.

ghost use Rattle.std.specs.Prelude.{◌≡◌, length, map, IfOk, IsTrue, IsFalse};
ghost use Rattle.std.specs.Cmp.Lexicographic.{slice_cmp};
ghost use Rattle.std.specs.Option.{option_map};
ghost use Rattle.std.specs.Ordering.{nat_cmp};
ghost use Rattle.json_tree.specs.Json.{fields_of, names_of};
ghost use Rattle.json_tree.specs.Order.{NamesRise, member_of};
ghost use Rattle.json_tree.specs.View.{view, seen};
ghost use Rattle.shred_schema.specs.Groups.{no_groups};
ghost use Rattle.shredder.specs.Shredded.{unnamed};
ghost use Rattle.shredder.specs.Taken.{without, IsAt, IsApart, IsPlace};

use json_tree::{Members, Tree};
use std::alloc::Global;
use std::cmp::Ordering;
use vs_bytes::{NoMemory, Text};

// Among so few members looking at one after the other takes less time than a binary search.
const FEW: usize = 8;

/// Of each member of an object, whether no field has taken it yet.
#[derive(Drop)]
pub(crate) struct Kept {
    pub(crate) members: Vec<bool>,
    // The place after the member that was taken last, where the next one is looked for first.
    next: usize,
}

impl Kept {
    /// Of each member that no field has taken it.
    pub(crate) fn all(alloc: Global, members: &Members) -> Result<Kept, NoMemory>
        ensures { IfOk result (λ kept. kept.members.items ≡ unnamed no_groups members.now) }
    {
        Ok(Kept {
            members: all_kept(alloc, members.as_slice())?,
            next: 0,
        })
    }

    /// Gives the member of that name, if there is one, and marks it as taken.
    pub(crate) fn take<'a>(&mut self, members: &'a Members, name: &Text) -> Option<&'a Tree>
        requires { length self.old.members.items ≡ length (names_of members.now) }
        ensures value { option_map (λ tree. view tree.now) result ≡ member_of name.now members.now }
        ensures kept { self.new.members.items ≡ without name.now self.old.members.items members.now }
    {
        let pairs = members.as_slice();
        match place(pairs, name, self.next) {
            Some(i) => {
                self.members[i] = false;
                self.next = i + 1;
                Some(&pairs[i].1)
            }
            None => None,
        }
    }
}

fn all_kept(alloc: Global, pairs: &[(Text, Tree)]) -> Result<Vec<bool>, NoMemory>
    ensures { IfOk result (λ kept. kept.items ≡ unnamed no_groups (fields_of (map seen pairs.now))) }
{
    let mut kept = Vec::with_capacity(alloc, pairs.len())?;
    for _pair in pairs {
        kept.push(true)?;
    }
    Ok(kept)
}

// The place of the member of that name. The place `guess` is looked at first.
fn place(pairs: &[(Text, Tree)], name: &Text, guess: usize) -> Option<usize>
    requires rise { NamesRise (fields_of (map seen pairs.now)) }
    ensures { IsPlace name.now pairs.now result }
{
    if is_at(pairs, name, guess) {
        return Some(guess);
    }
    if pairs.len() <= FEW {
        return scan(pairs, name);
    }
    search(pairs, name)
}

// Whether the member of that name is there.
#[tactic(auto, using(crate::proofs::Taken::apart_past))]
fn is_at(pairs: &[(Text, Tree)], name: &Text, place: usize) -> bool
    ensures at { IsTrue result → IsAt name.now pairs.now place }
    ensures apart { IsFalse result → IsApart name.now pairs.now place }
{
    if place >= pairs.len() {
        return false;
    }
    pairs[place].0.as_bytes() == name.as_bytes()
}

// Looks at one member after the other.
#[tactic(auto, using(crate::proofs::Taken::past_none, crate::proofs::Taken::past_more, crate::proofs::Taken::past_all))]
fn scan(pairs: &[(Text, Tree)], name: &Text) -> Option<usize>
    ensures { IsPlace name.now pairs.now result }
{
    for place in 0..pairs.len() {
        if is_at(pairs, name, place) {
            return Some(place);
        }
    }
    None
}

fn search(pairs: &[(Text, Tree)], name: &Text) -> Option<usize>
    requires rise { NamesRise (fields_of (map seen pairs.now)) }
    ensures { IsPlace name.now pairs.now result }
{
    match pairs.binary_search_by(|pair| against_name(pair, name)) {
        Ok(i) => Some(i),
        Err(_) => None,
    }
}

fn against_name(pair: &(Text, Tree), name: &Text) -> Ordering
    ensures { result ≡ slice_cmp nat_cmp pair.now.0 name.now }
{
    pair.0.as_str().cmp(&name.as_str())
}
