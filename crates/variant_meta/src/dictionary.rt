//! Dictionaries: the names of a Variant that is written.

ghost use Rattle.std.specs.Prelude.{◌≡◌, ◌↔◌, ◌<◌, ◌≤◌, ◌^◌, ◌++◌, ℕ, List, true, length, IfOk, OnOk, OnErr, SomeIff};
ghost use Rattle.std.specs.List.{Contains, concat};
ghost use Rattle.vs_bytes.specs.Outcome.{Grows};
ghost use Rattle.variant_meta.specs.Dictionaries.{IsDictionary, count_bound, bytes_bound};
ghost use Rattle.variant_meta.specs.Names.{name_at, names_rise, place_of, AllBefore, NoneBefore};
ghost use Rattle.variant_meta.specs.Written.{ends_from, numbers, written_size, written_header, metadata_of, coded_names};

use crate::layout::VERSION;
use crate::name_order::is_before;
use std::marker::Model;
use vs_bytes::{NoMemory, Text, append_number, width_of};

// The bit of sorted_strings in byte 0.
const SORTED: u8 = 16;

/// Names in the order of their bytes, each once. The place of a name is its id.
///
/// Contracts see a dictionary as the list of its names.
#[derive(Drop)]
pub struct Dictionary {
    names: Vec<Text>,
}

impl Model for Dictionary {
    ghost use Rattle.std.specs.Prelude.{List, ℕ};
    ghost use Rattle.variant_meta.specs.Dictionaries.{IsDictionary};

    ghost Value = { List (List ℕ) };

    ghost view = { λ d. d.names.items };

    ghost invariant = { λ d. IsDictionary d.names.items };
}

impl Dictionary {
    /// The dictionary of names, which may stand more than once and in any order. It takes no memory of its own.
    pub fn from_names(names: Vec<Text>) -> Result<Dictionary, NoMemory>
        requires few { length names.items < count_bound }
        requires small { length (concat names.items) < bytes_bound }
        ensures dictionary { IfOk result (λ d. IsDictionary d) }
        ensures same { IfOk result (λ d. (name : List ℕ) → Contains d name ↔ Contains names.items name) }
    {
        Ok(Dictionary {
            names: each_once(names),
        })
    }

    /// How many names there are.
    pub fn len(&self) -> usize
        ensures { result ≡ length self.now }
    {
        self.names.len()
    }

    /// The id of a name, or `None` where the name isn't there.
    #[tactic(auto, using(crate::proofs::Places::place_most))]
    pub fn id(&self, name: &str) -> Option<u32>
        ensures { SomeIff result (place_of self.now name.now < length self.now) (place_of self.now name.now) }
    {
        let place = search(self.names.as_slice(), name.as_bytes());
        if place == self.names.len() {
            return None;
        }
        Some(place as u32)
    }

    /// Appends the metadata of these names: sorted_strings set, and the numbers of `least` bytes, or of as many
    /// as they need. After an `Err` the bytes are as before.
    #[tactic(auto, unfolding(crate::specs::Written::coded_names))]
    pub fn write(&self, into: &mut Vec<u8>, least: u8) -> Result<(), NoMemory>
        requires least { 1 ≤ least }
        requires most { least ≤ 4 }
        ensures ok { OnOk result (into.new.items ≡ into.old.items ++ coded_names least self.now) }
        ensures err { OnErr result (into.new.items ≡ into.old.items) }
    {
        let before = into.len();
        let names = self.names.as_slice();
        let done = append_metadata(into, written_size(names, least), names);
        if done.is_err() {
            into.truncate(before);
        }
        done
    }
}

// The names in order, each once.
fn each_once(mut names: Vec<Text>) -> Vec<Text>
    requires few { length names.items < count_bound }
    requires small { length (concat names.items) < bytes_bound }
    ensures dictionary { IsDictionary result.items }
    ensures same { (name : List ℕ) → Contains result.items name ↔ Contains names.items name }
{
    names.sort_unstable();
    names.dedup();
    names
}

fn bytes_at(names: &[Text], i: usize) -> &[u8]
    requires { i < length names.now }
    ensures { result.now ≡ name_at names.now i }
{
    names[i].as_bytes()
}

// The least place of a name that doesn't come before `name`, or the count of all.
#[tactic(auto, using(crate::proofs::Places::raise, crate::proofs::Places::lower))]
fn lower_bound(names: &[Text], name: &[u8]) -> usize
    requires { names_rise names.now ≡ true }
    ensures most { result ≤ length names.now }
    ensures before { AllBefore names.now name.now result }
    ensures after { NoneBefore names.now name.now result }
{
    let mut low = 0;
    let mut high = names.len();
    while low < high {
        let middle = low + (high - low) / 2;
        if is_before(bytes_at(names, middle), name) {
            low = middle + 1;
        } else {
            high = middle;
        }
    }
    low
}

// The place of a name, or the count of all where it isn't among them.
#[tactic(auto, using(crate::proofs::Places::found, crate::proofs::Places::absent_last, crate::proofs::Places::absent_here))]
fn search(names: &[Text], name: &[u8]) -> usize
    requires { names_rise names.now ≡ true }
    ensures { result ≡ place_of names.now name.now }
{
    let place = lower_bound(names, name);
    if place == names.len() {
        return place;
    }
    if bytes_at(names, place) == name {
        return place;
    }
    names.len()
}

// How many bytes the names have together.
fn total_len(names: &[Text]) -> u32
    requires { length (concat names.now) < bytes_bound }
    ensures { result ≡ length (concat names.now) }
{
    let mut total: u32 = 0;
    for name in names {
        total += name.as_bytes().len() as u32;
    }
    total
}

// The bytes of a number of the metadata.
#[tactic(auto, unfolding(crate::specs::Written::written_size))]
fn written_size(names: &[Text], least: u8) -> usize
    requires names { IsDictionary names.now }
    requires least { 1 ≤ least }
    requires most { least ≤ 4 }
    ensures value { result ≡ written_size least names.now }
    ensures least { 1 ≤ result }
    ensures most { result ≤ 4 }
    ensures count { length names.now < 256 ^ result }
    ensures bytes { length (concat names.now) < 256 ^ result }
{
    let greatest = (names.len() as u32).max(total_len(names));
    usize::from(least).max(width_of(greatest))
}

#[tactic(auto, unfolding(crate::specs::Written::written_header))]
fn header(size: usize) -> u8
    requires least { 1 ≤ size }
    requires most { size ≤ 4 }
    ensures { result ≡ written_header size }
{
    VERSION + SORTED + 64 * (size as u8 - 1)
}

#[tactic(auto, using(vs_bytes::proofs::Growing::grows_on))]
fn append_ends(into: &mut Vec<u8>, size: usize, names: &[Text]) -> Result<(), NoMemory>
    requires least { 1 ≤ size }
    requires most { size ≤ 4 }
    requires small { length (concat names.now) < bytes_bound }
    requires bytes { length (concat names.now) < 256 ^ size }
    ensures ok { OnOk result (into.new.items ≡ into.old.items ++ numbers size (ends_from 0 names.now)) }
    ensures grows { Grows into.old.items into.new.items }
{
    let mut end: u32 = 0;
    for name in names {
        end += name.as_bytes().len() as u32;
        append_number(into, size, end)?;
    }
    Ok(())
}

#[tactic(auto, using(vs_bytes::proofs::Growing::grows_more))]
fn append_names(into: &mut Vec<u8>, names: &[Text]) -> Result<(), NoMemory>
    ensures ok { OnOk result (into.new.items ≡ into.old.items ++ concat names.now) }
    ensures grows { Grows into.old.items into.new.items }
{
    for name in names {
        into.extend_from_slice(name.as_bytes())?;
    }
    Ok(())
}

#[tactic(auto, unfolding(crate::specs::Written::metadata_of))]
fn append_metadata(into: &mut Vec<u8>, size: usize, names: &[Text]) -> Result<(), NoMemory>
    requires names { IsDictionary names.now }
    requires least { 1 ≤ size }
    requires most { size ≤ 4 }
    requires count { length names.now < 256 ^ size }
    requires bytes { length (concat names.now) < 256 ^ size }
    ensures ok { OnOk result (into.new.items ≡ into.old.items ++ metadata_of size names.now) }
    ensures grows { Grows into.old.items into.new.items }
{
    into.push(header(size))?;
    append_number(into, size, names.len() as u32)?;
    append_number(into, size, 0)?;
    append_ends(into, size, names)?;
    append_names(into, names)?;
    Ok(())
}
