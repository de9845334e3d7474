//! A file, opened.

ghost use Rattle.std.specs.Prelude.{◌≡◌, ◌≤◌, ◌+◌, ◌-◌, List, ℕ, [], ◌∷◌, length, IfOk, OnOk};
ghost use Rattle.vs_bytes.specs.Numbers.{part};
ghost use Rattle.footer_structs.specs.ReadFooters.{footer};
ghost use Rattle.thrift_footer.specs.Opening.{range, end_ranges, opening_ranges, size_in, opening, IsFile, Asks, Judges, IsRead, IsThere, IsMissing, IsUnopened};

use crate::file_ends::{LEAST_LEN, TAIL_LEN, footer_size};
use footer_structs::{FileMeta, read_footer};
use shelf::{Shelf, ShelfError};
use std::alloc::Global;
use thiserror::Error;
use vs_bytes::{NoMemory, Refused, Rule, Text};

/// Why a file wasn't opened.
#[derive(Clone, Copy, PartialEq, Eq, Debug, Drop, Error)]
pub enum OpenFault {
    /// There is no file of the name.
    #[error("no such file")]
    Absent,
    /// A read failed.
    #[error("access failed")]
    Failed,
    /// The file violates a rule.
    #[error("refused: {0:?}")]
    Refused(Rule),
    /// There was no memory.
    #[error("out of memory")]
    NoMemory,
}

/// A file that was opened.
#[derive(Drop)]
pub struct Opened {
    /// What its footer tells.
    pub meta: FileMeta,
    /// How many bytes it has.
    pub length: u64,
    /// The place of its footer's first byte.
    pub end: u64,
}

// Fills `into` with the bytes of a file from `at` on.
fn read_range<S: Shelf>(
    shelf: &mut S,
    name: &Text,
    at: u64,
    into: &mut [u8],
) -> Result<(), OpenFault>
    ensures asks { Asks (S.seen shelf.old) (S.seen shelf.new) name.now (λ file. range name.now at (length into.old) ∷ []) result }
    ensures bytes { OnOk result ((file : List ℕ) → IsFile (S.seen shelf.old).files name.now file → into.new ≡ part file at (length into.old)) }
    ensures read { IsRead result }
{
    match shelf.read_at(name, at, into) {
        Ok(()) => Ok(()),
        Err(ShelfError::NoMemory) => Err(OpenFault::NoMemory),
        Err(ShelfError::Failed) => Err(OpenFault::Failed),
        Err(ShelfError::Absent) => Err(OpenFault::Failed),
        Err(ShelfError::Taken) => Err(OpenFault::Failed),
    }
}

// Reads the last bytes of a file of `len` bytes, and then its first.
fn read_ends<S: Shelf>(
    shelf: &mut S,
    name: &Text,
    len: u64,
    front: &mut [u8],
    tail: &mut [u8],
) -> Result<(), OpenFault>
    requires long { 12 ≤ len }
    requires first { length front.old ≡ 4 }
    requires last { length tail.old ≡ 8 }
    ensures asks { Asks (S.seen shelf.old) (S.seen shelf.new) name.now (λ file. range name.now (len - 8) 8 ∷ range name.now 0 4 ∷ []) result }
    ensures front { OnOk result ((file : List ℕ) → IsFile (S.seen shelf.old).files name.now file → front.new ≡ part file 0 4) }
    ensures tail { OnOk result ((file : List ℕ) → IsFile (S.seen shelf.old).files name.now file → tail.new ≡ part file (len - 8) 8) }
    ensures read { IsRead result }
{
    match read_range(shelf, name, len - TAIL_LEN, tail) {
        Ok(()) => {}
        Err(fault) => return Err(fault),
    }
    match read_range(shelf, name, 0, front) {
        Ok(()) => Ok(()),
        Err(fault) => Err(fault),
    }
}

// How long the footer is of a file of `len` bytes.
#[tactic(auto, using(std::proofs::lemmas::Bool::Decides::nat_tests))]
fn read_size<S: Shelf>(shelf: &mut S, name: &Text, len: u64) -> Result<u64, OpenFault>
    requires known { (file : List ℕ) → IsFile (S.seen shelf.old).files name.now file → length file ≡ len }
    ensures asks { Asks (S.seen shelf.old) (S.seen shelf.new) name.now (λ file. end_ranges name.now len) result }
    ensures exact { (file : List ℕ) → IsFile (S.seen shelf.old).files name.now file → Judges (size_in file) result }
    ensures inside { IfOk result (λ size. size + 12 ≤ len) }
    ensures there { IsThere result }
{
    if len < LEAST_LEN {
        return Err(OpenFault::Refused(Rule::NotParquet));
    }
    let mut front = [0; 4];
    let mut tail = [0; 8];
    match read_ends(shelf, name, len, &mut front, &mut tail) {
        Ok(()) => {}
        Err(fault) => return Err(fault),
    }
    match footer_size(len, &front, &tail) {
        Ok(size) => Ok(size),
        Err(rule) => Err(OpenFault::Refused(rule)),
    }
}

// So many bytes, to be read into.
fn zeros(alloc: Global, size: usize) -> Result<Vec<u8>, NoMemory>
    ensures { IfOk result (λ bytes. length bytes.items ≡ size) }
{
    let mut bytes = Vec::new(alloc);
    bytes.resize(size, 0)?;
    Ok(bytes)
}

// `size` bytes of a file from `at` on.
fn read_bytes<S: Shelf>(
    alloc: Global,
    shelf: &mut S,
    name: &Text,
    at: u64,
    size: usize,
) -> Result<Vec<u8>, OpenFault>
    ensures asks { Asks (S.seen shelf.old) (S.seen shelf.new) name.now (λ file. range name.now at size ∷ []) result }
    ensures bytes { IfOk result (λ bytes. (file : List ℕ) → IsFile (S.seen shelf.old).files name.now file → bytes.items ≡ part file at size) }
    ensures read { IsRead result }
{
    let mut bytes = match zeros(alloc, size) {
        Ok(bytes) => bytes,
        Err(_) => return Err(OpenFault::NoMemory),
    };
    match read_range(shelf, name, at, bytes.as_mut_slice()) {
        Ok(()) => Ok(bytes),
        Err(fault) => Err(fault),
    }
}

// What the footer tells that takes `size` bytes from `at` on.
fn read_meta<S: Shelf>(
    alloc: Global,
    shelf: &mut S,
    name: &Text,
    at: u64,
    size: usize,
) -> Result<FileMeta, OpenFault>
    ensures asks { Asks (S.seen shelf.old) (S.seen shelf.new) name.now (λ file. range name.now at size ∷ []) result }
    ensures exact { (file : List ℕ) → IsFile (S.seen shelf.old).files name.now file → Judges (footer (part file at size)) result }
    ensures there { IsThere result }
{
    let bytes = match read_bytes(alloc, shelf, name, at, size) {
        Ok(bytes) => bytes,
        Err(fault) => return Err(fault),
    };
    match read_footer(alloc, bytes.as_slice()) {
        Ok(meta) => Ok(meta),
        Err(Refused::Fault(rule)) => Err(OpenFault::Refused(rule)),
        Err(Refused::NoMemory) => Err(OpenFault::NoMemory),
    }
}

// Opens a file of `len` bytes.
fn open_long<S: Shelf>(
    alloc: Global,
    shelf: &mut S,
    name: &Text,
    len: u64,
) -> Result<Opened, OpenFault>
    requires known { (file : List ℕ) → IsFile (S.seen shelf.old).files name.now file → length file ≡ len }
    ensures asks { Asks (S.seen shelf.old) (S.seen shelf.new) name.now (opening_ranges name.now) result }
    ensures exact { (file : List ℕ) → IsFile (S.seen shelf.old).files name.now file → Judges (opening file) result }
    ensures there { IsThere result }
{
    let size = match read_size(shelf, name, len) {
        Ok(size) => size,
        Err(fault) => return Err(fault),
    };
    let end = len - TAIL_LEN - size;
    match read_meta(alloc, shelf, name, end, size as usize) {
        Ok(meta) => Ok(Opened {
            meta,
            length: len,
            end,
        }),
        Err(fault) => Err(fault),
    }
}

/// Opens a file: reads its ends, and then its footer.
///
/// The violations are tried in this order. `NotParquet`: it has fewer than 12 bytes, or its first or last 4 aren't
/// `PAR1`. `FooterLength`: the footer is longer than 2^26 bytes or than what lies between the ends. Then those of
/// `read_footer`. A file that is too short isn't read, and nothing is read where there is none.
#[tactic(auto, using(crate::proofs::Asking::touched_kept, crate::proofs::Asking::touched_same))]
pub fn open_file<S: Shelf>(alloc: Global, shelf: &mut S, name: &Text) -> Result<Opened, OpenFault>
    ensures asks { Asks (S.seen shelf.old) (S.seen shelf.new) name.now (opening_ranges name.now) result }
    ensures exact { (file : List ℕ) → IsFile (S.seen shelf.old).files name.now file → Judges (opening file) result }
    ensures missing { IsMissing (S.seen shelf.old).files name.now → IsUnopened (S.seen shelf.old) (S.seen shelf.new) result }
{
    match shelf.length(name) {
        Ok(len) => open_long(alloc, shelf, name, len),
        Err(ShelfError::Absent) => Err(OpenFault::Absent),
        Err(ShelfError::NoMemory) => Err(OpenFault::NoMemory),
        Err(ShelfError::Failed) => Err(OpenFault::Failed),
        Err(ShelfError::Taken) => Err(OpenFault::Failed),
    }
}
