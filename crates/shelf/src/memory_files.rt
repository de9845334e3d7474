//! Files by their names, in a map.

ghost use Rattle.std.specs.Prelude.{◌≡◌, ◌++◌, [], length, OnOk, OnErr, unwrap_or, IsSome};
ghost use Rattle.std.specs.Option.{option_copied};
ghost use Rattle.std.specs.FinMap.{get, insert};
ghost use Rattle.std.specs.Bool.{OnTrue, OnFalse};
ghost use Rattle.shelf.specs.Storage.{Stands};
ghost use Rattle.shelf.specs.Memory.{shown, IsOutside, GainsPrefix};

use std::alloc::Global;
use std::collections::BTreeMap;
use vs_bytes::{NoMemory, Text, cut};

/// The bytes of a file.
#[tactic(auto, using(crate::proofs::FileMaps::get_shown))]
pub fn find<'a>(files: &'a BTreeMap<Text, Vec<u8>>, name: &Text) -> Option<&'a [u8]>
    ensures { option_copied result ≡ get (shown files.now) name.now }
{
    match files.get(name) {
        Some(bytes) => Some(bytes.as_slice()),
        None => None,
    }
}

/// Puts a file in the place of one of that name, or beside the others.
#[tactic(auto, using(crate::proofs::FileMaps::shown_insert, crate::proofs::FileMaps::same_shown))]
pub fn put(files: &mut BTreeMap<Text, Vec<u8>>, name: Text, bytes: Vec<u8>) -> Result<(), NoMemory>
    ensures ok { OnOk result (shown files.new ≡ insert (shown files.old) name bytes.items) }
    ensures err { OnErr result (shown files.new ≡ shown files.old) }
{
    files.insert(name, bytes)?;
    Ok(())
}

/// Puts a file without bytes beside the others.
pub fn add_empty(
    files: &mut BTreeMap<Text, Vec<u8>>,
    alloc: Global,
    name: &Text,
) -> Result<(), NoMemory>
    ensures ok { OnOk result (shown files.new ≡ insert (shown files.old) name.now []) }
    ensures err { OnErr result (shown files.new ≡ shown files.old) }
{
    let copy = Text::from_str(alloc, name.as_str())?;
    put(files, copy, Vec::new(alloc))
}

/// Adds bytes at the end of a file that is there.
#[tactic(auto, using(crate::proofs::FileMaps::shown_insert, crate::proofs::FileMaps::get_shown))]
pub fn grow(files: &mut BTreeMap<Text, Vec<u8>>, name: &Text, bytes: &[u8]) -> Result<(), NoMemory>
    requires { IsSome (get (shown files.old) name.now) }
    ensures ok { OnOk result (shown files.new ≡ insert (shown files.old) name.now (unwrap_or (get (shown files.old) name.now) [] ++ bytes.now)) }
    ensures err { OnErr result (shown files.new ≡ shown files.old) }
{
    match files.get_mut(name) {
        Some(file) => match file.extend_from_slice(bytes) {
            Ok(()) => Ok(()),
            Err(_) => Err(NoMemory),
        },
        None => unreachable!(),
    }
}

/// Adds the first half of some bytes at the end of a file that is there, where there is memory for them.
#[tactic(auto, using(crate::proofs::Appending::gains_none, crate::proofs::Appending::gains_part))]
pub fn grow_half(files: &mut BTreeMap<Text, Vec<u8>>, name: &Text, bytes: &[u8])
    requires { IsSome (get (shown files.old) name.now) }
    ensures { GainsPrefix (shown files.old) (shown files.new) name.now bytes.now }
{
    match grow(files, name, &bytes[..bytes.len() / 2]) {
        Ok(()) => {}
        Err(_) => {}
    }
}

/// Fills `into` with the bytes of a file from `at` on, or answers that they aren't all there.
pub fn fill(files: &BTreeMap<Text, Vec<u8>>, name: &Text, at: u64, into: &mut [u8]) -> bool
    ensures shows { OnTrue result (Stands (shown files.now) name.now at into.new) }
    ensures outside { OnFalse result (IsOutside (shown files.now) name.now at (length into.old)) }
{
    let Some(bytes) = find(files, name) else {
        return false;
    };
    match cut(bytes, at as usize, into.len()) {
        Some(part) => {
            into.copy_from_slice(part);
            true
        }
        None => false,
    }
}
