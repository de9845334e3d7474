//! A shelf in memory, whose files are known and whose faults are planned: for tests of what reads and
//! writes files, and of what a fault leaves.

ghost use Rattle.std.specs.Prelude.{◌≡◌, ◌<◌, ◌↔◌, ◌⊎◌, [], length, slice_get, Some, OnOk, OnErr, IsErrOf};
ghost use Rattle.std.specs.Option.{option_copied};
ghost use Rattle.std.specs.FinMap.{empty, get};
ghost use Rattle.shelf.specs.Storage.{Has, with_file, read_fault_more, write_fault_more};
ghost use Rattle.shelf.specs.Calls.{Measures, Reads, Creates, Adds};
ghost use Rattle.shelf.specs.Memory.{mem_files, mem_storage, plan_of, IsPlanned, Turns, IsOutside, counts_past};

use crate::byte_range::{ByteRange, keep_range};
use crate::call_plan::CallPlan;
use crate::memory_files::{add_empty, fill, find, grow, grow_half, put};
use crate::shelf::{Shelf, ShelfError};
use crate::tally::Counts;
use std::alloc::Global;
use std::collections::BTreeMap;
use vs_bytes::{NoMemory, Sequence, Text};

/// Files in memory.
#[derive(Drop)]
pub struct MemShelf {
    files: BTreeMap<Text, Vec<u8>>,
    touched: Sequence<ByteRange>,
    counts: Counts,
    plan: CallPlan,
    alloc: Global,
}

impl MemShelf {
    /// A shelf without files. The calls numbered in `failing` fail; calls are counted from 0, over all
    /// four kinds together.
    pub fn new(alloc: Global, failing: Vec<u64>) -> MemShelf
        ensures seen { mem_storage result ≡ record {
          files = Some empty;
          touched = [];
          counts = record { read_faults = 0; write_faults = 0; absences = 0; clashes = 0 };
        } }
        ensures plan { plan_of result ≡ record { failing = failing; calls = 0 } }
    {
        MemShelf {
            files: BTreeMap::new(alloc),
            touched: Sequence::new(alloc),
            counts: Counts::new(),
            plan: CallPlan::new(failing),
            alloc,
        }
    }

    /// Puts a file on the shelf, in the place of one of that name. It isn't a call of the shelf.
    pub fn put(&mut self, name: Text, bytes: Vec<u8>) -> Result<(), NoMemory>
        ensures ok { OnOk result (mem_storage self.new
            ≡ record (mem_storage self.old) { files = with_file (mem_storage self.old).files name bytes.items }) }
        ensures err { OnErr result (mem_storage self.new ≡ mem_storage self.old) }
        ensures plan { plan_of self.new ≡ plan_of self.old }
    {
        put(&mut self.files, name, bytes)
    }

    /// The bytes of a file.
    pub fn bytes(&self, name: &Text) -> Option<&[u8]>
        ensures { option_copied result ≡ get (mem_files self.now) name.now }
    {
        find(&self.files, name)
    }

    /// How many ranges were asked for.
    pub fn touched_len(&self) -> usize
        ensures { result ≡ length (mem_storage self.now).touched }
    {
        self.touched.len()
    }

    /// A range that was asked for: the file's name, the place and the length in bytes.
    pub fn touched_at(&self, k: usize) -> (&Text, u64, u64)
        requires { k < length (mem_storage self.now).touched }
        ensures { slice_get (mem_storage self.now).touched k
            ≡ Some (record { name = result.0.now; at = result.1; size = result.2 }) }
    {
        let range = self.touched.at(k);
        (&range.name, range.at, range.size)
    }

    /// How many reads failed.
    pub fn read_faults(&self) -> u64
        ensures { result ≡ (mem_storage self.now).counts.read_faults }
    {
        self.counts.read_faults
    }

    /// How many writes failed.
    pub fn write_faults(&self) -> u64
        ensures { result ≡ (mem_storage self.now).counts.write_faults }
    {
        self.counts.write_faults
    }

    /// How many files weren't there.
    pub fn absences(&self) -> u64
        ensures { result ≡ (mem_storage self.now).counts.absences }
    {
        self.counts.absences
    }

    /// How many files were there already.
    pub fn clashes(&self) -> u64
        ensures { result ≡ (mem_storage self.now).counts.clashes }
    {
        self.counts.clashes
    }
}

impl Shelf for MemShelf {
    ghost seen = { mem_storage };

    fn length(&mut self, name: &Text) -> Result<u64, ShelfError>
        ensures measures { Measures (mem_storage self.old) (mem_storage self.new) name.now result }
        ensures counts { (mem_storage self.new).counts ≡ counts_past read_fault_more (mem_storage self.old).counts result }
        ensures plan { Turns (plan_of self.old) (plan_of self.new) }
        ensures planned { IsErrOf result ShelfError.Failed ↔ IsPlanned (plan_of self.old) }
    {
        if self.plan.next_fails() {
            return Err(self.counts.read_fault());
        }
        match find(&self.files, name) {
            Some(bytes) => Ok(bytes.len() as u64),
            None => Err(self.counts.absence()),
        }
    }

    fn read_at(&mut self, name: &Text, at: u64, into: &mut [u8]) -> Result<(), ShelfError>
        ensures reads { Reads (mem_storage self.old) (mem_storage self.new) (record {
          name = name.now;
          at = at;
          size = length into.old;
        }) into.new result }
        ensures counts { (mem_storage self.new).counts ≡ counts_past read_fault_more (mem_storage self.old).counts result }
        ensures plan { Turns (plan_of self.old) (plan_of self.new) }
        ensures planned { IsPlanned (plan_of self.old)
            → IsErrOf result ShelfError.Failed ⊎ IsErrOf result ShelfError.NoMemory }
        ensures cause { IsErrOf result ShelfError.Failed
            → IsPlanned (plan_of self.old) ⊎ IsOutside (mem_files self.old) name.now at (length into.old) }
    {
        let fails = self.plan.next_fails();
        match keep_range(&mut self.touched, self.alloc, name, at, into.len() as u64) {
            Ok(()) => {}
            Err(_) => return Err(ShelfError::NoMemory),
        }
        if fails {
            return Err(self.counts.read_fault());
        }
        if fill(&self.files, name, at, into) {
            Ok(())
        } else {
            Err(self.counts.read_fault())
        }
    }

    fn create(&mut self, name: &Text) -> Result<(), ShelfError>
        ensures creates { Creates (mem_storage self.old) (mem_storage self.new) name.now result }
        ensures counts { (mem_storage self.new).counts ≡ counts_past write_fault_more (mem_storage self.old).counts result }
        ensures plan { Turns (plan_of self.old) (plan_of self.new) }
        ensures planned { IsErrOf result ShelfError.Failed ↔ IsPlanned (plan_of self.old) }
    {
        if self.plan.next_fails() {
            return Err(self.counts.write_fault());
        }
        if find(&self.files, name).is_some() {
            return Err(self.counts.clash());
        }
        match add_empty(&mut self.files, self.alloc, name) {
            Ok(()) => Ok(()),
            Err(_) => Err(ShelfError::NoMemory),
        }
    }

    /// A call that is to fail adds the first half of the bytes, where there is memory for them.
    #[tactic(auto, using(crate::proofs::Adding::adds_failed, crate::proofs::Adding::adds_nothing))]
    fn append(&mut self, name: &Text, bytes: &[u8]) -> Result<(), ShelfError>
        requires there { Has (mem_storage self.old).files name.now }
        ensures adds { Adds (mem_storage self.old) (mem_storage self.new) name.now bytes.now result }
        ensures counts { (mem_storage self.new).counts ≡ counts_past write_fault_more (mem_storage self.old).counts result }
        ensures plan { Turns (plan_of self.old) (plan_of self.new) }
        ensures planned { IsErrOf result ShelfError.Failed ↔ IsPlanned (plan_of self.old) }
    {
        if self.plan.next_fails() {
            grow_half(&mut self.files, name, bytes);
            return Err(self.counts.write_fault());
        }
        match grow(&mut self.files, name, bytes) {
            Ok(()) => Ok(()),
            Err(_) => Err(ShelfError::NoMemory),
        }
    }
}
