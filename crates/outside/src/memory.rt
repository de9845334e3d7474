//! Sources and sinks in memory, whose contents are known and whose faults are planned: for tests of
//! what reads and writes in pieces, and of what a fault leaves.

ghost use Rattle.std.specs.Prelude.{◌≡◌, ◌<◌, ◌≤◌, ◌-◌, ◌^◌, List, ℕ, [], min, length, IfOk, IsErrOf};
ghost use Rattle.outside.specs.Calls.{Reads, Writes};
ghost use Rattle.outside.specs.Memory.{Given, Taken, Turns, source_device, sink_device};

use crate::fault_plan::FaultPlan;
use crate::sink::{Sink, SinkError};
use crate::source::{Source, SourceError};
use std::alloc::Global;
use std::marker::Model;

/// A source of bytes in memory, read in pieces.
#[derive(Drop)]
pub struct MemSource {
    bytes: Vec<u8>,
    at: usize,
    piece: usize,
    plan: FaultPlan,
}

impl Model for MemSource {
    ghost use Rattle.std.specs.Prelude.{◌<◌, ◌≤◌, drop, vec_len};
    ghost use Rattle.outside.specs.Memory.{Given};

    ghost Value = { Given };

    ghost view = { λ s. record { left = drop s.at s.bytes.items; piece = s.piece; plan = s.plan } };

    ghost invariant = { λ s. (s.at ≤ vec_len s.bytes) × (0 < s.piece) };
}

impl MemSource {
    /// A source of `bytes`, of which a call gives at most `piece`. The calls numbered in `failing`,
    /// counted from 0, fail.
    pub fn new(bytes: Vec<u8>, piece: usize, failing: Vec<u64>) -> MemSource
        requires { 0 < piece }
        ensures { result ≡ record {
          left = bytes.items;
          piece = piece;
          plan = record { failing = failing.items; calls = 0; faults = 0 };
        } }
    {
        MemSource {
            bytes,
            at: 0,
            piece,
            plan: FaultPlan::new(failing),
        }
    }

    /// How many calls have failed.
    pub fn faults(&self) -> u64
        ensures { result ≡ self.now.plan.faults }
    {
        self.plan.faults()
    }
}

impl Source for MemSource {
    ghost seen = { source_device };

    fn read(&mut self, into: &mut [u8]) -> Result<usize, SourceError>
        requires { 0 < length into.old }
        ensures reads { Reads (source_device self.old) (source_device self.new) into.new result }
        ensures plan { Turns self.old.plan self.new.plan (IsErrOf result SourceError.Failed) }
        ensures piece { IfOk result (λ count. count ≡ min (min self.old.piece (length into.old)) (length self.old.left)) }
        ensures pieces { self.new.piece ≡ self.old.piece }
    {
        if self.plan.next_fails() {
            return Err(SourceError::Failed);
        }
        let count = self.piece.min(into.len()).min(self.bytes.len() - self.at);
        into[..count].copy_from_slice(&self.bytes[self.at..self.at + count]);
        self.at += count;
        Ok(count)
    }
}

/// A sink that keeps the bytes in memory.
#[derive(Drop)]
pub struct MemSink {
    bytes: Vec<u8>,
    piece: usize,
    plan: FaultPlan,
}

impl Model for MemSink {
    ghost use Rattle.std.specs.Prelude.{◌<◌};
    ghost use Rattle.outside.specs.Memory.{Taken};

    ghost Value = { Taken };

    ghost view = { λ s. record { written = s.bytes.items; piece = s.piece; plan = s.plan } };

    ghost invariant = { λ s. 0 < s.piece };
}

impl MemSink {
    /// A sink that holds nothing, and takes whole pieces. The calls numbered in `failing`, counted
    /// from 0, fail.
    pub fn new(alloc: Global, failing: Vec<u64>) -> MemSink
        ensures { result ≡ record {
          written = [];
          piece = 2 ^ 64 - 1;
          plan = record { failing = failing.items; calls = 0; faults = 0 };
        } }
    {
        MemSink::in_pieces(alloc, usize::MAX, failing)
    }

    /// The same, of which a call takes at most `piece` bytes.
    pub fn in_pieces(alloc: Global, piece: usize, failing: Vec<u64>) -> MemSink
        requires { 0 < piece }
        ensures { result ≡ record {
          written = [];
          piece = piece;
          plan = record { failing = failing.items; calls = 0; faults = 0 };
        } }
    {
        MemSink {
            bytes: Vec::new(alloc),
            piece,
            plan: FaultPlan::new(failing),
        }
    }

    /// What was written.
    pub fn bytes(&self) -> &[u8]
        ensures { result.now ≡ self.now.written }
    {
        self.bytes.as_slice()
    }

    /// How many calls have failed. A call that found no memory isn't counted.
    pub fn faults(&self) -> u64
        ensures { result ≡ self.now.plan.faults }
    {
        self.plan.faults()
    }
}

impl Sink for MemSink {
    ghost seen = { sink_device };

    fn write(&mut self, bytes: &[u8]) -> Result<usize, SinkError>
        requires { 0 < length bytes.now }
        ensures writes { Writes (sink_device self.old) (sink_device self.new) bytes.now result }
        ensures plan { Turns self.old.plan self.new.plan (IsErrOf result SinkError.Failed) }
        ensures piece { IfOk result (λ count. count ≡ min self.old.piece (length bytes.now)) }
        ensures pieces { self.new.piece ≡ self.old.piece }
    {
        if self.plan.next_fails() {
            return Err(SinkError::Failed);
        }
        let count = self.piece.min(bytes.len());
        match self.bytes.extend_from_slice(&bytes[..count]) {
            Ok(()) => Ok(count),
            Err(_) => Err(SinkError::NoMemory),
        }
    }
}
