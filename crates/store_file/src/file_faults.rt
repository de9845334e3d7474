//! What is wrong in a file, and why a call on it was refused.

ghost use Rattle.std.specs.Prelude.{◌≡◌};
ghost use Rattle.store_file.specs.Places.{violation_in, stop_in, refusal_in, fault_of, write_fault, open_fault};

use group_reading::{GroupFault, PlaceInGroup};
use outside::SinkError;
use std::error::Error;
use store_read::ReadStop;
use thiserror::Error;
use thrift_footer::OpenFault;
use vs_bytes::{Refusal, Refused, Rule};

/// A place in a file.
#[derive(Clone, Copy, PartialEq, Eq, Debug, Drop)]
pub enum Place {
    /// The file as a whole.
    File,
    /// A column chunk: a row group and a leaf of the column, both counted from 0.
    Chunk(usize, usize),
    /// A row: its row group, and its number in the group, both counted from 0.
    Row(usize, u64),
}

/// A rule that a file violates.
#[derive(Clone, Copy, PartialEq, Eq, Debug, Drop)]
pub struct Violation {
    /// The rule.
    pub rule: Rule,
    /// Where it is violated.
    pub place: Place,
}

/// Why a file wasn't read to its end.
#[derive(Clone, Copy, PartialEq, Eq, Debug, Drop, Error)]
pub enum QueryFault {
    /// What the file violates.
    #[error("refused: {0:?}")]
    Refused(Violation),
    /// A read failed.
    #[error("read failed")]
    ReadFault,
    /// A write failed.
    #[error("write failed")]
    WriteFault,
    /// There was no memory.
    #[error("out of memory")]
    NoMemory,
}

// What a row group violates, as what the file does.
fn violation_in(group: usize, fault: GroupFault) -> Violation
    ensures { result ≡ violation_in group fault }
{
    let place = match fault.place {
        PlaceInGroup::Leaf(leaf) => Place::Chunk(group, leaf),
        PlaceInGroup::Row(row) => Place::Row(group, row),
    };
    Violation {
        rule: fault.rule,
        place,
    }
}

/// Why a row group wasn't read, in the terms of the file.
pub(crate) fn stop_in(group: usize, stop: ReadStop<GroupFault>) -> ReadStop<Violation>
    ensures { result ≡ stop_in group stop }
{
    match stop {
        ReadStop::Violated(fault) => ReadStop::Violated(violation_in(group, fault)),
        ReadStop::Failed => ReadStop::Failed,
        ReadStop::NoMemory => ReadStop::NoMemory,
    }
}

/// Why the rows of a row group weren't taken, in the terms of the file.
pub(crate) fn refusal_in(group: usize, refusal: Refused<GroupFault>) -> ReadStop<Violation>
    ensures { result ≡ refusal_in group refusal }
{
    match refusal {
        Refused::Fault(fault) => ReadStop::Violated(violation_in(group, fault)),
        Refused::NoMemory => ReadStop::NoMemory,
    }
}

/// Why the lines weren't written.
pub(crate) fn write_fault(fault: SinkError) -> QueryFault
    ensures { result ≡ write_fault fault }
{
    match fault {
        SinkError::Failed => QueryFault::WriteFault,
        SinkError::NoMemory => QueryFault::NoMemory,
    }
}

/// Why the column wasn't found.
pub(crate) fn open_fault(refusal: Refusal) -> OpenFault
    ensures { result ≡ open_fault refusal }
{
    match refusal {
        Refused::Fault(rule) => OpenFault::Refused(rule),
        Refused::NoMemory => OpenFault::NoMemory,
    }
}

/// Why a part of the file wasn't read, as why the file wasn't.
pub(crate) fn fault_of(stop: ReadStop<Violation>) -> QueryFault
    ensures { result ≡ fault_of stop }
{
    match stop {
        ReadStop::Violated(violation) => QueryFault::Refused(violation),
        ReadStop::Failed => QueryFault::ReadFault,
        ReadStop::NoMemory => QueryFault::NoMemory,
    }
}
