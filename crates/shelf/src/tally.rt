//! How often each kind of refusal came.

ghost use Rattle.std.specs.Prelude.{◌≡◌};
ghost use Rattle.shelf.specs.Storage.{FailsRead, FailsWrite, Misses, Clashes, read_fault_more, write_fault_more, absence_more, clash_more};

use crate::shelf::ShelfError;

/// The refusals of a shelf so far, by kind. A count stays at its greatest value.
#[derive(Clone, Copy, PartialEq, Eq, Debug, Drop)]
pub struct Counts {
    pub read_faults: u64,
    pub write_faults: u64,
    pub absences: u64,
    pub clashes: u64,
}

impl Counts {
    /// No refusal so far.
    pub fn new() -> Counts
        ensures { result ≡ record { read_faults = 0; write_faults = 0; absences = 0; clashes = 0 } }
    {
        Counts {
            read_faults: 0,
            write_faults: 0,
            absences: 0,
            clashes: 0,
        }
    }

    // Each of these counts one refusal, and gives the error to answer.

    pub(crate) fn read_fault(&mut self) -> ShelfError
        ensures error { result ≡ ShelfError.Failed }
        ensures counted { FailsRead self.old self.new }
        ensures by_one { self.new ≡ read_fault_more self.old }
    {
        self.read_faults = self.read_faults.saturating_add(1);
        ShelfError::Failed
    }

    pub(crate) fn write_fault(&mut self) -> ShelfError
        ensures error { result ≡ ShelfError.Failed }
        ensures counted { FailsWrite self.old self.new }
        ensures by_one { self.new ≡ write_fault_more self.old }
    {
        self.write_faults = self.write_faults.saturating_add(1);
        ShelfError::Failed
    }

    pub(crate) fn absence(&mut self) -> ShelfError
        ensures error { result ≡ ShelfError.Absent }
        ensures counted { Misses self.old self.new }
        ensures by_one { self.new ≡ absence_more self.old }
    {
        self.absences = self.absences.saturating_add(1);
        ShelfError::Absent
    }

    pub(crate) fn clash(&mut self) -> ShelfError
        ensures error { result ≡ ShelfError.Taken }
        ensures counted { Clashes self.old self.new }
        ensures by_one { self.new ≡ clash_more self.old }
    {
        self.clashes = self.clashes.saturating_add(1);
        ShelfError::Taken
    }
}
