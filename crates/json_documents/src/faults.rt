//! Why a walk over documents ends before its input does.

use exact_json::DocFault;

/// Why an input has no further document.
#[derive(Clone, Copy, PartialEq, Eq, Debug, Drop)]
pub enum InputFault {
    /// A line that isn't blank has a fault. Lines are counted from 1.
    BadLine { line: u64, fault: DocFault },
    /// The input has more than 2^40 bytes.
    InputTooLong,
    /// A read failed.
    ReadFault,
    /// There was no memory for a line or its tree.
    NoMemory,
}

/// Why documents were no longer handed on: the input's fault, or the taker's.
#[derive(Clone, Copy, PartialEq, Eq, Debug, Drop)]
pub enum Stop<F> {
    /// No further document came.
    Input(InputFault),
    /// The last document wasn't taken.
    Taker(F),
}
