//! Why a text asks for nothing.

use thiserror::Error;

/// Why a text is no path or no filter.
#[derive(Clone, Copy, PartialEq, Eq, Debug, Drop, Error)]
pub enum TextFault {
    /// It isn't in the grammar of paths, or is over a limit.
    #[error("bad path")]
    BadPath,
    /// It isn't in the grammar of filters, or is over a limit.
    #[error("bad filter")]
    BadFilter,
    /// It is a filter, but some relation doesn't suit its literal: null goes with `=` alone, a truth
    /// value with `=` and `!=`.
    #[error("bad order")]
    BadOrder,
    /// There was no memory for it.
    #[error("out of memory")]
    NoMemory,
}
