//! Why words ask for nothing.

use std::alloc::AllocFailed;
use thiserror::Error;

/// Why words ask for nothing.
#[derive(Clone, Copy, PartialEq, Eq, Debug, Drop, Error)]
pub enum WordFault {
    /// They aren't the command's words.
    #[error("usage")]
    Usage,
    /// There was no memory to gather them.
    #[error("out of memory")]
    NoMemory,
}

impl<T: Drop> From<AllocFailed<T>> for WordFault {
    ghost use Rattle.std.specs.Prelude.{◌≡◌};
    ghost use Rattle.command_words.specs.declared.fault.WordFault.TheVariants as fault;

    ghost from_gives = { λ _ e. e ≡ fault.NoMemory };

    fn from(_error: AllocFailed<T>) -> WordFault {
        WordFault::NoMemory
    }
}
