//! Why a writer is refused.

ghost use Rattle.std.specs.Prelude.{◌≡◌};
ghost use Rattle.store_write.specs.Refusals.{refusal_of};

use std::error::Error;
use thiserror::Error;

/// The first refusal of a call that adds rows.
#[derive(Clone, Copy, PartialEq, Eq, Debug, Drop)]
pub enum First {
    /// The shelf failed.
    Failed,
    /// The footer would be so long with the group that closes.
    FooterFull { length: u64 },
    /// There was no memory.
    NoMemory,
}

/// Why a call of a writer is refused.
#[derive(Clone, Copy, PartialEq, Eq, Debug, Drop, Error)]
pub enum WriteError {
    /// There is a file of this name already.
    #[error("file exists")]
    Taken,
    /// The shelf failed.
    #[error("write failed")]
    Failed,
    /// The footer would be so long with the group that closes, in bytes.
    #[error("footer too long")]
    FooterFull { length: u64 },
    /// There was no memory.
    #[error("out of memory")]
    NoMemory,
    /// An earlier call was refused, for this reason.
    #[error("broken")]
    Broken(First),
}

impl First {
    /// The refusal, as the call tells it that meets it.
    pub fn refusal(self) -> WriteError
        ensures { result ≡ refusal_of self }
    {
        match self {
            First::Failed => WriteError::Failed,
            First::FooterFull { length } => WriteError::FooterFull { length },
            First::NoMemory => WriteError::NoMemory,
        }
    }
}
