//! What rows give, beside what is wanted.

use std::alloc::{AllocError, Global};
use vs_bytes::{NoMemory, Refusal, Refused};

/// Why a check failed. A test that ends with it fails, and shows it.
#[derive(Debug, Drop)]
pub enum Wrong {
    /// A row gives something else: the row, and what came.
    Row(String),
    /// A row hasn't its parts.
    Parts(String),
    /// There was no memory for the check.
    NoMemory,
}

impl From<NoMemory> for Wrong {
    fn from(_error: NoMemory) -> Wrong {
        Wrong::NoMemory
    }
}

impl From<AllocError> for Wrong {
    fn from(_error: AllocError) -> Wrong {
        Wrong::NoMemory
    }
}

/// What rows of a table are about.
pub trait Shown {
    /// What a row gives, as text.
    fn shown(alloc: Global, given: &str) -> Result<String, Wrong>;
}

/// What a call gives, as text: the name of the rule where one is violated.
pub fn text_or_rule(alloc: Global, given: Result<String, Refusal>) -> Result<String, Wrong> {
    match given {
        Ok(text) => Ok(text),
        Err(Refused::Fault(rule)) => Ok(rule.name().to_string(alloc)?),
        Err(Refused::NoMemory) => Err(Wrong::NoMemory),
    }
}

fn check_row<S: Shown>(alloc: Global, row: &str) -> Result<(), Wrong> {
    let Some((given, wanted)) = row.rsplit_once(" | ") else {
        return Err(Wrong::Parts(row.to_string(alloc)?));
    };
    let text = S::shown(alloc, given)?;
    if text.as_str() == wanted {
        return Ok(());
    }
    Err(Wrong::Row(format!(in alloc; "{row}, but came {text}")?))
}

/// Checks a table of rows, one a line. The last part of a row is what is wanted.
pub fn check_rows<S: Shown>(alloc: Global, table: &str) -> Result<(), Wrong> {
    for row in table.split('\n') {
        check_row::<S>(alloc, row)?;
    }
    Ok(())
}
