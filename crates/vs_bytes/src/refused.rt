//! Why nothing was read.

ghost use Rattle.std.specs.Prelude.{◌≡◌};

use crate::memory::NoMemory;
use crate::rule::Rule;
use std::alloc::{AllocError, AllocFailed};

/// Nothing of the kind stands there: the one fault of a reader of a part.
#[derive(Clone, Copy, PartialEq, Eq, Debug, Drop)]
pub struct Absent;

/// A fault, or no memory.
#[derive(Clone, Copy, PartialEq, Eq, Debug, Drop)]
pub enum Refused<F: Drop> {
    /// What is wrong.
    Fault(F),
    /// There was no memory for what was read.
    NoMemory,
}

/// A violation of a format, or no memory.
pub type Refusal = Refused<Rule>;

impl From<Rule> for Refused<Rule> {
    ghost use Rattle.vs_bytes.specs.declared.refused.Refused.TheVariants as refused;

    ghost from_gives = { λ rule e. e ≡ refused.Fault rule };

    fn from(rule: Rule) -> Refused<Rule> {
        Refused::Fault(rule)
    }
}

impl<F: Drop> From<NoMemory> for Refused<F> {
    ghost use Rattle.vs_bytes.specs.declared.refused.Refused.TheVariants as refused;

    ghost from_gives = { λ _ e. e ≡ refused.NoMemory };

    fn from(_error: NoMemory) -> Refused<F> {
        Refused::NoMemory
    }
}

impl<F: Drop> From<AllocError> for Refused<F> {
    ghost use Rattle.vs_bytes.specs.declared.refused.Refused.TheVariants as refused;

    ghost from_gives = { λ _ e. e ≡ refused.NoMemory };

    fn from(_error: AllocError) -> Refused<F> {
        Refused::NoMemory
    }
}

impl<F: Drop, T: Drop> From<AllocFailed<T>> for Refused<F> {
    ghost use Rattle.vs_bytes.specs.declared.refused.Refused.TheVariants as refused;

    ghost from_gives = { λ _ e. e ≡ refused.NoMemory };

    fn from(_error: AllocFailed<T>) -> Refused<F> {
        Refused::NoMemory
    }
}
