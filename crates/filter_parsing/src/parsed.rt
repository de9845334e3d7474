//! Parts of filters that were read.

ghost use Rattle.std.specs.Prelude.{◌≡◌, ◌≤◌, ◌<◌, ◌+◌, MatchOption, Some};
ghost use Rattle.vs_bytes.specs.Outcome.{Reads};
ghost use Rattle.filter_parsing.specs.Limits.{most_terms};
ghost use Rattle.query_tree.specs.Formula.{conjunction, disjunction, negation};
ghost use Rattle.query_tree.specs.View.{formula_of};

use query_tree::{Filter, Path, Test};
use sqlite_items::Boxed;
use std::alloc::Global;
use vs_bytes::{Absent, Refused};

// The most terms that a filter has.
const MAX_TERMS: usize = 256;

/// A part of a filter, and how many terms it has.
#[derive(Drop)]
pub(crate) struct Parsed {
    filter: Filter,
    terms: usize,
    ghost few: { terms ≤ most_terms },
}

impl Parsed {
    ghost use Rattle.filter_parsing.specs.Parts.{joined_as, part_of};

    /// A term.
    pub fn term(path: Path, test: Test) -> Parsed
        ensures { part_of result ≡ (formula_of (Filter.Term path test), 1) }
    {
        Parsed {
            filter: Filter::Term { path, test },
            terms: 1,
        }
    }

    /// The filter that was read.
    pub fn into_filter(self) -> Filter
        ensures { formula_of result ≡ (part_of self).0 }
    {
        self.filter
    }

    /// The part, denied.
    pub fn denied(self, alloc: Global) -> Result<Parsed, Refused<Absent>>
        ensures { Reads part_of result (Some (negation (part_of self).0, (part_of self).1)) }
    {
        Ok(Parsed {
            filter: Filter::Not(Boxed::new(alloc, self.filter)?),
            terms: self.terms,
        })
    }

    // How many terms the parts have together, unless those are too many.
    fn terms_with(&self, other: &Parsed) -> Option<usize>
        ensures { MatchOption result (most_terms < self.now.terms + other.now.terms) (λ n. (n ≡ self.now.terms + other.now.terms) × (n ≤ most_terms)) }
    {
        let terms = self.terms + other.terms;
        if terms > MAX_TERMS {
            return None;
        }
        Some(terms)
    }

    /// Both parts, unless they have too many terms.
    pub fn both(self, alloc: Global, other: Parsed) -> Result<Parsed, Refused<Absent>>
        ensures { Reads part_of result (joined_as conjunction (part_of self) (part_of other)) }
    {
        let Some(terms) = self.terms_with(&other) else {
            return Err(Refused::Fault(Absent));
        };
        let left = Boxed::new(alloc, self.filter)?;
        let right = Boxed::new(alloc, other.filter)?;
        Ok(Parsed {
            filter: Filter::And(left, right),
            terms,
        })
    }

    /// One of the parts, unless they have too many terms.
    pub fn either(self, alloc: Global, other: Parsed) -> Result<Parsed, Refused<Absent>>
        ensures { Reads part_of result (joined_as disjunction (part_of self) (part_of other)) }
    {
        let Some(terms) = self.terms_with(&other) else {
            return Err(Refused::Fault(Absent));
        };
        let left = Boxed::new(alloc, self.filter)?;
        let right = Boxed::new(alloc, other.filter)?;
        Ok(Parsed {
            filter: Filter::Or(left, right),
            terms,
        })
    }
}
