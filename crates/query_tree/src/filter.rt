//! Filters.

use crate::path::Path;
use json_tree::Tree;
use sqlite_items::Boxed;

/// How a match is compared with a literal: numbers by value, texts by their bytes.
#[derive(Clone, Copy, PartialEq, Eq, Debug, Drop)]
pub enum Relation {
    /// `=`
    Equal,
    /// `!=`
    NotEqual,
    /// `<`
    Less,
    /// `<=`
    AtMost,
    /// `>`
    Greater,
    /// `>=`
    AtLeast,
}

/// What a term asks of the matches of its path.
#[derive(Drop)]
pub enum Test {
    /// There is a match.
    Exists,
    /// There is none.
    Missing,
    /// Some match is of the literal's kind, and stands in the relation to it. A literal is null, a truth
    /// value, a number or a text; null goes with `Equal` alone, a truth value with `Equal` and `NotEqual`.
    Stands { rel: Relation, literal: Tree },
}

/// A condition on a row.
#[cycle(filter)]
#[derive(Drop)]
pub enum Filter {
    /// A test of the matches of a path.
    Term { path: Path, test: Test },
    /// Both hold.
    And(Boxed<Filter>, Boxed<Filter>),
    /// One holds, or both.
    Or(Boxed<Filter>, Boxed<Filter>),
    /// It doesn't hold.
    Not(Boxed<Filter>),
}
