//! Queries.

use crate::filter::Filter;
use crate::path::Path;
use vs_bytes::Sequence;

/// Paths in order.
pub type PathList = Sequence<Path>;

/// What is asked of each row: the matches of the paths, where the filter holds.
#[derive(Drop)]
pub struct Query {
    /// Without one, all rows are answered.
    pub filter: Option<Filter>,
    /// The paths to print, in order.
    pub paths: PathList,
}
