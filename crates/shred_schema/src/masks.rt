//! Masks.

use vs_bytes::Sequence;

/// Which leaf columns are read: a truth value for each, in the order of the leaves.
pub type Mask = Sequence<bool>;
