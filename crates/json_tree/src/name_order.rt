//! Members and names in the order of the names' bytes.

ghost use Rattle.std.specs.Prelude.{◌≡◌, ◌↔◌, map, IsTrue, IsFalse, IsPermutation};
ghost use Rattle.std.specs.Cmp.Lexicographic.{slice_cmp};
ghost use Rattle.std.specs.List.Sorted.{IsStrictlySortedBy};
ghost use Rattle.std.specs.Ordering.{nat_cmp, is_lt};
ghost use Rattle.vs_bytes.specs.Names.{repeats};

use crate::types::Tree;
use std::cmp::Ordering;
use vs_bytes::Text;

/// Puts the members into the order of their names, and says whether the names then strictly rise.
///
/// It takes no memory. Members that are in order already are only looked at.
pub(crate) fn put_in_order(pairs: &mut Vec<(Text, Tree)>) -> bool
    ensures moved { IsPermutation pairs.old.items pairs.new.items }
    ensures rise { IsTrue result → IsStrictlySortedBy (slice_cmp nat_cmp) (map (λ pair. pair.0) pairs.new.items) }
    ensures repeated { IsFalse result → IsTrue (repeats (map (λ pair. pair.0) pairs.old.items)) }
{
    if names_rise(pairs.as_slice()) {
        return true;
    }
    pairs.sort_unstable_by(|a, b| a.0.cmp(&b.0));
    names_rise(pairs.as_slice())
}

/// The order of a member and a name.
pub(crate) fn against_name(pair: &(Text, Tree), name: &str) -> Ordering
    ensures { result ≡ slice_cmp nat_cmp pair.now.0 name.now }
{
    pair.0.as_str().cmp(&name)
}

fn names_rise(pairs: &[(Text, Tree)]) -> bool
    ensures { IsTrue result ↔ IsStrictlySortedBy (slice_cmp nat_cmp) (map (λ pair. pair.0) pairs.now) }
{
    pairs.is_sorted_by(|a, b| a.0 < b.0)
}
