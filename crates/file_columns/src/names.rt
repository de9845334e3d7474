//! Names that stand twice.
//!
//! A hostile schema may have a million fields in one group, so names are sorted and not compared each with each.

ghost use Rattle.std.specs.Prelude.{◌≡◌, ◌↔◌, map, IsTrue, IfOk};
ghost use Rattle.std.specs.Cmp.Lexicographic.{slice_cmp};
ghost use Rattle.std.specs.List.Sorted.{IsStrictlySortedBy};
ghost use Rattle.std.specs.Ordering.{nat_cmp};
ghost use Rattle.vs_bytes.specs.Names.{repeats};
ghost use Rattle.file_columns.specs.Columns.{names_of};
ghost use Rattle.file_columns.specs.Views.{seen};

use crate::places::Child;
use std::alloc::Global;
use vs_bytes::NoMemory;

fn names_rise(children: &[Child<'_>]) -> bool
    ensures { IsTrue result ↔ IsStrictlySortedBy (slice_cmp nat_cmp) (names_of (map seen children.now)) }
{
    children.is_sorted_by(|a, b| a.element.name < b.element.name)
}

/// Whether two elements have one name.
pub(crate) fn names_repeat(alloc: Global, children: &[Child<'_>]) -> Result<bool, NoMemory>
    ensures { IfOk result (λ repeated. repeated ≡ repeats (names_of (map seen children.now))) }
{
    let mut sorted = Vec::from_slice(alloc, children)?;
    sorted.sort_unstable_by(|a, b| a.element.name.cmp(&b.element.name));
    Ok(!names_rise(sorted.as_slice()))
}
