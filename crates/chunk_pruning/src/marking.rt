//! Leaves of a mask, marked.

ghost use Rattle.std.specs.Prelude.{◌≡◌, ◌+◌, ◌≤◌, ◌<◌, ◌^◌, false, length, replicate, IfOk};
ghost use Rattle.shred_schema.specs.Groups.{slot_width, width};
ghost use Rattle.shred_schema.specs.Ranges.{is_among};
ghost use Rattle.shred_schema.specs.Views.{group_of};
ghost use Rattle.chunk_pruning.specs.Marks.{IsMarked};
ghost use Rattle.chunk_pruning.specs.Needs.{is_value};

use shred_schema::{Node, Slot, slot_width, width};
use std::alloc::Global;
use vs_bytes::NoMemory;

// Memory for `count` leaves, none of which is read.
pub(crate) fn unmarked(alloc: Global, count: usize) -> Result<Vec<bool>, NoMemory>
    ensures { IfOk result (λ mask. mask.items ≡ replicate count false) }
{
    let mut mask = Vec::new(alloc);
    mask.resize(count, false)?;
    Ok(mask)
}

// Marks `count` leaves from `first` on.
#[tactic(auto, using(crate::proofs::Marks::none_marked, crate::proofs::Marks::one_marked, crate::proofs::Marks::all_marked))]
pub(crate) fn mark(mask: &mut [bool], first: usize, count: usize)
    requires { first + count ≤ length mask.old }
    ensures { IsMarked mask.old (λ j. is_among j first count) mask.new }
{
    for leaf in first..first + count {
        mask[leaf] = true;
    }
}

// Marks the value of a node, where it has one.
pub(crate) fn mark_value(mask: &mut [bool], value: Slot, leaf: usize)
    requires { leaf + slot_width value ≤ length mask.old }
    ensures { IsMarked mask.old (is_value value leaf) mask.new }
{
    mark(mask, leaf, slot_width(value));
}

// Marks all leaves of a node.
pub(crate) fn mark_node(mask: &mut [bool], node: &Node, leaf: usize)
    requires within { leaf + width (group_of node.now) ≤ length mask.old }
    requires small { length mask.old < 2 ^ 32 }
    ensures { IsMarked mask.old (λ j. is_among j leaf (width (group_of node.now))) mask.new }
{
    mark(mask, leaf, width(node));
}
