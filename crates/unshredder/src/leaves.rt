//! Which leaves of a node are read.

ghost use Rattle.std.specs.Prelude.{◌≡◌, ◌+◌, ◌≤◌, ◌<◌, ◌^◌, length};
ghost use Rattle.shred_schema.specs.Groups.{slot_width, width, kind_width};
ghost use Rattle.shred_schema.specs.Ranges.{reads, is_any_read};
ghost use Rattle.shred_schema.specs.Views.{group_of, kind_of};
ghost use Rattle.unshredder.specs.Seen.{is_part_read, is_tested};

use shred_schema::{Node, slot_width, typed_width};

// Whether some of `count` leaves from `first` on is read.
#[tactic(auto, using(crate::proofs::Walks::leaf_passed, crate::proofs::Walks::leaf_read))]
pub(crate) fn is_any_read(mask: &[bool], first: usize, count: usize) -> bool
    requires { first + count < 2 ^ 32 }
    ensures { result ≡ is_any_read (reads mask.now) first count }
{
    for leaf in first..first + count {
        if is_read(mask, leaf) {
            return true;
        }
    }
    false
}

fn is_read(mask: &[bool], leaf: usize) -> bool
    ensures { result ≡ reads mask.now leaf }
{
    match mask.get(leaf) {
        Some(read) => *read,
        None => false,
    }
}

fn is_part_read(mask: &[bool], first: usize, count: usize) -> bool
    requires { first + count < 2 ^ 32 }
    ensures { result ≡ is_part_read (reads mask.now) first count }
{
    count == 0 || is_any_read(mask, first, count)
}

// Whether it tells something that both parts of a node are missing.
pub(crate) fn is_tested(mask: &[bool], leaf: usize, node: &Node) -> bool
    requires { leaf + width (group_of node.now) < 2 ^ 32 }
    ensures { result ≡ is_tested (reads mask.now) leaf (group_of node.now) }
{
    let value = slot_width(node.value);
    is_part_read(mask, leaf, value) && is_part_read(mask, leaf + value, typed_width(&node.typed))
}
