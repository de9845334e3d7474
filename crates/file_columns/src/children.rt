//! The elements inside an element.

ghost use Rattle.std.specs.Prelude.{◌≡◌, ◌+◌, ◌<◌, ◌≤◌, ◌^◌, map, length, IfOk};
ghost use Rattle.vs_bytes.specs.Outcome.{Finds};
ghost use Rattle.file_columns.specs.Columns.{children, children_in, named, in_root};
ghost use Rattle.schema_elements.specs.SchemaTrees.{own_leaf};
ghost use Rattle.file_columns.specs.Forests.{front, back, forest, leaf_count};
ghost use Rattle.file_columns.specs.Views.{seen};

use crate::places::Child;
use schema_elements::SchemaElement;
use std::alloc::Global;
use vs_bytes::NoMemory;

fn own_leaf(element: &SchemaElement) -> usize
    ensures leaf { result ≡ own_leaf element.now }
    ensures most { result ≤ 1 }
{
    if element.is_leaf() { 1 } else { 0 }
}

// Passes over the first trees: what follows them, and how many leaves they have.
#[tactic(auto, using(crate::proofs::Passing::passed_start, crate::proofs::Passing::passed_more, crate::proofs::Passing::back_at, crate::proofs::Passing::leaves_at, crate::proofs::Passing::back_end, crate::proofs::Passing::leaves_end))]
fn pass(ahead: &[SchemaElement], count: u32) -> (&[SchemaElement], usize)
    requires { count < 2 ^ 31 }
    ensures rest { forest result.0.now ≡ back count (forest ahead.now) }
    ensures leaves { result.1 ≡ leaf_count (front count (forest ahead.now)) }
    ensures few { result.1 + length result.0.now ≤ length ahead.now }
{
    let mut rest = ahead;
    let mut left = u128::from(count);
    let mut leaves: usize = 0;
    'trees: while let Some((element, behind)) = rest.split_first() {
        if left == 0 {
            return (rest, leaves);
        }
        left = left - 1 + u128::from(element.child_count());
        leaves += own_leaf(element);
        rest = behind;
    }
    (rest, leaves)
}

/// The elements that stand directly inside a group, with all that follows its first in the schema.
#[tactic(auto, using(crate::proofs::Passing::listed_start, crate::proofs::Passing::listed_turn, crate::proofs::Passing::listed_end, crate::proofs::Passing::listed_done))]
fn children<'a>(
    alloc: Global,
    ahead: &'a [SchemaElement],
    count: u32,
    place: usize,
) -> Result<Vec<Child<'a>>, NoMemory>
    requires count { count < 2 ^ 31 }
    requires place { place + length ahead.now < 2 ^ 64 }
    ensures { IfOk result (λ list. map seen list.items ≡ children place (front count (forest ahead.now))) }
{
    let mut list = Vec::new(alloc);
    let mut rest = ahead;
    let mut at = place;
    for turn in 0..count {
        let Some((element, inside)) = rest.split_first() else {
            return Ok(list);
        };
        list.push(Child {
            element,
            inside,
            place: at,
        })?;
        let (behind, leaves) = pass(rest, 1);
        at += leaves;
        rest = behind;
    }
    Ok(list)
}

/// The elements that stand directly inside an element.
pub(crate) fn children_in<'a>(alloc: Global, child: &Child<'a>) -> Result<Vec<Child<'a>>, NoMemory>
    ensures { IfOk result (λ list. map seen list.items ≡ children_in (seen child.now)) }
{
    children(
        alloc,
        child.inside,
        child.element.child_count(),
        child.place,
    )
}

/// The first of a name among the elements that stand directly inside a schema's root.
pub(crate) fn find_in_root<'a>(elements: &'a [SchemaElement], name: &str) -> Option<Child<'a>>
    ensures { Finds seen result (named name.now (in_root (forest elements.now))) }
{
    let (root, ahead) = elements.split_first()?;
    find_child(ahead, root.child_count(), name)
}

// The first of a name among the first trees.
#[tactic(auto, using(crate::proofs::Passing::sought_start, crate::proofs::Passing::sought_found, crate::proofs::Passing::sought_turn, crate::proofs::Passing::sought_end, crate::proofs::Passing::sought_done))]
fn find_child<'a>(ahead: &'a [SchemaElement], count: u32, name: &str) -> Option<Child<'a>>
    requires count { count < 2 ^ 31 }
    ensures { Finds seen result (named name.now (children 0 (front count (forest ahead.now)))) }
{
    let mut rest = ahead;
    let mut at: usize = 0;
    for turn in 0..count {
        let Some((element, inside)) = rest.split_first() else {
            return None;
        };
        if element.name.as_bytes() == name.as_bytes() {
            return Some(Child {
                element,
                inside,
                place: at,
            });
        }
        let (behind, leaves) = pass(rest, 1);
        at += leaves;
        rest = behind;
    }
    None
}
