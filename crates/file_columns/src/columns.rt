//! The column of a name.

ghost use Rattle.std.specs.Prelude.{◌≡◌, ◌+◌, ◌*◌, ◌<◌, ◌^◌, map, length, All, IfOk};
ghost use Rattle.vs_bytes.specs.Outcome.{Makes, Reads};
ghost use Rattle.schema_elements.specs.SchemaTrees.{leaf_count};
ghost use Rattle.shred_schema.specs.Groups.{width};
ghost use Rattle.shred_schema.specs.Lawful.{IsWellFormed};
ghost use Rattle.shred_schema.specs.Views.{group_of};
ghost use Rattle.file_columns.specs.Columns.{PlacedElement, top_in, column_in, column_view, is_ordered, judged, column_of};
ghost use Rattle.file_columns.specs.Views.{seen, shown};

use crate::children::{children_in, find_in_root};
use crate::elements::{is_optional, is_required};
use crate::members::{are_top_members, one_leaf, read_metadata};
use crate::nodes::read_parts;
use crate::places::{Child, Levels, PlacedLeaf, past};
use schema_elements::SchemaElement;
use shred_schema::{Column, LeafList, Mask, Node};
use std::alloc::Global;
use vs_bytes::{Absent, NoMemory, Refusal, Refused, Rule, Sequence};

// How many objects and lists may stand in one another.
const MAX_NESTING: u32 = 64;

// How many leaves a column may have.
const MAX_LEAVES: usize = 1024;

// The number of TYPE_ORDER among the orders of a file.
const TYPE_ORDER: i32 = 1;

/// Places of leaves among all leaves of a schema.
pub type PlaceList = Sequence<usize>;

/// The column of shredded Variants in a file.
#[derive(Drop)]
pub struct FileColumn {
    /// The column.
    pub column: Column,
    /// Its leaves, in the order of `shred_schema`, with the physical types of the file.
    pub leaves: LeafList,
    /// The place of each leaf among all leaves of the schema, and so among the chunks of a row group.
    pub places: PlaceList,
    /// Whether the file tells of each leaf that its bounds are in the order of its type.
    pub ordered: Mask,
}

#[tactic(auto, unfolding(crate::specs::Columns::top_in))]
fn read_top(
    alloc: Global,
    levels: Levels,
    children: &[Child<'_>],
) -> Result<(Node, Vec<PlacedLeaf>), Refused<Absent>>
    requires rep { levels.rep + 1000 < 2 ^ 15 }
    requires def { levels.def + 1000 < 2 ^ 15 }
    ensures { Reads (λ r. (group_of r.0, r.1.items)) result (top_in levels (map seen children.now)) }
{
    let are = are_top_members(alloc, children)?;
    if !are {
        return Err(Refused::Fault(Absent));
    }
    let Some(metadata) = read_metadata(levels, children) else {
        return Err(Refused::Fault(Absent));
    };
    let (node, more) = read_parts(alloc, MAX_NESTING, levels, children)?;
    let mut leaves = one_leaf(alloc, metadata)?;
    leaves.extend_from_slice(more.as_slice())?;
    Ok((node, leaves))
}

#[tactic(auto, unfolding(crate::specs::Columns::column_in))]
fn read_column(alloc: Global, child: &Child<'_>) -> Result<(Node, Vec<PlacedLeaf>), Refused<Absent>>
    ensures { Reads (λ r. (group_of r.0, r.1.items)) result (column_in (seen child.now)) }
{
    if child.element.is_leaf() {
        return Err(Refused::Fault(Absent));
    }
    if !is_required(child.element) && !is_optional(child.element) {
        return Err(Refused::Fault(Absent));
    }
    let levels = past(child.element, Levels { rep: 0, def: 0 });
    let children = children_in(alloc, child)?;
    read_top(alloc, levels, children.as_slice())
}

fn leaf_list(alloc: Global, placed: &[PlacedLeaf]) -> Result<LeafList, NoMemory>
    ensures { IfOk result (λ leaves. leaves ≡ map (λ p. p.leaf) placed.now) }
{
    let mut leaves = Sequence::new(alloc);
    for leaf in placed {
        leaves.push(leaf.leaf)?;
    }
    Ok(leaves)
}

fn place_list(alloc: Global, placed: &[PlacedLeaf]) -> Result<PlaceList, NoMemory>
    ensures { IfOk result (λ places. places ≡ map (λ p. p.place) placed.now) }
{
    let mut places = Sequence::new(alloc);
    for leaf in placed {
        places.push(leaf.place)?;
    }
    Ok(places)
}

fn is_ordered(orders: &[i32], leaf: &PlacedLeaf) -> bool
    ensures { result ≡ is_ordered orders.now leaf.now }
{
    match orders.get(leaf.place) {
        Some(order) => *order == TYPE_ORDER,
        None => false,
    }
}

fn order_list(alloc: Global, orders: &[i32], placed: &[PlacedLeaf]) -> Result<Mask, NoMemory>
    ensures { IfOk result (λ ordered. ordered ≡ map (is_ordered orders.now) placed.now) }
{
    let mut ordered = Sequence::new(alloc);
    for leaf in placed {
        ordered.push(is_ordered(orders, leaf))?;
    }
    Ok(ordered)
}

fn judged(
    alloc: Global,
    optional: bool,
    orders: &[i32],
    node: Node,
    placed: &[PlacedLeaf],
) -> Result<FileColumn, Refusal>
    ensures { Makes shown result (judged optional orders.now (Some (group_of node, placed.now))) }
{
    if placed.len() > MAX_LEAVES {
        return Err(Refused::Fault(Rule::TooManyLeaves));
    }
    Ok(FileColumn {
        column: Column { optional, node },
        leaves: leaf_list(alloc, placed)?,
        places: place_list(alloc, placed)?,
        ordered: order_list(alloc, orders, placed)?,
    })
}

#[tactic(auto, unfolding(crate::specs::Columns::column_of))]
fn read_named(
    alloc: Global,
    elements: &[SchemaElement],
    name: &str,
    orders: &[i32],
) -> Result<FileColumn, Refusal>
    ensures { Makes shown result (column_of elements.now name.now orders.now) }
{
    let Some(child) = find_in_root(elements, name) else {
        return Err(Refused::Fault(Rule::NoVariant));
    };
    match read_column(alloc, &child) {
        Ok((node, placed)) => judged(
            alloc,
            is_optional(child.element),
            orders,
            node,
            placed.as_slice(),
        ),
        Err(Refused::Fault(Absent)) => Err(Refused::Fault(Rule::SchemaShape)),
        Err(Refused::NoMemory) => Err(Refused::NoMemory),
    }
}

/// The column of a name in the schema of a file. `orders` are the orders of the file's columns, 1 for TYPE_ORDER.
///
/// The violations are tried in this order. `NoVariant`: no element inside the root has the name; of two the first
/// counts. `SchemaShape`: the column isn't one of shredded Variants. `TooManyLeaves`: it has more than 1,024.
/// It takes time by the elements inside the column, times how deep they nest.
pub fn column(
    alloc: Global,
    elements: &[SchemaElement],
    name: &str,
    orders: &[i32],
) -> Result<FileColumn, Refusal>
    ensures exact { Makes shown result (column_of elements.now name.now orders.now) }
    ensures well_formed { IfOk result (λ found. IsWellFormed (group_of found.column.node)) }
    ensures leaves { IfOk result (λ found. length found.leaves ≡ 1 + width (group_of found.column.node)) }
    ensures places { IfOk result (λ found. length found.places ≡ 1 + width (group_of found.column.node)) }
    ensures within { IfOk result (λ found. All (λ place. place < leaf_count elements.now) found.places) }
    ensures ordered { IfOk result (λ found. length found.ordered ≡ 1 + width (group_of found.column.node)) }
{
    match read_named(alloc, elements, name, orders) {
        Ok(found) => Ok(found),
        Err(refusal) => Err(refusal),
    }
}
