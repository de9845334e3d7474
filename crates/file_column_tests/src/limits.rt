//! How many leaves a column may have, and how deep it may nest.

use crate::schemas::{is_refused, put, read, schema};
use schema_elements::ElementList;
use std::alloc::Global;
use std::process::Abort;
use std::test::Fail;
use vs_bytes::{NoMemory, Rule};

// A column of an object with so many fields, which have a value each. The last has the name `last`.
fn wide(alloc: Global, count: i32, last: &str) -> Result<ElementList, NoMemory> {
    let mut list = schema(
        alloc,
        &[
            (-1, "schema", -1, 1, -1),
            (1, "v", -1, 2, -1),
            (0, "metadata", 6, 0, -1),
            (1, "typed_value", -1, count, -1),
        ],
    )?;
    for k in 1..count {
        let name = format!(in alloc; "f{k}")?;
        put(alloc, &mut list, &(0, name.as_str(), -1, 1, -1))?;
        put(alloc, &mut list, &(1, "value", 6, 0, -1))?;
    }
    put(alloc, &mut list, &(0, last, -1, 1, -1))?;
    put(alloc, &mut list, &(1, "value", 6, 0, -1))?;
    Ok(list)
}

#[test]
fn a_column_has_1024_leaves_at_most(rt: HostRuntime) -> Result<(), Fail> {
    let most = wide(rt.alloc(), 1023, "last")?;
    let found = read(rt.alloc(), &most)?;
    assert!(&rt; found.leaves.len() == 1024);
    let over = wide(rt.alloc(), 1024, "last")?;
    assert!(&rt; is_refused(rt.alloc(), &over, Rule::TooManyLeaves));
    Ok(())
}

// The shape is judged before the number of leaves, and in time: each name with each other would be 10^10 comparisons.
#[test]
fn a_name_that_stands_twice_is_found_among_many(rt: HostRuntime) -> Result<(), Fail> {
    let twice = wide(rt.alloc(), 100_000, "f1")?;
    assert!(&rt; is_refused(rt.alloc(), &twice, Rule::SchemaShape));
    let once = wide(rt.alloc(), 100_000, "last")?;
    assert!(&rt; is_refused(rt.alloc(), &once, Rule::TooManyLeaves));
    Ok(())
}

// So many objects in one another.
fn deep(alloc: Global, count: u32) -> Result<ElementList, NoMemory> {
    let mut list = schema(
        alloc,
        &[
            (-1, "schema", -1, 1, -1),
            (1, "v", -1, 2, -1),
            (0, "metadata", 6, 0, -1),
        ],
    )?;
    for _object in 0..count {
        put(alloc, &mut list, &(1, "typed_value", -1, 1, -1))?;
        put(alloc, &mut list, &(0, "f", -1, 1, -1))?;
    }
    put(alloc, &mut list, &(1, "value", 6, 0, -1))?;
    Ok(list)
}

#[test]
fn objects_nest_64_deep_at_most(rt: HostRuntime) -> Result<(), Fail> {
    let most = deep(rt.alloc(), 64)?;
    let found = read(rt.alloc(), &most)?;
    assert!(&rt; found.leaves.len() == 2);
    assert!(&rt; found.leaves.at(1).def == 66);
    let over = deep(rt.alloc(), 65)?;
    assert!(&rt; is_refused(rt.alloc(), &over, Rule::SchemaShape));
    Ok(())
}
