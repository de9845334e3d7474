//! Shelves in memory.

use shelf::{
    MemShelf, Shelf, ShelfError, append_all, append_known, create_known, length_known, read_known,
};
use std::alloc::Global;
use std::process::Abort;
use std::test::Fail;
use vs_bytes::{Bytes, NoMemory, Text};

// A shelf, and the name of a file that is made on it.
#[derive(Drop)]
struct Trial {
    shelf: MemShelf,
    name: Text,
}

// The calls with these numbers fail.
fn begun(alloc: Global, failing: &[u64]) -> Result<Trial, NoMemory> {
    let name = Text::from_str(alloc, "a")?;
    let failing = Vec::from_slice(alloc, failing)?;
    Ok(Trial {
        shelf: MemShelf::new(alloc, failing),
        name,
    })
}

fn check_bytes(rt: &impl Abort, trial: &Trial, wanted: &[u8]) {
    match trial.shelf.bytes(&trial.name) {
        Some(bytes) => assert!(rt; bytes == wanted),
        None => assert!(rt; false),
    }
}

fn add_twice(trial: &mut Trial) -> Result<(), ShelfError> {
    trial.shelf.create(&trial.name)?;
    trial.shelf.append(&trial.name, b"abcd")?;
    trial.shelf.append(&trial.name, b"ef")
}

#[test]
fn what_was_added_stands_there(rt: HostRuntime) -> Result<(), Fail> {
    let mut trial = begun(rt.alloc(), &[])?;
    assert!(&rt; add_twice(&mut trial).is_ok());
    check_bytes(&rt, &trial, b"abcdef");
    Ok(())
}

// A range that passes the end is a fault, and is kept like any other.
fn read_twice(rt: &impl Abort, shelf: &mut MemShelf, name: &Text) -> Result<(), ShelfError> {
    assert!(rt; shelf.length(name)? == 6);
    let mut into = [0u8; 3];
    shelf.read_at(name, 2, &mut into)?;
    assert!(rt; into.as_slice() == b"cde".as_slice());
    assert!(rt; shelf.read_at(name, 4, &mut into) == Err(ShelfError::Failed));
    assert!(rt; shelf.touched_len() == 2);
    let (first, at, size) = shelf.touched_at(1);
    assert!(rt; first.as_str() == "a");
    assert!(rt; at == 4);
    assert!(rt; size == 3);
    assert!(rt; shelf.read_faults() == 1);
    Ok(())
}

#[test]
fn ranges_are_read_and_kept(rt: HostRuntime) -> Result<(), Fail> {
    let mut trial = begun(rt.alloc(), &[])?;
    assert!(&rt; add_twice(&mut trial).is_ok());
    assert!(&rt; read_twice(&rt, &mut trial.shelf, &trial.name).is_ok());
    Ok(())
}

fn put(alloc: Global, shelf: &mut MemShelf, name: &str, bytes: &[u8]) -> Result<(), NoMemory> {
    let bytes = Vec::from_slice(alloc, bytes)?;
    shelf.put(Text::from_str(alloc, name)?, bytes)
}

#[test]
fn a_file_is_put_in_the_place_of_another(rt: HostRuntime) -> Result<(), Fail> {
    let mut trial = begun(rt.alloc(), &[])?;
    put(rt.alloc(), &mut trial.shelf, "a", b"old")?;
    put(
        rt.alloc(),
        &mut trial.shelf,
        "a name of more than sixteen bytes",
        b"x",
    )?;
    put(rt.alloc(), &mut trial.shelf, "a", b"new")?;
    check_bytes(&rt, &trial, b"new");
    Ok(())
}

#[test]
fn refusals_are_counted_by_kind(rt: HostRuntime) -> Result<(), Fail> {
    let Trial { mut shelf, name } = begun(rt.alloc(), &[])?;
    assert!(&rt; shelf.bytes(&name).is_none());
    assert!(&rt; shelf.length(&name) == Err(ShelfError::Absent));
    assert!(&rt; shelf.create(&name).is_ok());
    assert!(&rt; shelf.create(&name) == Err(ShelfError::Taken));
    assert!(&rt; shelf.absences() == 1);
    assert!(&rt; shelf.clashes() == 1);
    assert!(&rt; shelf.read_faults() == 0);
    assert!(&rt; shelf.write_faults() == 0);
    Ok(())
}

// Calls are numbered over all kinds together.
fn fail_by_plan(rt: &impl Abort, shelf: &mut MemShelf, name: &Text) -> Result<(), ShelfError> {
    assert!(rt; shelf.create(name) == Err(ShelfError::Failed));
    shelf.create(name)?;
    assert!(rt; shelf.append(name, b"abcd") == Err(ShelfError::Failed));
    assert!(rt; shelf.length(name)? == 2);
    assert!(rt; shelf.length(name) == Err(ShelfError::Failed));
    assert!(rt; shelf.write_faults() == 2);
    assert!(rt; shelf.read_faults() == 1);
    Ok(())
}

// Half of what a failing call was to add stands there.
#[test]
fn planned_calls_fail(rt: HostRuntime) -> Result<(), Fail> {
    let mut trial = begun(rt.alloc(), &[0, 2, 4])?;
    assert!(&rt; fail_by_plan(&rt, &mut trial.shelf, &trial.name).is_ok());
    check_bytes(&rt, &trial, b"ab");
    Ok(())
}

// By the calls that know only the trait.
fn use_as_any(rt: &impl Abort, shelf: &mut MemShelf, name: &Text) -> Result<(), ShelfError> {
    create_known(shelf, name)?;
    append_known(shelf, name, b"abc")?;
    assert!(rt; length_known(shelf, name)? == 3);
    let mut into = [0u8; 1];
    read_known(shelf, name, 1, &mut into)?;
    assert!(rt; into[0] == b'b');
    Ok(())
}

#[test]
fn a_shelf_is_used_as_any_other(rt: HostRuntime) -> Result<(), Fail> {
    let mut trial = begun(rt.alloc(), &[])?;
    assert!(&rt; use_as_any(&rt, &mut trial.shelf, &trial.name).is_ok());
    Ok(())
}

// The second piece fails the second time, in its middle.
fn add_pieces(rt: &impl Abort, trial: &mut Trial, pieces: &[Bytes]) -> Result<(), ShelfError> {
    trial.shelf.create(&trial.name)?;
    append_all(&mut trial.shelf, &trial.name, pieces)?;
    assert!(rt; append_all(&mut trial.shelf, &trial.name, pieces) == Err(ShelfError::Failed));
    Ok(())
}

#[test]
fn pieces_are_added_in_order(rt: HostRuntime) -> Result<(), Fail> {
    let mut trial = begun(rt.alloc(), &[4])?;
    let pieces = [
        Bytes::from_slice(rt.alloc(), b"ab")?,
        Bytes::from_slice(rt.alloc(), b"cd")?,
    ];
    assert!(&rt; add_pieces(&rt, &mut trial, &pieces).is_ok());
    check_bytes(&rt, &trial, b"abcdabc");
    Ok(())
}
