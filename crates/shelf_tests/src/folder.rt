//! The files of a folder.

use shelf::{DirShelf, Shelf, ShelfError};
use std::process::Abort;
use std::test::Fail;
use std::{env, fs, process};
use vs_bytes::Text;

// A name in the folder for files that don't last.
fn fresh_name(rt: &HostRuntime, word: &str) -> Result<Text, Fail> {
    let folder = env::temp_dir(rt)?;
    let number = process::id(rt.process());
    match folder.as_path().to_str() {
        Some(path) => Ok(Text::from_string(format!(in rt.alloc(); "{path}/{word}_{number}")?)),
        None => Err(Fail::from("text")),
    }
}

type Folder<'a> = DirShelf<'a, HostRuntime>;

fn make(rt: &impl Abort, shelf: &mut Folder, name: &Text) -> Result<(), ShelfError> {
    assert!(rt; shelf.length(name) == Err(ShelfError::Absent));
    shelf.create(name)?;
    assert!(rt; shelf.create(name) == Err(ShelfError::Taken));
    shelf.append(name, b"abcd")?;
    shelf.append(name, b"ef")
}

fn read(rt: &impl Abort, shelf: &mut Folder, name: &Text) -> Result<(), ShelfError> {
    assert!(rt; shelf.length(name)? == 6);
    let mut into = [0u8; 3];
    shelf.read_at(name, 2, &mut into)?;
    assert!(rt; into.as_slice() == b"cde".as_slice());
    assert!(rt; shelf.read_at(name, 4, &mut into) == Err(ShelfError::Failed));
    Ok(())
}

#[test]
fn a_file_is_made_once_and_read_in_ranges(rt: HostRuntime) -> Result<(), Fail> {
    let name = fresh_name(&rt, "vstore_shelf")?;
    let mut shelf = DirShelf::new(rt.alloc(), &rt);
    assert!(&rt; make(&rt, &mut shelf, &name).is_ok());
    assert!(&rt; read(&rt, &mut shelf, &name).is_ok());
    assert!(&rt; fs::remove_file(&rt, name.as_str()).is_ok());
    Ok(())
}

// What was made elsewhere is written and read too.
fn go_on(rt: &impl Abort, shelf: &mut Folder, name: &Text) -> Result<(), ShelfError> {
    shelf.append(name, b"xyz")?;
    let mut into = [0u8; 2];
    shelf.read_at(name, 1, &mut into)?;
    assert!(rt; into.as_slice() == b"yz".as_slice());
    Ok(())
}

#[test]
fn a_file_is_opened_when_it_is_asked_for(rt: HostRuntime) -> Result<(), Fail> {
    let name = fresh_name(&rt, "vstore_second_shelf")?;
    fs::write(&rt, name.as_str(), "")?;
    let mut shelf = DirShelf::new(rt.alloc(), &rt);
    assert!(&rt; go_on(&rt, &mut shelf, &name).is_ok());
    assert!(&rt; fs::remove_file(&rt, name.as_str()).is_ok());
    Ok(())
}

#[test]
fn a_folder_is_no_file(rt: HostRuntime) -> Result<(), Fail> {
    let name = Text::from_str(rt.alloc(), "/")?;
    let mut shelf = DirShelf::new(rt.alloc(), &rt);
    assert!(&rt; shelf.length(&name) == Err(ShelfError::Absent));
    assert!(&rt; shelf.append(&name, b"x") == Err(ShelfError::Failed));
    Ok(())
}
