//! Dictionaries, and metadata read in place.

use std::alloc::Global;
use std::process::Abort;
use std::test::Fail;
use variant_meta::{Dictionary, MetaRef};
use vs_bytes::{NoMemory, Text};

// Version 1 with sorted names in offsets of one byte, two names, the offsets 0, 1 and 2, and the names.
const METADATA: &[u8] = b"\x11\x02\x00\x01\x02ab";

// The metadata of the names `b`, `a` and `b`.
fn written(alloc: Global) -> Result<Vec<u8>, NoMemory> {
    let mut names = Vec::new(alloc);
    names.push(Text::from_str(alloc, "b")?)?;
    names.push(Text::from_str(alloc, "a")?)?;
    names.push(Text::from_str(alloc, "b")?)?;
    let dictionary = Dictionary::from_names(names)?;
    let mut bytes = Vec::new(alloc);
    dictionary.write(&mut bytes, 1)?;
    Ok(bytes)
}

#[test]
fn a_dictionary_has_each_name_once_in_order(rt: HostRuntime) -> Result<(), Fail> {
    let bytes = written(rt.alloc())?;
    assert_eq!(&rt; bytes.as_slice(), METADATA);
    Ok(())
}

#[test]
fn names_are_found_in_place(rt: HostRuntime) -> Result<(), Fail> {
    match MetaRef::view(METADATA) {
        Ok(meta) => {
            assert_eq!(&rt; meta.len(), 2);
            assert!(&rt; meta.find("b") == Some(1));
            assert!(&rt; meta.find("c").is_none());
        }
        Err(_) => assert!(&rt; false, "the metadata is read"),
    }
    Ok(())
}
