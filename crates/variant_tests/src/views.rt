//! Objects and arrays, viewed.

use json_tree::print;
use std::alloc::Global;
use std::process::Abort;
use std::test::Fail;
use variant_meta::MetaRef;
use variant_read::{ArrayRef, ArrayView, ObjectRef, ObjectView, ValueRef, to_tree, view};
use vs_bytes::NoMemory;

// The names `a` and `b`.
const METADATA: &[u8] = b"\x11\x02\x00\x01\x02ab";

// {"a":1,"b":[null,"hi"]} with offsets and ids of 1 byte.
const NARROW: &[u8] = b"\x02\x02\x00\x01\x00\x02\x0b\x0c\x01\x03\x02\x00\x01\x04\x00\x09hi";

// The same with offsets of 2 bytes and ids of 3.
const WIDE: &[u8] =
    b"\x26\x02\x00\x00\x00\x01\x00\x00\x00\x00\x02\x00\x0e\x00\x0c\x01\x07\x02\x00\x00\x01\x00\x04\x00\x00\x09hi";

fn object(bytes: &[u8]) -> Option<ObjectView<'_>> {
    match MetaRef::view(METADATA) {
        Ok(meta) => match view(meta, bytes, 0) {
            Ok(ValueRef::Object(object)) => Some(object),
            _ => None,
        },
        Err(_) => None,
    }
}

// The array in the field `b`.
fn array<'a>(object: &ObjectView<'a>) -> Option<ArrayView<'a>> {
    match object.get("b") {
        Some(ValueRef::Array(array)) => Some(array),
        _ => None,
    }
}

// The name and the value of each field.
fn fields(alloc: Global, object: &ObjectView<'_>) -> Result<Vec<u8>, NoMemory> {
    let mut text = Vec::new(alloc);
    for k in 0..object.len() {
        text.extend_from_slice(object.name(k).as_bytes())?;
        print(&mut text, &to_tree(alloc, object.item(k))?)?;
    }
    Ok(text)
}

// The same at known widths, and then the value of the field `a`.
fn fields_of_widths<const OW: usize, const IW: usize>(
    alloc: Global,
    object: &ObjectRef<'_, OW, IW>,
) -> Result<Vec<u8>, NoMemory> {
    let mut text = Vec::new(alloc);
    for k in 0..object.len() {
        text.extend_from_slice(object.name(k).as_bytes())?;
        print(&mut text, &to_tree(alloc, object.item(k))?)?;
    }
    if let Some(value) = object.get("a") {
        print(&mut text, &to_tree(alloc, value)?)?;
    }
    Ok(text)
}

// The values of all elements.
fn elements(alloc: Global, array: &ArrayView<'_>) -> Result<Vec<u8>, NoMemory> {
    let mut text = Vec::new(alloc);
    for k in 0..array.len() {
        print(&mut text, &to_tree(alloc, array.item(k))?)?;
    }
    Ok(text)
}

// The same at a known width.
fn elements_of_width<const OW: usize>(
    alloc: Global,
    array: &ArrayRef<'_, OW>,
) -> Result<Vec<u8>, NoMemory> {
    let mut text = Vec::new(alloc);
    for k in 0..array.len() {
        print(&mut text, &to_tree(alloc, array.item(k))?)?;
    }
    Ok(text)
}

#[test]
fn fields_are_read_by_place(rt: HostRuntime) -> Result<(), Fail> {
    match object(NARROW) {
        Some(object) => {
            let text = fields(rt.alloc(), &object)?;
            assert_eq!(&rt; text.as_slice(), b"a1b[null,\"hi\"]".as_slice());
            assert!(&rt; object.get("c").is_none());
        }
        None => assert!(&rt; false, "the object is viewed"),
    }
    Ok(())
}

#[test]
fn elements_are_read_by_place(rt: HostRuntime) -> Result<(), Fail> {
    match object(NARROW).and_then(|object| array(&object)) {
        Some(array) => {
            let text = elements(rt.alloc(), &array)?;
            assert_eq!(&rt; text.as_slice(), b"null\"hi\"".as_slice());
        }
        None => assert!(&rt; false, "the array is viewed"),
    }
    Ok(())
}

#[test]
fn objects_are_read_at_their_widths(rt: HostRuntime) -> Result<(), Fail> {
    match object(WIDE) {
        Some(object) => {
            assert!(&rt; ObjectRef::<1, 1>::of(object).is_none());
            match ObjectRef::<2, 3>::of(object) {
                Some(object) => {
                    let text = fields_of_widths(rt.alloc(), &object)?;
                    assert_eq!(&rt; text.as_slice(), b"a1b[null,\"hi\"]1".as_slice());
                }
                None => assert!(&rt; false, "the object has these widths"),
            }
        }
        None => assert!(&rt; false, "the object is viewed"),
    }
    Ok(())
}

#[test]
fn arrays_are_read_at_their_width(rt: HostRuntime) -> Result<(), Fail> {
    match object(WIDE).and_then(|object| array(&object)) {
        Some(array) => {
            assert!(&rt; ArrayRef::<1>::of(array).is_none());
            match ArrayRef::<2>::of(array) {
                Some(array) => {
                    let text = elements_of_width(rt.alloc(), &array)?;
                    assert_eq!(&rt; text.as_slice(), b"null\"hi\"".as_slice());
                }
                None => assert!(&rt; false, "the array has this width"),
            }
        }
        None => assert!(&rt; false, "the array is viewed"),
    }
    Ok(())
}
