//! Values of the compact protocol, written.

use std::alloc::Global;
use std::process::Abort;
use std::test::Fail;
use thrift_compact::Writer;
use vs_bytes::NoMemory;

fn numbers(alloc: Global) -> Result<Writer, NoMemory> {
    let mut writer = Writer::new(alloc);
    writer.i32(1, 1)?;
    writer.i64(2, -1)?;
    writer.i8(3, -1)?;
    writer.boolean(4, true)?;
    writer.boolean(5, false)?;
    writer.binary(21, b"hi")?;
    writer.end()?;
    Ok(writer)
}

// The last id is 16 above the one before it, so it stands in two bytes: 42 is the zigzag of 21.
#[test]
fn numbers_and_binaries_are_written(rt: HostRuntime) -> Result<(), Fail> {
    let writer = numbers(rt.alloc())?;
    assert_eq!(&rt;
        writer.bytes(),
        b"\x15\x02\x16\x01\x13\xff\x11\x12\x08\x2a\x02hi\x00".as_slice()
    );
    Ok(())
}

fn lists(alloc: Global) -> Result<Writer, NoMemory> {
    let mut writer = Writer::new(alloc);
    writer.list(1, 5, 2)?;
    writer.item_i32(1)?;
    writer.item_i32(-1)?;
    writer.list(2, 8, 1)?;
    writer.item_binary(b"a")?;
    writer.end()?;
    Ok(writer)
}

#[test]
fn lists_are_written(rt: HostRuntime) -> Result<(), Fail> {
    let writer = lists(rt.alloc())?;
    assert_eq!(&rt;
        writer.bytes(),
        b"\x19\x25\x02\x01\x19\x18\x01a\x00".as_slice()
    );
    Ok(())
}

fn structs(alloc: Global) -> Result<Writer, NoMemory> {
    let mut writer = Writer::new(alloc);
    writer.begin(1)?;
    writer.i32(1, 1)?;
    writer.end()?;
    writer.list(2, 12, 1)?;
    writer.begin_item()?;
    writer.end()?;
    writer.end()?;
    Ok(writer)
}

#[test]
fn structs_inside_are_written(rt: HostRuntime) -> Result<(), Fail> {
    let writer = structs(rt.alloc())?;
    assert_eq!(&rt;
        writer.bytes(),
        b"\x1c\x15\x02\x00\x19\x1c\x00\x00".as_slice()
    );
    Ok(())
}
