//! Documents loaded to a file: the file's bytes, and what is told where there is none, or where it ends early.

use outside::{MemSink, MemSource};
use shelf::MemShelf;
use std::alloc::Global;
use std::process::Abort;
use std::test::Fail;
use test_runs::{Outcome, call_on, words_of};
use vs_bytes::{NoMemory, Text};

// The file of no documents: the magic number, the footer, its length, and the magic number.
const EMPTY: &[u8] = b"PAR1\
    \x15\x02\x19\x4c\x48\x06schema\x15\x02\x00\
    \x35\x02\x18\x03doc\x15\x04\x5c\x0c\x20\x13\x01\x00\x00\x00\
    \x15\x0c\x25\x00\x18\x08metadata\x00\
    \x15\x0c\x25\x00\x18\x05value\x00\
    \x16\x00\x19\x0c\x28\x08vstore 1\
    \x19\x2c\x1c\x00\x00\x1c\x00\x00\x00\
    \x52\x00\x00\x00PAR1";

// A load of an input to the file f.
fn loaded(alloc: Global, shelf: MemShelf, input: &[u8]) -> Result<Outcome, NoMemory> {
    let words = words_of(alloc, &["load", "f"])?;
    let source = MemSource::new(Vec::from_slice(alloc, input)?, 64, Vec::new(alloc));
    let out = MemSink::new(alloc, Vec::new(alloc));
    let err = MemSink::new(alloc, Vec::new(alloc));
    Ok(call_on(alloc, words.as_slice(), shelf, source, out, err))
}

// A shelf without files, of which one write fails.
fn failing_shelf(alloc: Global, k: u64) -> Result<MemShelf, NoMemory> {
    Ok(MemShelf::new(alloc, Vec::from_slice(alloc, &[k])?))
}

// Asserts what is answered, and which bytes f has.
fn check_load(rt: &impl Abort, run: &Outcome, name: &Text, status: u8, err: &[u8], file: &[u8]) {
    assert_eq!(rt; run.status, status);
    assert_eq!(rt; run.err.bytes(), err);
    assert_eq!(rt; run.out.bytes(), b"".as_slice());
    assert_eq!(rt; run.shelf.bytes(name), Some(file));
}

#[test]
fn no_documents_are_a_file_of_no_groups(rt: HostRuntime) -> Result<(), Fail> {
    let alloc = rt.alloc();
    let name = Text::from_str(alloc, "f")?;
    let run = loaded(alloc, MemShelf::new(alloc, Vec::new(alloc)), b"\n")?;
    check_load(&rt, &run, &name, 0, b"", EMPTY);
    Ok(())
}

#[test]
fn a_line_with_a_fault_leaves_a_file_without_a_footer(rt: HostRuntime) -> Result<(), Fail> {
    let alloc = rt.alloc();
    let name = Text::from_str(alloc, "f")?;
    let run = loaded(
        alloc,
        MemShelf::new(alloc, Vec::new(alloc)),
        b"{\"a\":1,\"a\":2}",
    )?;
    check_load(
        &rt,
        &run,
        &name,
        3,
        b"vstore: line 1: DuplicateKey\n",
        b"PAR1",
    );
    Ok(())
}

#[test]
fn a_file_that_is_there_stays(rt: HostRuntime) -> Result<(), Fail> {
    let alloc = rt.alloc();
    let name = Text::from_str(alloc, "f")?;
    let mut shelf = MemShelf::new(alloc, Vec::new(alloc));
    shelf.put(Text::from_str(alloc, "f")?, Vec::from_slice(alloc, b"old")?)?;
    let run = loaded(alloc, shelf, b"1")?;
    check_load(&rt, &run, &name, 9, b"vstore: taken\n", b"old");
    Ok(())
}

#[test]
fn documents_are_a_file_with_both_marks(rt: HostRuntime) -> Result<(), Fail> {
    let alloc = rt.alloc();
    let name = Text::from_str(alloc, "f")?;
    let run = loaded(
        alloc,
        MemShelf::new(alloc, Vec::new(alloc)),
        b"{\"a\":1}\n\n[2]",
    )?;
    assert_eq!(&rt; run.status, 0);
    let file = run.shelf.bytes(&name).unwrap_or(b"");
    assert!(&rt; EMPTY.len() < file.len());
    assert!(&rt; file.starts_with(b"PAR1") && file.ends_with(b"PAR1"));
    Ok(())
}

// The third write is that of the footer.
#[test]
fn a_failed_write_ends_the_load(rt: HostRuntime) -> Result<(), Fail> {
    let alloc = rt.alloc();
    for k in [0u64, 1, 2] {
        let run = loaded(alloc, failing_shelf(alloc, k)?, b"\n")?;
        assert_eq!(&rt; run.status, 6, "write {k}");
        assert_eq!(&rt; run.err.bytes(), b"vstore: write fault\n".as_slice());
    }
    Ok(())
}
