//! Files that are opened.

use shelf::MemShelf;
use std::alloc::{AllocError, Global};
use std::test::Fail;
use test_rows::{Shown, Wrong, bytes_of, check_rows, number_of, split_row};
use thrift_footer::{OpenFault, Opened, open_file};
use vs_bytes::{NoMemory, Text};

// A shelf in memory with one file, whose name is `a`. One of its calls fails.
fn shelf_of(alloc: Global, failing: u32, bytes: Vec<u8>) -> Result<MemShelf, NoMemory> {
    let failing = Vec::from_slice(alloc, &[u64::from(failing)])?;
    let mut shelf = MemShelf::new(alloc, failing);
    let name = Text::from_str(alloc, "a")?;
    shelf.put(name, bytes)?;
    Ok(shelf)
}

fn opened_text(alloc: Global, opened: &Result<Opened, OpenFault>) -> Result<String, AllocError> {
    match opened {
        Ok(file) => format!(in alloc;
            "{} bytes, footer at {}, {} rows",
            file.length, file.end, file.meta.num_rows
        ),
        Err(OpenFault::Absent) => "Absent".to_string(alloc),
        Err(OpenFault::Failed) => "Failed".to_string(alloc),
        Err(OpenFault::NoMemory) => "NoMemory".to_string(alloc),
        Err(OpenFault::Refused(rule)) => rule.name().to_string(alloc),
    }
}

// The ranges that were asked for.
fn ranges_text(alloc: Global, shelf: &MemShelf) -> Result<String, AllocError> {
    let mut text = String::new(alloc);
    for k in 0..shelf.touched_len() {
        let (_name, at, size) = shelf.touched_at(k);
        let next = format!(in alloc; " ({at} {size})")?;
        text.push_str(next.as_str())?;
    }
    Ok(text)
}

fn found(alloc: Global, name: &str, failing: u32, bytes: Vec<u8>) -> Result<String, Wrong> {
    let mut shelf = shelf_of(alloc, failing, bytes)?;
    let name = Text::from_str(alloc, name)?;
    let opened = open_file(alloc, &mut shelf, &name);
    let text = opened_text(alloc, &opened)?;
    let ranges = ranges_text(alloc, &shelf)?;
    Ok(format!(in alloc; "{text}:{ranges}")?)
}

// A row gives the name of the file that is opened, the number of the call that fails, and the bytes of the file `a`.
struct Files;

impl Shown for Files {
    fn shown(alloc: Global, given: &str) -> Result<String, Wrong> {
        let (name, rest) = split_row(alloc, given)?;
        let (failing, digits) = split_row(alloc, rest)?;
        let failing = number_of(alloc, failing)?;
        let bytes = bytes_of(alloc, digits)?;
        found(alloc, name, failing, bytes)
    }
}

// A footer of 15 bytes after the magic number, and after two bytes of pages; another name; 11 bytes; no footer between
// the ends; a footer of one byte.
const FILES: &str =
    "a | 9 | 50415231 1502191c1502380161001600190c00 0f000000 50415231 | 27 bytes, footer at 4, 0 rows: (19 8) (0 4) (4 15)
a | 9 | 50415231 ffff 1502191c1502380161001600190c00 0f000000 50415231 | 29 bytes, footer at 6, 0 rows: (21 8) (0 4) (6 15)
b | 9 | 50415231 1502191c1502380161001600190c00 0f000000 50415231 | Absent:
a | 9 | 50415231 000000 50415231 | NotParquet:
a | 9 | 50415231 00000000 50415231 | Thrift: (4 8) (0 4) (4 0)
a | 9 | 50415231 00 01000000 50415231 | FooterField: (5 8) (0 4) (4 1)";

#[test]
fn files_are_opened(rt: HostRuntime) -> Result<(), Fail> {
    check_rows::<Files>(rt.alloc(), FILES)?;
    Ok(())
}

// Other bytes at the front, and at the end; a footer that is one byte too long, and one of 2^32 - 1 bytes; a length whose
// first byte is the highest.
const ENDS: &str =
    "a | 9 | 50415232 1502191c1502380161001600190c00 0f000000 50415231 | NotParquet: (19 8) (0 4)
a | 9 | 50415231 1502191c1502380161001600190c00 0f000000 50415245 | NotParquet: (19 8) (0 4)
a | 9 | 50415231 1502191c1502380161001600190c00 10000000 50415231 | FooterLength: (19 8) (0 4)
a | 9 | 50415231 1502191c1502380161001600190c00 ffffffff 50415231 | FooterLength: (19 8) (0 4)
a | 9 | 50415231 1502191c1502380161001600190c00 0000000f 50415231 | FooterLength: (19 8) (0 4)";

#[test]
fn ends_that_are_refused(rt: HostRuntime) -> Result<(), Fail> {
    check_rows::<Files>(rt.alloc(), ENDS)?;
    Ok(())
}

// Each call in turn fails: the length, the last bytes, the first bytes, the footer.
const FAULTS: &str = "a | 0 | 50415231 1502191c1502380161001600190c00 0f000000 50415231 | Failed:
a | 1 | 50415231 1502191c1502380161001600190c00 0f000000 50415231 | Failed: (19 8)
a | 2 | 50415231 1502191c1502380161001600190c00 0f000000 50415231 | Failed: (19 8) (0 4)
a | 3 | 50415231 1502191c1502380161001600190c00 0f000000 50415231 | Failed: (19 8) (0 4) (4 15)";

#[test]
fn calls_that_fail(rt: HostRuntime) -> Result<(), Fail> {
    check_rows::<Files>(rt.alloc(), FAULTS)?;
    Ok(())
}
