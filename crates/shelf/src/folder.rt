//! The files of the working folder.

ghost use Rattle.std.specs.Prelude.{◌≡◌, []};
ghost use Rattle.shelf.specs.Folder.{dir_storage};

use crate::byte_range::{ByteRange, keep_range};
use crate::shelf::{Shelf, ShelfError};
use crate::tally::Counts;
use std::alloc::Global;
use std::fs::{Files, OpenFile, OpenOptions};
use std::io::{ErrorKind, Write};
use std::os::unix::fs::FileExt;
use vs_bytes::{Refused, Sequence, Text};

// An open file, with the name by which it was opened.
#[derive(Drop)]
struct Opened<F> {
    name: Text,
    file: F,
}

// A file that is written to. It is whole until a write to it fails.
#[derive(Drop)]
struct Written<F> {
    name: Text,
    file: F,
    whole: bool,
}

/// The files of the working folder, or of any folder that their names lead to. Nothing is known of
/// their contents.
///
/// The file that was measured or read last stays open, and so does the one that was made or written
/// last, so that each range is one read and each piece one write of the system. A file that another
/// program removes meanwhile can still be read. After a write has failed in part, this shelf writes
/// no more to that file while it holds it open.
#[derive(Drop)]
pub struct DirShelf<'a, R: Files> {
    rt: &'a R,
    alloc: Global,
    reading: Option<Opened<R::File>>,
    writing: Option<Written<R::File>>,
    touched: Sequence<ByteRange>,
    counts: Counts,
}

impl<'a, R: Files> DirShelf<'a, R> {
    /// A shelf over the files that `rt` gives, with none open.
    pub fn new(alloc: Global, rt: &'a R) -> DirShelf<'a, R>
        ensures { dir_storage result ≡ record {
          files = None;
          touched = [];
          counts = record { read_faults = 0; write_faults = 0; absences = 0; clashes = 0 };
        } }
    {
        DirShelf {
            rt,
            alloc,
            reading: None,
            writing: None,
            touched: Sequence::new(alloc),
            counts: Counts::new(),
        }
    }
}

// Why a file isn't open to be read: there is none of its name, or the system refused it.
#[derive(Drop)]
enum Unread {
    NoFile,
    Broken,
}

// Why a file wasn't made: there is one of its name, or the system refused it.
#[derive(Drop)]
enum Unmade {
    Exists,
    Broken,
}

// The system refused a read or a write.
#[derive(Drop)]
struct Broken;

// Opens a file to be read. A folder or a device is no file.
fn open_file<R: Files>(
    alloc: Global,
    rt: &R,
    name: &Text,
) -> Result<Opened<R::File>, Refused<Unread>> {
    match std::fs::metadata(rt, name.as_str()) {
        Ok(facts) => {
            if !facts.is_file() {
                return Err(Refused::Fault(Unread::NoFile));
            }
        }
        Err(error) => {
            return match error.kind() {
                ErrorKind::NotFound | ErrorKind::NotADirectory | ErrorKind::InvalidInput => {
                    Err(Refused::Fault(Unread::NoFile))
                }
                _ => Err(Refused::Fault(Unread::Broken)),
            };
        }
    }
    let copy = Text::from_str(alloc, name.as_str())?;
    match std::fs::File::open(rt, name.as_str()) {
        Ok(file) => Ok(Opened { name: copy, file }),
        Err(_) => Err(Refused::Fault(Unread::Broken)),
    }
}

// The length of a file, which stays open.
fn measure<R: Files>(
    reading: &mut Option<Opened<R::File>>,
    alloc: Global,
    rt: &R,
    name: &Text,
) -> Result<u64, Refused<Unread>> {
    let opened = open_file(alloc, rt, name)?;
    match opened.file.metadata() {
        Ok(facts) => {
            let size = facts.len();
            *reading = Some(opened);
            Ok(size)
        }
        Err(_) => Err(Refused::Fault(Unread::Broken)),
    }
}

// Reads a range of the file that is open, or of one that is opened and stays so.
fn read_range<R: Files>(
    reading: &mut Option<Opened<R::File>>,
    alloc: Global,
    rt: &R,
    name: &Text,
    at: u64,
    into: &mut [u8],
) -> Result<(), Refused<Broken>>
where
    R::File: FileExt,
{
    if let Some(opened) = reading {
        if opened.name == *name {
            return read_exact(&opened.file, at, into);
        }
    }
    match open_file(alloc, rt, name) {
        Ok(opened) => {
            let done = read_exact(&opened.file, at, into);
            *reading = Some(opened);
            done
        }
        Err(Refused::Fault(_)) => Err(Refused::Fault(Broken)),
        Err(Refused::NoMemory) => Err(Refused::NoMemory),
    }
}

fn read_exact<F: FileExt>(file: &F, at: u64, into: &mut [u8]) -> Result<(), Refused<Broken>> {
    match file.read_exact_at(into, at) {
        Ok(()) => Ok(()),
        Err(_) => Err(Refused::Fault(Broken)),
    }
}

// Makes a new file, which stays open to be written.
fn make<R: Files>(
    writing: &mut Option<Written<R::File>>,
    alloc: Global,
    rt: &R,
    name: &Text,
) -> Result<(), Refused<Unmade>> {
    let copy = Text::from_str(alloc, name.as_str())?;
    let mut options = OpenOptions::new();
    options.append(true).create_new(true);
    match options.open(rt, name.as_str()) {
        Ok(file) => {
            *writing = Some(Written {
                name: copy,
                file,
                whole: true,
            });
            Ok(())
        }
        Err(error) => {
            if error.kind() == ErrorKind::AlreadyExists {
                return Err(Refused::Fault(Unmade::Exists));
            }
            Err(Refused::Fault(Unmade::Broken))
        }
    }
}

// Opens a file that is there, to be written at its end.
fn open_end<R: Files>(
    alloc: Global,
    rt: &R,
    name: &Text,
) -> Result<Written<R::File>, Refused<Broken>> {
    let copy = Text::from_str(alloc, name.as_str())?;
    let mut options = OpenOptions::new();
    options.append(true);
    match options.open(rt, name.as_str()) {
        Ok(file) => Ok(Written {
            name: copy,
            file,
            whole: true,
        }),
        Err(_) => Err(Refused::Fault(Broken)),
    }
}

// Adds bytes at the end of the file that is open, or of one that is opened and stays so.
fn add<R: Files>(
    writing: &mut Option<Written<R::File>>,
    alloc: Global,
    rt: &R,
    name: &Text,
    bytes: &[u8],
) -> Result<(), Refused<Broken>> {
    if let Some(written) = writing {
        if written.name == *name {
            return write_end(written, bytes);
        }
    }
    let mut written = open_end(alloc, rt, name)?;
    let done = write_end(&mut written, bytes);
    *writing = Some(written);
    done
}

fn write_end<F: Write>(written: &mut Written<F>, bytes: &[u8]) -> Result<(), Refused<Broken>> {
    if !written.whole {
        return Err(Refused::Fault(Broken));
    }
    match written.file.write_all(bytes) {
        Ok(()) => Ok(()),
        Err(_) => {
            written.whole = false;
            Err(Refused::Fault(Broken))
        }
    }
}

impl<'a, R: Files> Shelf for DirShelf<'a, R>
where
    R::File: FileExt,
{
    ghost seen = { dir_storage };

    fn length(&mut self, name: &Text) -> Result<u64, ShelfError> {
        match measure(&mut self.reading, self.alloc, self.rt, name) {
            Ok(size) => Ok(size),
            Err(Refused::Fault(Unread::NoFile)) => Err(self.counts.absence()),
            Err(Refused::Fault(Unread::Broken)) => Err(self.counts.read_fault()),
            Err(Refused::NoMemory) => Err(ShelfError::NoMemory),
        }
    }

    fn read_at(&mut self, name: &Text, at: u64, into: &mut [u8]) -> Result<(), ShelfError> {
        match keep_range(&mut self.touched, self.alloc, name, at, into.len() as u64) {
            Ok(()) => {}
            Err(_) => return Err(ShelfError::NoMemory),
        }
        match read_range(&mut self.reading, self.alloc, self.rt, name, at, into) {
            Ok(()) => Ok(()),
            Err(Refused::Fault(_)) => Err(self.counts.read_fault()),
            Err(Refused::NoMemory) => Err(ShelfError::NoMemory),
        }
    }

    fn create(&mut self, name: &Text) -> Result<(), ShelfError> {
        match make(&mut self.writing, self.alloc, self.rt, name) {
            Ok(()) => {
                // What is open to be read may be an older file of this name, which was removed.
                self.reading = None;
                Ok(())
            }
            Err(Refused::Fault(Unmade::Exists)) => Err(self.counts.clash()),
            Err(Refused::Fault(Unmade::Broken)) => Err(self.counts.write_fault()),
            Err(Refused::NoMemory) => Err(ShelfError::NoMemory),
        }
    }

    fn append(&mut self, name: &Text, bytes: &[u8]) -> Result<(), ShelfError> {
        match add(&mut self.writing, self.alloc, self.rt, name, bytes) {
            Ok(()) => Ok(()),
            Err(Refused::Fault(_)) => Err(self.counts.write_fault()),
            Err(Refused::NoMemory) => Err(ShelfError::NoMemory),
        }
    }
}
