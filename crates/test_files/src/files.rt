//! The file f of a shelf.

use crate::calls::loaded;
use shelf::MemShelf;
use std::alloc::Global;
use vs_bytes::{NoMemory, Text};

/// A shelf whose one file f has these bytes. Its calls of these numbers fail.
pub fn shelf_of(alloc: Global, bytes: &[u8], failing: &[u64]) -> Result<MemShelf, NoMemory> {
    let mut shelf = MemShelf::new(alloc, Vec::from_slice(alloc, failing)?);
    shelf.put(Text::from_str(alloc, "f")?, Vec::from_slice(alloc, bytes)?)?;
    Ok(shelf)
}

/// The bytes of the file f: none where there is no such file.
pub fn file_of<'a>(alloc: Global, shelf: &'a MemShelf) -> Result<&'a [u8], NoMemory> {
    let name = Text::from_str(alloc, "f")?;
    Ok(shelf.bytes(&name).unwrap_or(b""))
}

/// The shelf that a call leaves where there were no files.
pub fn load_shelf(alloc: Global, words: &str, input: &[u8]) -> Result<MemShelf, NoMemory> {
    Ok(loaded(alloc, words, input)?.shelf)
}

/// The file f that a call leaves where there were no files.
pub fn load_file(alloc: Global, words: &str, input: &[u8]) -> Result<Vec<u8>, NoMemory> {
    let shelf = load_shelf(alloc, words, input)?;
    Ok(Vec::from_slice(alloc, file_of(alloc, &shelf)?)?)
}

/// A file without its footer, the length of that, and the magic number at its end.
pub fn without_footer(file: &[u8]) -> &[u8] {
    let end = file.len().saturating_sub(8);
    let [a, b, c, d, ..] = &file[end..] else {
        return file;
    };
    let size = u32::from_le_bytes([*a, *b, *c, *d]) as usize;
    &file[..end.saturating_sub(size)]
}
