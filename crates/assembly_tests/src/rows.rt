//! Rows of three columns, put together from their entries.

ghost use Rattle.std.specs.Prelude.{◌≡◌, ◌+◌, false, length};
ghost use Rattle.shred_schema.specs.Groups.{width};
ghost use Rattle.shred_schema.specs.Lawful.{IsWellFormed};
ghost use Rattle.shred_schema.specs.Ranges.{reads, none_read};
ghost use Rattle.shred_schema.specs.Views.{group_of};

use crate::columns::{mask_of, numbers, plain, texts};
use crate::feeding::{Pieces, feed_leaves, push_rows};
use row_assembler::{Assembler, reads_any};
use shred_schema::{Column, Mask, width};
use std::alloc::Global;
use std::test::Fail;
use test_rows::{Shown, Wrong, check_rows, split_row};

// What comes while entries may follow, and what comes after `end`.
fn assembled(
    alloc: Global,
    column: &Column,
    mask: &Mask,
    entries: &str,
    pieces: Pieces,
) -> Result<String, Wrong>
    requires column { IsWellFormed (group_of column.now.node) }
    requires mask { length mask.now ≡ 1 + width (group_of column.now.node) }
    requires some { none_read (reads mask.now) 0 (1 + width (group_of column.now.node)) ≡ false }
{
    let mut text = String::new(alloc);
    let mut assembler = Assembler::new(alloc, column, mask)?;
    feed_leaves(alloc, &mut assembler, column, mask, entries, pieces)?;
    push_rows(alloc, &mut text, &mut assembler)?;
    text.push_str(", ")?;
    assembler.end();
    push_rows(alloc, &mut text, &mut assembler)?;
    Ok(text)
}

// A row gives a mask and the entries of the leaves that it reads. In pieces of one entry they give the same rows.
fn shown(alloc: Global, column: &Column, given: &str) -> Result<String, Wrong>
    requires { IsWellFormed (group_of column.now.node) }
{
    let (bits, entries) = split_row(alloc, given)?;
    let mask = mask_of(alloc, bits)?;
    if mask.len() != 1 + width(&column.node) || !reads_any(mask.as_slice()) {
        return Err(Wrong::Parts(given.to_string(alloc)?));
    }
    let whole = assembled(alloc, column, &mask, entries, Pieces::Whole)?;
    let single = assembled(alloc, column, &mask, entries, Pieces::Single)?;
    if whole.as_str() != single.as_str() {
        return Err(Wrong::Row(single));
    }
    Ok(whole)
}

struct Texts;

impl Shown for Texts {
    fn shown(alloc: Global, given: &str) -> Result<String, Wrong> {
        shown(alloc, &texts(alloc)?, given)
    }
}

struct Numbers;

impl Shown for Numbers {
    fn shown(alloc: Global, given: &str) -> Result<String, Wrong> {
        shown(alloc, &numbers(alloc)?, given)
    }
}

struct Plain;

impl Shown for Plain {
    fn shown(alloc: Global, given: &str) -> Result<String, Wrong> {
        shown(alloc, &plain(), given)
    }
}

// The documents {"t":[]}, {"t":null}, {} and {"t":["x",1,null]}: the last row is whole once all entries came. Then the
// same where only the value of `t`, only the texts, or only the metadata is read, and rows that are absent.
const TEXTS: &str =
    "11111 | 0,1,1101000174 0,1,1101000174 0,1,110000 0,1,1101000174 / 0,1 0,1 0,1 0,1 / 0,2 0,3,00 0,2 0,2 / 0,3 0,2 0,2 0,4 1,5,0c01 1,5,00 / 0,3 0,2 0,2 0,5,78 1,4 1,4 | 1101000174(-/{(-/[])}) 1101000174(-/{(00/-)}) 110000(-/{(-/-)}) waits, 1101000174(-/{(-/[(-/78)(0c01/-)(00/-)])}) waits
00100 | 0,2 0,3,00 0,2 0,2 | (-/{(-/-)}) (-/{(00/-)}) (-/{(-/-)}) waits, (-/{(-/-)}) waits
00001 | 0,3 0,2 0,2 0,5,78 1,4 1,4 | (-/{(-/[])}) (-/{(-/-)}) (-/{(-/-)}) waits, (-/{(-/[(-/78)(-/-)(-/-)])}) waits
10000 | 0,1,110000 0,0 0,1,1101000174 | 110000(-/-) absent waits, 1101000174(-/-) waits
00011 | 0,0 0,1 / 0,0 0,1 | absent waits, (-/-) waits";

#[test]
fn lists_of_texts_are_put_together(rt: HostRuntime) -> Result<(), Fail> {
    check_rows::<Texts>(rt.alloc(), TEXTS)?;
    Ok(())
}

// Entries that no record has, by what is wrong: the first entry goes on an item; a list is cut off in one of its
// leaves, or goes on in one alone; a value stands below the maximum definition level, or none stands at it; leaves
// don't agree on whether a list is there, or a row; a text isn't UTF-8; a cell is of another kind; a repetition level
// is too high. After one such row no other is given. Where one leaf has fewer rows than another, rows are awaited. What
// a leaf would say that isn't read decides nothing.
const BROKEN: &str = "00001 | 1,5,78 | waits, LevelMismatch
00011 | 0,4 1,5,00 / 0,5,78 | waits, LevelMismatch
00011 | 0,4 / 0,5,78 1,4 | waits, LevelMismatch
00001 | 0,4,78 | waits, LevelMismatch
00001 | 0,5 | waits, LevelMismatch
00011 | 0,3 / 0,2 | waits, LevelMismatch
00011 | 0,2 / 0,3 | waits, LevelMismatch
11000 | 0,0 / 0,1 | waits, LevelMismatch
11000 | 0,1,110000 / 0,0 | waits, LevelMismatch
00001 | 0,5,ff | waits, LevelMismatch
00001 | 0,5,#1 | waits, LevelMismatch
00001 | 0,5,78 2,4 | waits, LevelMismatch
00001 | 0,4,78 0,2 | LevelMismatch, LevelMismatch
00011 | 0,2 0,2 / 0,2 | waits, (-/{(-/-)}) waits
00001 | 0,5,78 1,4 | waits, (-/{(-/[(-/78)(-/-)])}) waits";

#[test]
fn entries_of_no_record_are_refused(rt: HostRuntime) -> Result<(), Fail> {
    check_rows::<Texts>(rt.alloc(), BROKEN)?;
    Ok(())
}

// The document {"a":1,"z":2}. Then the numbers alone: one, none, no object and no row; and one that stands too low.
const NUMBERS: &str =
    "1111 | 0,1,1102000102617a / 0,2,02010100020c02 / 0,2 / 0,3,#1 | waits, 1102000102617a(02010100020c02/{(-/1)}) waits
0001 | 0,3,#1 0,2 0,1 0,0 | (-/{(-/1)}) (-/{(-/-)}) (-/-) waits, absent waits
0001 | 0,2,#1 | waits, LevelMismatch";

#[test]
fn numbers_are_put_together(rt: HostRuntime) -> Result<(), Fail> {
    check_rows::<Numbers>(rt.alloc(), NUMBERS)?;
    Ok(())
}

// A value that is always there: it may be missing only where it isn't read. The metadata is always there, too.
const PLAIN: &str = "11 | 0,0,110000 0,0,1101000174 / 0,0,00 0,0 | 110000(00/-) waits, LevelMismatch
01 | 0,0 | waits, LevelMismatch
10 | 0,0,110000 | waits, 110000(-/-) waits
10 | 0,0 | waits, LevelMismatch";

#[test]
fn a_required_value_is_there(rt: HostRuntime) -> Result<(), Fail> {
    check_rows::<Plain>(rt.alloc(), PLAIN)?;
    Ok(())
}
