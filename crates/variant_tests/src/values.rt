//! Values, written.

ghost use Rattle.std.specs.Prelude.{◌≤◌};
ghost use Rattle.variant_write.specs.Conditions.{max_width};

use json_tree::{Items, Members, Number, Tree, text_len};
use std::alloc::{AllocError, Global};
use std::process::Abort;
use std::test::Fail;
use variant_write::{Composer, Widths, dictionary_of, encode, encode_members};
use vs_bytes::{NoMemory, Text};

// The longest canonical text of a value that is written: 16 MiB.
const MAX_TEXT_LEN: u64 = 16_777_216;

// Why nothing was written.
#[derive(Debug, Drop)]
enum Wrong {
    // A name stands twice.
    Repeated,
    // The canonical text is longer than writers take.
    TooLong,
    // Another value than the one that was made.
    Other,
    NoMemory,
}

impl From<NoMemory> for Wrong {
    fn from(_error: NoMemory) -> Wrong {
        Wrong::NoMemory
    }
}

impl From<AllocError> for Wrong {
    fn from(_error: AllocError) -> Wrong {
        Wrong::NoMemory
    }
}

// The members of {"a":1,"b":[null,"hi"]}.
fn pairs(alloc: Global) -> Result<Vec<(Text, Tree)>, NoMemory> {
    let mut items = Items::new(alloc);
    items.push(Tree::Null)?;
    items.push(Tree::Text(Text::from_str(alloc, "hi")?))?;
    let mut pairs = Vec::new(alloc);
    pairs.push((Text::from_str(alloc, "a")?, Tree::Num(Number::of(1, 0))))?;
    pairs.push((Text::from_str(alloc, "b")?, Tree::Array(items)))?;
    Ok(pairs)
}

fn members(alloc: Global) -> Result<Members, Wrong> {
    match Members::from_pairs(pairs(alloc)?) {
        Ok(members) => Ok(members),
        Err(_) => Err(Wrong::Repeated),
    }
}

// The bytes of the object, by its own dictionary.
fn encoded(alloc: Global, offset: u8, id: u8) -> Result<Vec<u8>, Wrong>
    requires offset { (1 ≤ offset) × (offset ≤ max_width) }
    requires id { (1 ≤ id) × (id ≤ max_width) }
{
    let tree = Tree::Object(members(alloc)?);
    if text_len(&tree) > MAX_TEXT_LEN {
        return Err(Wrong::TooLong);
    }
    let dictionary = dictionary_of(alloc, &tree)?;
    let mut bytes = Vec::new(alloc);
    encode(&mut bytes, &dictionary, &tree, Widths { offset, id })?;
    Ok(bytes)
}

// The bytes of its member `b` alone.
fn chosen(alloc: Global) -> Result<Vec<u8>, Wrong> {
    let tree = Tree::Object(members(alloc)?);
    if text_len(&tree) > MAX_TEXT_LEN {
        return Err(Wrong::TooLong);
    }
    let dictionary = dictionary_of(alloc, &tree)?;
    let mut bytes = Vec::new(alloc);
    if let Tree::Object(members) = &tree {
        if members.len() == 2 {
            encode_members(
                &mut bytes,
                &dictionary,
                members,
                &[false, true],
                Widths { offset: 1, id: 1 },
            )?;
            return Ok(bytes);
        }
    }
    Err(Wrong::Other)
}

// An object (2) of 2 fields, the ids 0 and 1, the offsets 0, 2 and 11, then int8 (type id 3) 1, and an array (3) of 2
// items with the offsets 0, 1 and 4: null, and a short string (1) of 2 bytes.
#[test]
fn an_object_is_written(rt: HostRuntime) -> Result<(), Fail> {
    let bytes = encoded(rt.alloc(), 1, 1)?;
    assert_eq!(&rt;
        bytes.as_slice(),
        b"\x02\x02\x00\x01\x00\x02\x0b\x0c\x01\x03\x02\x00\x01\x04\x00\x09hi".as_slice()
    );
    Ok(())
}

// The same with offsets of 2 bytes and ids of 3: the headers are 2 + 4 * (1 + 4 * 2) and 3 + 4 * 1.
#[test]
fn wider_numbers_are_written(rt: HostRuntime) -> Result<(), Fail> {
    let bytes = encoded(rt.alloc(), 2, 3)?;
    assert_eq!(&rt;
        bytes.as_slice(),
        b"\x26\x02\x00\x00\x00\x01\x00\x00\x00\x00\x02\x00\x0e\x00\x0c\x01\x07\x02\x00\x00\x01\x00\x04\x00\x00\x09hi".as_slice()
    );
    Ok(())
}

// One field, of id 1.
#[test]
fn a_chosen_member_is_written(rt: HostRuntime) -> Result<(), Fail> {
    let bytes = chosen(rt.alloc())?;
    assert_eq!(&rt;
        bytes.as_slice(),
        b"\x02\x01\x01\x00\x09\x03\x02\x00\x01\x04\x00\x09hi".as_slice()
    );
    Ok(())
}

// Two nulls in an array, and true (type id 1) in an object.
#[test]
fn written_values_are_composed(rt: HostRuntime) -> Result<(), Fail> {
    let mut bytes = Vec::new(rt.alloc());
    Composer::<2, 1>::array(&mut bytes, &[1, 2], &[0, 0])?;
    Composer::<1, 1>::object(&mut bytes, &[0], &[1], &[4])?;
    assert_eq!(&rt;
        bytes.as_slice(),
        b"\x07\x02\x00\x00\x01\x00\x02\x00\x00\x00\x02\x01\x00\x00\x01\x04".as_slice()
    );
    Ok(())
}
