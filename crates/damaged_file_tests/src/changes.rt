//! Files whose bytes were changed at one place, and a file of another writer.

use shelf::MemShelf;
use std::alloc::Global;
use std::test::Fail;
use test_files::{answer_text, called, lines_of, load_file, outcome_text, shelf_of};
use test_rows::{Shown, Wrong, bytes_of, check_rows, hex_text, split_row};

// The bytes of a loaded file with one stretch of them replaced, both in hex. It must stand there once.
fn changed(alloc: Global, file: &[u8], old: &str, new: &str) -> Result<Vec<u8>, Wrong> {
    let digits = hex_text(alloc, file)?;
    let Some((before, after)) = digits.split_once(old) else {
        return Err(Wrong::Parts(old.to_string(alloc)?));
    };
    if after.contains(old) {
        return Err(Wrong::Parts(old.to_string(alloc)?));
    }
    let all = format!(in alloc; "{before}{new}{after}")?;
    Ok(bytes_of(alloc, all.as_str())?)
}

// The file f that a load with these options makes.
fn file_with(alloc: Global, options: &str, input: &str) -> Result<Vec<u8>, Wrong> {
    let load = format!(in alloc; "load f {options}")?;
    let input = lines_of(alloc, input)?;
    Ok(load_file(alloc, load.as_str(), input.as_bytes())?)
}

// A shelf whose file f is loaded and then changed. The row gives the options of the load, its documents, and both
// stretches.
fn changed_shelf(alloc: Global, given: &str) -> Result<MemShelf, Wrong> {
    let (options, rest) = split_row(alloc, given)?;
    let (input, rest) = split_row(alloc, rest)?;
    let (old, new) = split_row(alloc, rest)?;
    let file = file_with(alloc, options, input)?;
    let bytes = changed(alloc, file.as_slice(), old, new)?;
    Ok(shelf_of(alloc, bytes.as_slice(), &[])?)
}

// The ranges that were asked for after the three of opening.
fn chunks_text(alloc: Global, shelf: &MemShelf) -> Result<String, Wrong> {
    let mut text = String::new(alloc);
    for k in 3..shelf.touched_len() {
        let (_name, at, size) = shelf.touched_at(k);
        let next = format!(in alloc; "({at} {size})")?;
        text.push_str(next.as_str())?;
    }
    Ok(text)
}

// How a call on a changed file ends, and the ranges that it asked for.
fn change_text(alloc: Global, words: &str, shelf: MemShelf) -> Result<String, Wrong> {
    let call = called(alloc, words, shelf, b"")?;
    let answer = outcome_text(alloc, &call)?;
    let chunks = chunks_text(alloc, &call.shelf)?;
    Ok(format!(in alloc; "{answer} {chunks}")?)
}

// A row gives what `changed_shelf` takes, with `;` between its parts, and the words of the call.
struct Changes;

impl Shown for Changes {
    fn shown(alloc: Global, given: &str) -> Result<String, Wrong> {
        let (file, words) = split_row(alloc, given)?;
        let file = file.replace(alloc, ';', " | ")?;
        let shelf = changed_shelf(alloc, file.as_str())?;
        change_text(alloc, words, shelf)
    }
}

// The chunks of {"a":1,"z":2} under {a:int64}, each a page header of 17 bytes and its body: the metadata 1102000102617a
// has 34 bytes from 4 on (levels 6, length 4, cell 7), the value 02010100020c02 has 35 from 38 on (levels 7), the value of
// a has 24 from 73 on (levels 7), and the number has 32 from 97 on (levels 7, cell 8).
//
// The id of z becomes that of a, so that the value has the field a too. The levels of the last chunk become one level
// of 9, the codec of a chunk becomes 1: its path ends with typed_value. Both are told after the chunks before have been
// read. The last byte of the file is cut. Names of the metadata are no UTF-8, and not in order; an id isn't below their
// number. In the second group of two, a value has a kind that there isn't: the line of the first is printed. There a chunk of
// the metadata 110000 has 30 bytes (levels 6, length 4, cell 3), and one of the value 0c02 has 29.
//
// A query reads the metadata and what its paths need: of a both leaves, of z the value, of a part of a the value of a. What
// it doesn't read it doesn't judge.
//
// Where neither a value nor a number is there, the row is null.
const CHANGES: &str =
    r#"--schema={a:int64};{"a":1,"z":2};02010100020c02;02010000020c02 | check f | 4 vstore: file 1: FieldInBoth group 0 row 0¶ (4 34)(38 35)(73 24)(97 32)
--schema={a:int64};{"a":1,"z":2};02010100020c02;02010000020c02 | query f $ | 4 vstore: file 1: FieldInBoth group 0 row 0¶ (4 34)(38 35)(73 24)(97 32)
--schema={a:int64};{"a":1,"z":2};03000000030300;03000000020900 | query f $ | 4 vstore: file 1: LevelRange group 0 leaf 3¶ (4 34)(38 35)(73 24)(97 32)
--schema={a:int64};{"a":1,"z":2};03000000030300;03000000020900 | check f | 4 vstore: file 1: LevelRange group 0 leaf 3¶ (4 34)(38 35)(73 24)(97 32)
--schema={a:int64};{"a":1,"z":2};74797065645f76616c75651500;74797065645f76616c75651502 | query f $ | 4 vstore: file 1: Codec group 0 leaf 3¶ (4 34)(38 35)(73 24)
--schema={a:int64};{"a":1,"z":2};74797065645f76616c75651500;74797065645f76616c75651502 | check f | 4 vstore: file 1: Codec group 0 leaf 3¶ (4 34)(38 35)(73 24)
--schema={a:int64};{"a":1,"z":2};000050415231;0000504152 | query f $ | 4 vstore: file 1: NotParquet¶ 
--schema={a:int64};{"a":1,"z":2};000050415231;0000504152 | check f | 4 vstore: file 1: NotParquet¶ 
--schema={a:int64};{"a":1,"z":2};02010100020c02;02010000020c02 | query f $.a | 0 {"$.a":1}¶ (4 34)(73 24)(97 32)
--schema={a:int64};{"a":1,"z":2};02010100020c02;02010200020c02 | query f $.z | 4 vstore: file 1: FieldId group 0 row 0¶ (4 34)(38 35)
--schema={a:int64};{"a":1,"z":2};02010100020c02;02010200020c02 | query f $.a | 0 {"$.a":1}¶ (4 34)(73 24)(97 32)
--schema={a:int64};{"a":1,"z":2};02010100020c02;02010200020c02 | query f --where=$.z·=·2 $.a | 4 vstore: file 1: FieldId group 0 row 0¶ (4 34)(38 35)(73 24)(97 32)
--schema={a:int64};{"a":1,"z":2};02010100020c02;02010100020c03 | query f $.a.k | 0 {}¶ (4 34)(73 24)
--schema={a:int64};{"a":1,"z":2};1102000102617a;1102000102617a | query f $ | 0 {"$":{"a":1,"z":2}}¶ (4 34)(38 35)(73 24)(97 32)
--schema={a:int64};{"a":1,"z":2};1102000102617a;1102000102ff7a | check f | 4 vstore: file 1: MetaUtf8 group 0 row 0¶ (4 34)(38 35)(73 24)(97 32)
--schema={a:int64};{"a":1,"z":2};1102000102617a;11020001027a61 | check f | 4 vstore: file 1: MetaOrder group 0 row 0¶ (4 34)(38 35)(73 24)(97 32)
--schema=int64;null;03000000030200;03000000030100 | query f --where=$·=·null $ | 0 {"$":null}¶ (4 30)(34 29)(63 24)
--group-rows=1;1¶2;0c02;fc02 | query f $ | 4 {"$":1}¶vstore: file 1: TypeId group 1 row 0¶ (4 30)(34 29)(63 30)(93 29)"#;

#[test]
fn a_changed_byte_is_told_by_its_rule_and_place(rt: HostRuntime) -> Result<(), Fail> {
    check_rows::<Changes>(rt.alloc(), CHANGES)?;
    Ok(())
}

// A row gives a file in hex, and the words of the call.
struct ByHand;

impl Shown for ByHand {
    fn shown(alloc: Global, given: &str) -> Result<String, Wrong> {
        let (digits, words) = split_row(alloc, given)?;
        let shelf = shelf_of(alloc, bytes_of(alloc, digits)?.as_slice(), &[])?;
        answer_text(alloc, words, shelf, b"")
    }
}

// A file of another writer: the required group v of the required `value` and then the required `metadata`, without
// annotations and statistics, has one row. Nothing has a level.
//
// The chunk of the value has 28 bytes from 4 on: a page header of 17 bytes (body of 11: 16 in zigzag), the length 7 and
// the cell 02010000020c01. The chunk of the metadata has 26 bytes from 32 on: the cell is 1101000161. The footer of 125
// bytes (7d) follows at 58: version 1, four schema elements (the root with its name and 1 child; v, which is required,
// with 2 children; both leaves with BYTE_ARRAY, 6, and required, 0), 1 row, and a group of two chunks: each with the file
// offset 0, the type 6, the encoding PLAIN, its path, the codec 0, 1 value, its size twice, and where it begins; then the
// group's 54 bytes and 1 row.
const FOREIGN: &str =
    r#"50415231 150015161516 2c15021500150615060000 0700000002010000020c01 150015121512 2c15021500150615060000 050000001101000161 1502 194c 4806736368656d61 1502 00 3500 180176 1504 00 150c2500 180576616c7565 00 150c2500 18086d65746164617461 00 1602 191c 192c 26001c 150c 191500 192801760576616c7565 1500 1602 1638 1638 2608 0000 26001c 150c 191500 19280176086d65746164617461 1500 1602 1634 1634 2640 0000 166c 1602 0000 7d000000 50415231"#;

const ANSWERS: &str = r#"query f --column v $ | 0 {"$":{"a":1}}¶
query f --column v $.a | 0 {"$.a":1}¶
query f --column v --where=$.a·missing $.a | 0
check f --column v | 0 ok 1 groups 1 rows¶
query f $ | 4 vstore: file 1: NoVariant¶
check f | 4 vstore: file 1: NoVariant¶
query f --column=value $ | 4 vstore: file 1: NoVariant¶"#;

#[test]
fn a_file_of_another_writer_is_read(rt: HostRuntime) -> Result<(), Fail> {
    let alloc = rt.alloc();
    for row in ANSWERS.split('\n') {
        let whole = format!(in alloc; "{FOREIGN} | {row}")?;
        check_rows::<ByHand>(alloc, whole.as_str())?;
    }
    Ok(())
}
