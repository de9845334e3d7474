//! Files that were cut, changed at random, or made of random bytes: a query and a check of each end with an answer or a
//! rule.

use crate::draws::Draws;
use crate::verdicts::is_refused;
use std::alloc::Global;
use std::test::Fail;
use test_files::{lines_of, load_file, without_footer};
use test_rows::{Wrong, split_row};
use vs_bytes::NoMemory;

// Files: the options of a load, and its documents.
const FILES: &str = r#"--group-rows=2 | {"a":1,"z":2}¶[1,"x",null]¶7
--schema={a:int64,s:string} --group-rows=2 | {"a":1,"s":"é","z":2}¶{"a":"x"}¶{"s":"abcdefgh"}¶{}¶[1]
--schema={t:[{k:int64,v:boolean}]} | {"t":[{"k":1,"v":true},{},{"v":false,"w":3}]}¶{"t":[]}¶{"t":7}¶{}
--schema={n:decimal(9,2),m:decimal(38,0),o:[[int8]]} --group-rows=3 | {"n":1.25,"m":5,"o":[[1,2],[],[3]]}¶{"n":100,"m":0.5}¶{"o":[1,[2]]}¶{"m":-7}"#;

// The bytes of the file of a row.
fn file_with(alloc: Global, row: &str) -> Result<Vec<u8>, Wrong> {
    let (options, input) = split_row(alloc, row)?;
    let load = format!(in alloc; "load f {options}")?;
    let input = lines_of(alloc, input)?;
    Ok(load_file(alloc, load.as_str(), input.as_bytes())?)
}

// Checks that a file is refused wherever it is cut, and not where it is whole.
fn check_cuts(alloc: Global, file: &[u8]) -> Result<(), Wrong> {
    for len in 0..file.len() {
        if !is_refused(alloc, &file[..len])? {
            return Err(Wrong::Row(format!(in alloc; "the first {len} bytes")?));
        }
    }
    if is_refused(alloc, file)? {
        return Err(Wrong::Row("the whole file".to_string(alloc)?));
    }
    Ok(())
}

#[test]
fn a_file_that_is_cut_is_refused(rt: HostRuntime) -> Result<(), Fail> {
    let alloc = rt.alloc();
    for row in FILES.split('\n') {
        check_cuts(alloc, file_with(alloc, row)?.as_slice())?;
    }
    Ok(())
}

// A copy of a file in which so many bytes from a place on are changed.
fn altered(
    alloc: Global,
    file: &[u8],
    from: usize,
    changes: u32,
    draws: &mut Draws,
) -> Result<Vec<u8>, NoMemory> {
    let mut bytes = Vec::from_slice(alloc, file)?;
    for _change in 0..changes {
        let place = draws.below(file.len().saturating_sub(from));
        let change = draws.change();
        if let Some(byte) = bytes.get_mut(from.saturating_add(place)) {
            *byte = *byte ^ change;
        }
    }
    Ok(bytes)
}

// How many are refused of so many copies of a file that are changed so.
fn refused_count(
    alloc: Global,
    file: &[u8],
    from: usize,
    changes: u32,
    copies: u32,
    draws: &mut Draws,
) -> Result<u32, Wrong> {
    let mut refused = 0u32;
    for _copy in 0..copies {
        let bytes = altered(alloc, file, from, changes, draws)?;
        if is_refused(alloc, bytes.as_slice())? {
            refused = refused.saturating_add(1);
        }
    }
    Ok(refused)
}

// Some of 1,000 copies of each file with one other byte are refused, and some aren't: a test that met only one kind
// would show little.
#[test]
fn a_file_with_another_byte_has_an_answer_or_a_rule(rt: HostRuntime) -> Result<(), Fail> {
    let alloc = rt.alloc();
    let mut draws = Draws::new(20_240_501);
    for row in FILES.split('\n') {
        let file = file_with(alloc, row)?;
        let refused = refused_count(alloc, file.as_slice(), 0, 1, 1_000, &mut draws)?;
        assert!(&rt; 100 < refused && refused < 900, "{refused} of {row}");
    }
    Ok(())
}

#[test]
fn a_file_with_other_bytes_in_its_footer_has_an_answer_or_a_rule(
    rt: HostRuntime,
) -> Result<(), Fail> {
    let alloc = rt.alloc();
    let mut draws = Draws::new(7);
    for row in FILES.split('\n') {
        let file = file_with(alloc, row)?;
        let footer = without_footer(file.as_slice()).len();
        let refused = refused_count(alloc, file.as_slice(), footer, 2, 500, &mut draws)?;
        assert!(&rt; 100 < refused, "{refused} of {row}");
    }
    Ok(())
}

// So many random bytes.
fn random_bytes(alloc: Global, count: usize, draws: &mut Draws) -> Result<Vec<u8>, NoMemory> {
    let mut bytes = Vec::new(alloc);
    for _byte in 0..count {
        bytes.push(draws.byte())?;
    }
    Ok(bytes)
}

// Random bytes between both magic numbers, and the length of a footer that they may have.
fn random_file(alloc: Global, draws: &mut Draws) -> Result<Vec<u8>, NoMemory> {
    let count = draws.below(300);
    let footer = u32::from(draws.byte());
    let inner = random_bytes(alloc, count, draws)?;
    let mut bytes = Vec::from_slice(alloc, b"PAR1")?;
    bytes.extend_from_slice(inner.as_slice())?;
    bytes.extend_from_slice(&footer.to_le_bytes())?;
    bytes.extend_from_slice(b"PAR1")?;
    Ok(bytes)
}

#[test]
fn random_bytes_are_refused(rt: HostRuntime) -> Result<(), Fail> {
    let alloc = rt.alloc();
    let mut draws = Draws::new(94);
    for _file in 0..1_000 {
        let count = draws.below(300);
        let bytes = random_bytes(alloc, count, &mut draws)?;
        assert!(&rt; is_refused(alloc, bytes.as_slice())?);
    }
    Ok(())
}

#[test]
fn random_bytes_between_magic_numbers_are_refused(rt: HostRuntime) -> Result<(), Fail> {
    let alloc = rt.alloc();
    let mut draws = Draws::new(82);
    for _file in 0..1_000 {
        let bytes = random_file(alloc, &mut draws)?;
        assert!(&rt; is_refused(alloc, bytes.as_slice())?);
    }
    Ok(())
}
