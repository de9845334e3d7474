//! Runs and packed groups of any bytes: their numbers, or the first rule that they violate.

ghost use Rattle.std.specs.Prelude.{◌≤◌};

use hybrid_levels::{decode, measure};
use std::alloc::{AllocError, Global};
use std::process::Abort;
use std::test::Fail;
use test_rows::{Shown, Wrong, bytes_of, check_rows, number_of, split_row, text_or_rule};
use vs_bytes::{Refusal, Rule};

fn numbers_text(alloc: Global, numbers: &[u32], used: usize) -> Result<String, AllocError> {
    let mut text = String::new(alloc);
    for number in numbers {
        let next = format!(in alloc; "{number} ")?;
        text.push_str(next.as_str())?;
    }
    let end = format!(in alloc; "in {used}")?;
    text.push_str(end.as_str())?;
    Ok(text)
}

// What both calls find: `decode` after `measure`, which needs no room.
fn found(alloc: Global, width: u8, count: usize, bytes: &[u8]) -> Result<String, Refusal>
    requires { width ≤ 32 }
{
    let _len = measure(width, count, bytes)?;
    let mut numbers = Vec::from_elem(alloc, 9u32, count)?;
    let used = decode(width, bytes, &mut numbers)?;
    Ok(numbers_text(alloc, &numbers, used)?)
}

// A row gives the width, how many numbers are asked for, and bytes. It shows the numbers, and how many bytes they take.
struct Numbers;

impl Shown for Numbers {
    fn shown(alloc: Global, given: &str) -> Result<String, Wrong> {
        let (width, others) = split_row(alloc, given)?;
        let (count, digits) = split_row(alloc, others)?;
        let width = number_of(alloc, width)?.min(32) as u8;
        let count = number_of(alloc, count)? as usize;
        let bytes = bytes_of(alloc, digits)?;
        text_or_rule(alloc, found(alloc, width, count, &bytes))
    }
}

// Ten ones as a run of copies, a group of the numbers 0 to 7, both forms after one another, a last group that is
// filled up, a group too many, bytes after the last number.
const NUMBERS: &str = "1 | 10 | 14 01 | 1 1 1 1 1 1 1 1 1 1 in 2
3 | 8 | 03 88 c6 fa | 0 1 2 3 4 5 6 7 in 4
2 | 7 | 06 02 03 39 00 | 2 2 2 1 2 3 0 in 5
3 | 5 | 03 88 c6 fa | 0 1 2 3 4 in 4
1 | 9 | 05 ff 01 | 1 1 1 1 1 1 1 1 1 in 3
1 | 2 | 04 01 ff | 1 1 in 2
1 | 2 | 04 05 | 5 5 in 2
1 | 0 |  | in 0
1 | 0 | 14 01 | in 0
8 | 3 | 86 80 80 80 00 07 | 7 7 7 in 6";

#[test]
fn numbers_are_read(rt: HostRuntime) -> Result<(), Fail> {
    check_rows::<Numbers>(rt.alloc(), NUMBERS)?;
    Ok(())
}

// Each width in bits has its end: none, where a run has no content, and 32.
const WIDTHS: &str = "0 | 3 | 06 | 0 0 0 in 1
0 | 9 | 05 | 0 0 0 0 0 0 0 0 0 in 1
0 | 3 | 00 06 | 0 0 0 in 2
17 | 2 | 03 01 00 01 00 00 00 00 00 00 00 00 00 00 00 00 00 00 | 65537 0 in 18
17 | 2 | 03 01 00 03 00 00 00 00 00 00 00 00 00 00 00 00 00 00 | 65537 1 in 18
32 | 2 | 04 ff ff ff ff | 4294967295 4294967295 in 5
32 | 1 | 03 01 00 00 00 00 00 00 00 00 00 00 00 00 00 00 00 00 00 00 00 00 00 00 00 00 00 00 00 00 00 00 00 | 1 in 33
32 | 1 | 03 01 00 00 00 00 00 00 00 00 00 00 00 00 00 00 00 00 00 00 00 00 00 00 00 00 00 00 00 00 00 00 | RunShort
32 | 2 | 04 ff ff ff | RunShort";

#[test]
fn widths_from_0_to_32(rt: HostRuntime) -> Result<(), Fail> {
    check_rows::<Numbers>(rt.alloc(), WIDTHS)?;
    Ok(())
}

// No byte, a header that ends early, a run and a group that do. Then a run past the count, a group too many, a header
// of more than 5 bytes, and ones of 2^32. A part whose bytes aren't there is told before one with too many numbers.
// Runs of no copies end with the bytes.
const RULES: &str = "1 | 1 |  | RunShort
1 | 3 | 80 | RunShort
1 | 3 | 06 | RunShort
3 | 8 | 03 88 | RunShort
1 | 9 | 14 01 | RunTooLong
1 | 8 | 05 ff ff | RunTooLong
1 | 8 | ff ff ff ff ff ff ff ff ff ff | RunTooLong
1 | 8 | ff ff ff ff ff 01 | RunTooLong
1 | 8 | ff ff ff ff 10 | RunTooLong
1 | 8 | ff ff ff ff 0f | RunShort
0 | 8 | ff ff ff ff 0f | RunTooLong
1 | 9 | 14 | RunShort
1 | 8 | 05 ff | RunShort
1 | 1 | 00 01 00 01 00 01 | RunShort
1 | 1 | 01 01 01 01 01 01 | RunShort
0 | 1 | 00 00 00 00 00 00 | RunShort
1 | 1 | 00 00 02 01 | 1 in 4
1 | 2147483647 | 14 01 | RunShort
0 | 2147483647 | 00 00 00 00 | RunShort";

#[test]
fn runs_violate_their_rules_in_order(rt: HostRuntime) -> Result<(), Fail> {
    check_rows::<Numbers>(rt.alloc(), RULES)?;
    Ok(())
}

// A count that four bytes spell needs no room to be measured.
#[test]
fn a_run_of_2147483647_copies_is_measured(rt: HostRuntime) -> Result<(), Fail> {
    assert!(&rt; measure(1, 2_147_483_647, b"\xfe\xff\xff\xff\x0f\x01") == Ok(6));
    assert!(&rt; measure(1, 2_147_483_646, b"\xfe\xff\xff\xff\x0f\x01") == Err(Rule::RunTooLong));
    Ok(())
}
