//! PLAIN values of any bytes: the cells, or the first rule that they violate.

use plain_values::decode;
use std::alloc::{AllocError, Global};
use std::test::Fail;
use test_rows::{
    Shown, Wrong, bytes_of, cell_text, check_rows, column_of, number_of, split_row, text_or_rule,
};
use vs_bytes::{Cell, Leaf, Refusal};

fn cells_text(alloc: Global, cells: &[Cell]) -> Result<String, AllocError> {
    let mut text = String::new(alloc);
    for cell in cells {
        let next = cell_text(alloc, cell)?;
        text.push_str(next.as_str())?;
        text.push_str(" ")?;
    }
    text.push_str("end")?;
    Ok(text)
}

fn found(alloc: Global, column: &Leaf, count: usize, bytes: &[u8]) -> Result<String, Refusal> {
    let cells = decode(alloc, column, count, bytes)?;
    Ok(cells_text(alloc, cells.as_slice())?)
}

// A row gives the column, how many cells are asked for, and bytes. It shows the cells.
struct Cells;

impl Shown for Cells {
    fn shown(alloc: Global, given: &str) -> Result<String, Wrong> {
        let (column, others) = split_row(alloc, given)?;
        let (count, digits) = split_row(alloc, others)?;
        let count = number_of(alloc, count)? as usize;
        let bytes = bytes_of(alloc, digits)?;
        text_or_rule(alloc, found(alloc, &column_of(column), count, &bytes))
    }
}

// Bytes after the last cell are passed over.
const NUMBERS: &str = "boolean | 3 | 05 | true false true end
boolean | 9 | 01 01 | true false false false false false false false true end
boolean | 0 |  | end
boolean | 9 | ff | PlainShort
boolean | 1 |  | PlainShort
boolean | 2147483647 | 05 | PlainShort
int32 | 1 | 05 00 00 00 | 5 end
int32 | 1 | 05 00 00 00 ff | 5 end
int32 | 2 | ff ff ff ff 00 00 00 80 | -1 -2147483648 end
int32 | 2 | 05 00 00 00 05 00 00 | PlainShort
int32 | 2147483647 | 05 00 00 00 | PlainShort
int64 | 1 | 09 00 00 00 00 00 00 00 | 9 end
int64 | 1 | 00 00 00 00 00 00 00 80 | -9223372036854775808 end
int64 | 1 | ff ff ff ff ff ff ff 7f | 9223372036854775807 end
int64 | 1 | ff ff ff ff ff ff ff | PlainShort";

#[test]
fn truth_values_and_integers(rt: HostRuntime) -> Result<(), Fail> {
    check_rows::<Cells>(rt.alloc(), NUMBERS)?;
    Ok(())
}

// A length that ends early, or passes the bytes. A text is judged whole before the next one.
const TEXTS: &str = "text | 1 | 02 00 00 00 68 69 | 6869 end
text | 2 | 00 00 00 00 02 00 00 00 c3 a9 |  c3a9 end
raw | 1 | 01 00 00 00 ff | ff end
text | 1 | 02 00 00 | PlainShort
text | 1 | 02 00 00 00 68 | PlainShort
text | 1 | ff ff ff ff 61 | PlainShort
text | 1 | 01 00 00 00 ff | TextUtf8
text | 2 | 01 00 00 00 ff | TextUtf8
text | 2 | 01 00 00 00 61 | PlainShort
text | 2147483647 | 01 00 00 00 61 | PlainShort";

#[test]
fn texts_and_bytes(rt: HostRuntime) -> Result<(), Fail> {
    check_rows::<Cells>(rt.alloc(), TEXTS)?;
    Ok(())
}

// -1 in one byte and in sixteen, 256, the greatest of 38 digits and one more, of both signs. No byte, and seventeen.
const DECIMALS: &str = "decimal | 1 | 01 00 00 00 ff | -1 end
decimal | 1 | 02 00 00 00 01 00 | 256 end
decimal | 1 | 10 00 00 00 4b 3b 4c a8 5a 86 c4 7a 09 8a 22 3f ff ff ff ff | 99999999999999999999999999999999999999 end
decimal | 1 | 10 00 00 00 4b 3b 4c a8 5a 86 c4 7a 09 8a 22 40 00 00 00 00 | DecimalDigits
decimal | 1 | 10 00 00 00 b4 c4 b3 57 a5 79 3b 85 f6 75 dd c0 00 00 00 01 | -99999999999999999999999999999999999999 end
decimal | 1 | 10 00 00 00 b4 c4 b3 57 a5 79 3b 85 f6 75 dd c0 00 00 00 00 | DecimalDigits
decimal | 1 | 00 00 00 00 | DecimalDigits
decimal | 1 | 11 00 00 00 00 00 00 00 00 00 00 00 00 00 00 00 00 00 00 00 01 | DecimalDigits
decimal | 1 | 02 00 00 00 01 | PlainShort
fixed 16 | 1 | ff ff ff ff ff ff ff ff ff ff ff ff ff ff ff ff | -1 end
fixed 16 | 1 | ff ff ff ff ff ff ff ff ff ff ff ff ff ff ff | PlainShort
fixed 16 | 1 | 4b 3b 4c a8 5a 86 c4 7a 09 8a 22 40 00 00 00 00 | DecimalDigits
fixed 2 | 2 | 01 00 ff fe | 256 -2 end
fixed 2 | 2 | 01 00 ff | PlainShort
fixed 0 | 1 |  | DecimalDigits
fixed 17 | 1 | 00 00 00 00 00 00 00 00 00 00 00 00 00 00 00 00 01 | DecimalDigits";

#[test]
fn decimals_in_bytes(rt: HostRuntime) -> Result<(), Fail> {
    check_rows::<Cells>(rt.alloc(), DECIMALS)?;
    Ok(())
}
