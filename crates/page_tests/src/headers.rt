//! Page headers.

use std::alloc::{AllocError, Global};
use std::process::Abort;
use std::test::Fail;
use test_rows::{Shown, Wrong, bytes_of, check_rows, text_or_rule};
use thrift_compact::{
    DataHeader, DataHeaderV2, DictHeader, PageHeader, read_page_header, write_page_header,
};
use vs_bytes::{NoMemory, Refusal};

fn data_text(alloc: Global, inner: Option<DataHeader>) -> Result<String, AllocError> {
    match inner {
        Some(inner) => format!(in alloc;
            " data {} {} {} {}",
            inner.num_values,
            inner.encoding,
            inner.definition_level_encoding,
            inner.repetition_level_encoding
        ),
        None => "".to_string(alloc),
    }
}

fn dict_text(alloc: Global, inner: Option<DictHeader>) -> Result<String, AllocError> {
    match inner {
        Some(inner) => { format!(in alloc; " dictionary {} {}", inner.num_values, inner.encoding) }
        None => "".to_string(alloc),
    }
}

fn data_v2_text(alloc: Global, inner: Option<DataHeaderV2>) -> Result<String, AllocError> {
    match inner {
        Some(inner) => format!(in alloc;
            " v2 {} {} {} {} {} {}",
            inner.num_values,
            inner.num_nulls,
            inner.num_rows,
            inner.encoding,
            inner.definition_levels_byte_length,
            inner.repetition_levels_byte_length
        ),
        None => "".to_string(alloc),
    }
}

fn header_text(alloc: Global, header: &PageHeader, used: usize) -> Result<String, AllocError> {
    let mut text = format!(in alloc;
        "{} {} {}",
        header.kind, header.uncompressed_page_size, header.compressed_page_size
    )?;
    text.push_str(data_text(alloc, header.data_page_header)?.as_str())?;
    text.push_str(dict_text(alloc, header.dictionary_page_header)?.as_str())?;
    text.push_str(data_v2_text(alloc, header.data_page_header_v2)?.as_str())?;
    text.push_str(format!(in alloc; " in {used}")?.as_str())?;
    Ok(text)
}

fn found(alloc: Global, bytes: &[u8]) -> Result<String, Refusal> {
    let (header, used) = read_page_header(bytes)?;
    Ok(header_text(alloc, &header, used)?)
}

// A row gives bytes. It shows the type, both sizes, the inner headers, and how many bytes the header takes.
struct Headers;

impl Shown for Headers {
    fn shown(alloc: Global, given: &str) -> Result<String, Wrong> {
        let bytes = bytes_of(alloc, given)?;
        text_or_rule(alloc, found(alloc, &bytes))
    }
}

// Each type of page, and two that there aren't. The checksum (field 4), the header of an index page (6) and the
// statistics inside the header of a data page (5) are passed over. An inner header may be there for another type.
const HEADERS: &str =
    "15 00 15 1e 15 1e 2c 15 02 15 00 15 06 15 06 00 00 | 0 15 15 data 1 0 3 3 in 17
15 00 15 1e 15 1e 2c 15 02 15 00 15 06 15 06 00 00 ff | 0 15 15 data 1 0 3 3 in 17
15 02 15 00 15 00 00 | 1 0 0 in 7
15 04 15 00 15 00 4c 15 02 15 04 00 00 | 2 0 0 dictionary 1 2 in 13
15 06 15 00 15 00 5c 15 02 15 04 15 06 15 00 15 08 15 0a 00 00 | 3 0 0 v2 1 2 3 0 4 5 in 21
15 08 15 00 15 00 00 | 4 0 0 in 7
15 01 15 00 15 00 00 | -1 0 0 in 7
15 02 15 00 15 00 15 02 2c 11 00 00 | 1 0 0 in 12
15 00 15 00 15 00 2c 15 02 15 00 15 06 15 06 1c 16 02 00 00 00 | 0 0 0 data 1 0 3 3 in 21
15 02 15 00 15 00 4c 15 02 15 04 00 00 | 1 0 0 dictionary 1 2 in 13";

#[test]
fn page_headers_are_read(rt: HostRuntime) -> Result<(), Fail> {
    check_rows::<Headers>(rt.alloc(), HEADERS)?;
    Ok(())
}

// A header that ends early comes first. Then a type, a size or an inner header that is missing, stands twice, has
// another type or is negative.
const RULES: &str = " | Thrift
15 | Thrift
15 00 15 1e 15 1e 2c 15 02 15 00 15 06 15 06 00 | Thrift
ff ff ff ff ff ff ff ff ff ff | Thrift
15 00 15 00 15 00 29 f5 ff ff ff ff 0f | Thrift
00 | PageHeader
25 00 15 00 00 | PageHeader
15 02 25 00 00 | PageHeader
15 02 15 00 00 | PageHeader
16 02 15 00 15 00 00 | PageHeader
15 02 15 00 15 00 05 06 00 00 | PageHeader
15 02 15 01 15 00 00 | PageHeader
15 02 15 00 15 01 00 | PageHeader
15 00 15 00 15 00 00 | PageHeader
15 04 15 00 15 00 00 | PageHeader
15 06 15 00 15 00 00 | PageHeader
15 00 15 00 15 00 29 05 00 | PageHeader
15 00 15 00 15 00 2c 15 01 15 00 15 06 15 06 00 00 | PageHeader
15 00 15 00 15 00 2c 15 02 15 00 15 06 00 00 | PageHeader
15 02 15 00 15 00 2c 15 02 15 00 15 06 00 00 | PageHeader
15 04 15 00 15 00 4c 15 01 15 00 00 00 | PageHeader
15 06 15 00 15 00 5c 15 02 15 04 15 06 15 00 15 01 15 0a 00 00 | PageHeader";

#[test]
fn page_headers_violate_their_rules_in_order(rt: HostRuntime) -> Result<(), Fail> {
    check_rows::<Headers>(rt.alloc(), RULES)?;
    Ok(())
}

const ALL_INNER: PageHeader = PageHeader {
    kind: 3,
    uncompressed_page_size: 1,
    compressed_page_size: 2,
    data_page_header: Some(DataHeader {
        num_values: 1,
        encoding: 0,
        definition_level_encoding: 3,
        repetition_level_encoding: 3,
    }),
    dictionary_page_header: Some(DictHeader {
        num_values: 1,
        encoding: 2,
    }),
    data_page_header_v2: Some(DataHeaderV2 {
        num_values: 1,
        num_nulls: 2,
        num_rows: 3,
        encoding: 0,
        definition_levels_byte_length: 4,
        repetition_levels_byte_length: 5,
    }),
};

fn written(alloc: Global) -> Result<Vec<u8>, NoMemory> {
    let mut bytes = Vec::new(alloc);
    write_page_header(&mut bytes, &ALL_INNER)?;
    Ok(bytes)
}

#[test]
fn a_page_header_is_written_with_all_that_it_has(rt: HostRuntime) -> Result<(), Fail> {
    let bytes = written(rt.alloc())?;
    assert_eq!(&rt;
        bytes.as_slice(),
        b"\x15\x06\x15\x02\x15\x04\x2c\x15\x02\x15\x00\x15\x06\x15\x06\x00\x2c\x15\x02\x15\x04\x00\x1c\x15\x02\x15\x04\x15\x06\x15\x00\x15\x08\x15\x0a\x00\x00".as_slice()
    );
    Ok(())
}
