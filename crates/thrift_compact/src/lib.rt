//! The Thrift compact protocol (thrift-compact-protocol.md): structs, lists and numbers, read in place and written;
//! and the page headers of parquet.thrift.
//!
//! What bytes mean is defined in `specs/`: numbers in `Numbers.antt`, headers in `Headers.antt`, values that are
//! passed over in `Skipping.antt`, values as trees in `Trees.antt`, page headers in `PageHeaders.antt`. Every reader
//! answers exactly the defined value or the defined rule, and takes no memory. It is stricter than the protocol in
//! this: a size is below 2^32, what is passed over nests 32 deep at most, and the twelve types of `Headers.antt` are
//! the only ones. It is laxer in this: a varint may have more bytes than it needs, and a truth value in a list may be
//! any byte.
//!
//! What is written has the short header of a field where the ids differ by 1 to 15, the short header of a list of
//! fewer than 15 elements, and varints without needless bytes (`Coded.antt`). It reads back (`laws`).
//!
//! | Module | What it holds |
//! |---|---|
//! | `numbers` | varints, signed numbers, binary |
//! | `headers` | headers of fields, lists and maps |
//! | `skipping` | the bytes after a value of a type |
//! | `reader` | `Reader`: reads one value after the other |
//! | `appending` | numbers and headers, appended |
//! | `coding` | `Code`: how a value is written; fields, appended |
//! | `writer` | `Writer`: writes one field after the other |
//! | `slots` | `Slot`: what was read of a field |
//! | `plain_drafts` | `PlainDraft`: a struct of numbers and structs, read in one pass |
//! | `page_headers`, `page_writing` | `PageHeader` and the headers inside it, read; written |
//! | `laws` | what is written reads back, and is passed over |
#![tactic(auto)]

mod appending;
mod coding;
mod headers;
mod laws;
mod numbers;
mod page_headers;
mod page_writing;
mod plain_drafts;
mod reader;
mod skipping;
mod slots;
mod writer;

pub use appending::append_list_header;
pub use coding::{
    Binary, Code, Int8, Int32, Int64, Truth, append_field, append_maybe, append_stop,
};
pub use headers::{field_at, list_at};
pub use laws::{
    page_headers_read_back, structs_read_back, values_are_passed_over, values_read_back,
};
pub use numbers::{binary_at, i8_at, i32_at, i64_at};
pub use page_headers::{DataHeader, DataHeaderV2, DictHeader, PageHeader, read_page_header};
pub use page_writing::write_page_header;
pub use reader::Reader;
pub use skipping::{pass, pass_elements};
pub use slots::Slot;
pub use writer::Writer;
