//! Entries of a page.

ghost use Rattle.std.specs.Prelude.{◌≡◌};
ghost use Rattle.vs_bytes.specs.Outcome.{Makes};
ghost use Rattle.pages.specs.Pages.{count_of, levels_read, encodings_read, data_entries, page_of};

use crate::bodies::open_body;
use crate::open_pages::OpenPage;
use std::alloc::Global;
use thrift_compact::{DataHeader, PageHeader};
use vs_bytes::{EntryList, Leaf, Refusal, Refused, Rule};

// A kind of page, and encodings (parquet.thrift, PageType and Encoding).
pub(crate) const DATA_PAGE: i32 = 0;

pub(crate) const PLAIN: i32 = 0;

pub(crate) const RLE: i32 = 3;

fn count_of(number: i32) -> usize
    ensures { result ≡ count_of number }
{
    if number < 0 { 0 } else { number as usize }
}

fn levels_read(maximum: u16, encoding: i32) -> bool
    ensures { result ≡ levels_read maximum encoding }
{
    maximum == 0 || encoding == RLE
}

fn encodings_read(leaf: &Leaf, inner: &DataHeader) -> bool
    ensures { result ≡ encodings_read leaf.now inner.now }
{
    inner.encoding == PLAIN
        && levels_read(leaf.rep, inner.repetition_level_encoding)
        && levels_read(leaf.def, inner.definition_level_encoding)
}

#[tactic(auto, unfolding(crate::specs::Pages::data_entries))]
fn open_data(
    alloc: Global,
    leaf: &Leaf,
    inner: Option<DataHeader>,
    body: &[u8],
) -> Result<OpenPage, Refusal>
    ensures { Makes (λ entries. entries) result (data_entries leaf.now inner body.now) }
{
    match inner {
        Some(inner) => {
            if !encodings_read(leaf, &inner) {
                return Err(Refused::Fault(Rule::Encoding));
            }
            open_body(alloc, leaf, count_of(inner.num_values), body)
        }
        None => Err(Refused::Fault(Rule::PageHeader)),
    }
}

/// A page, judged whole, or the first rule that it violates (`specs/Pages.antt`). Its entries are made as they are asked
/// for; what it holds until then are its levels, in 4 bytes an entry, and the bytes of its values.
///
/// `body` are the bytes after the header, as many as its compressed_page_size says. Bytes after the last value
/// are passed over. Data pages of the first form in PLAIN are read. Any other kind of page is `PageKind`, a
/// dictionary page too.
#[tactic(auto, unfolding(crate::specs::Pages::page_of))]
pub fn open_page(
    alloc: Global,
    leaf: &Leaf,
    header: &PageHeader,
    body: &[u8],
) -> Result<OpenPage, Refusal>
    ensures exact { Makes (λ entries. entries) result (page_of leaf.now header.now body.now) }
{
    if header.kind != DATA_PAGE {
        return Err(Refused::Fault(Rule::PageKind));
    }
    open_data(alloc, leaf, header.data_page_header, body)
}

/// The entries of a page, all made at once, or the first rule that it violates: the rules are those of `open_page`.
#[tactic(auto, using(crate::proofs::Pieces::all_taken))]
pub fn read_page(
    alloc: Global,
    leaf: &Leaf,
    header: &PageHeader,
    body: &[u8],
) -> Result<EntryList, Refusal>
    ensures exact { Makes (λ entries. entries) result (page_of leaf.now header.now body.now) }
{
    let mut page = match open_page(alloc, leaf, header, body) {
        Ok(page) => page,
        Err(refusal) => return Err(refusal),
    };
    let count = page.len();
    match page.take(alloc, count) {
        Ok(entries) => Ok(entries),
        Err(_) => Err(Refused::NoMemory),
    }
}
