//! Page headers (parquet.thrift, PageHeader and the headers inside it), read and written.
//!
//! The fields crc, index_page_header, statistics, is_sorted and is_compressed are passed over, and never written.

ghost use Rattle.std.specs.Prelude.{◌≡◌, ◌≤◌, length, Option, IfOk};
ghost use Rattle.vs_bytes.specs.Outcome.{Gives};
ghost use Rattle.thrift_compact.specs.PageHeaders.{data_shapes, data_start, data_put, data_finish, dict_shapes, dict_start, dict_put, dict_finish, data_v2_shapes, data_v2_start, data_v2_put, data_v2_finish, page_shapes, page_start, page_put, page_finish, has_inner, with_inner, page_header};

use crate::plain_drafts::{PlainDraft, put_i32, put_struct, read_struct};
use crate::skipping::pass;
use crate::slots::Slot;
use vs_bytes::Rule;

/// The header of a data page.
#[derive(Clone, Copy, PartialEq, Eq, Debug)]
pub struct DataHeader {
    /// How many values, nulls among them.
    pub num_values: i32,
    /// The encoding of the values.
    pub encoding: i32,
    /// The encoding of the definition levels.
    pub definition_level_encoding: i32,
    /// The encoding of the repetition levels.
    pub repetition_level_encoding: i32,
}

/// The header of a dictionary page.
#[derive(Clone, Copy, PartialEq, Eq, Debug)]
pub struct DictHeader {
    /// How many values, nulls among them.
    pub num_values: i32,
    /// The encoding of the values.
    pub encoding: i32,
}

/// The header of a data page v2.
#[derive(Clone, Copy, PartialEq, Eq, Debug)]
pub struct DataHeaderV2 {
    /// How many values, nulls among them.
    pub num_values: i32,
    /// How many nulls.
    pub num_nulls: i32,
    /// How many rows.
    pub num_rows: i32,
    /// The encoding of the values.
    pub encoding: i32,
    /// The bytes of the definition levels.
    pub definition_levels_byte_length: i32,
    /// The bytes of the repetition levels.
    pub repetition_levels_byte_length: i32,
}

/// The header of a page. An inner header may be there for another type of page too.
#[derive(Clone, Copy, PartialEq, Eq, Debug)]
pub struct PageHeader {
    /// The page's type: 0 data page, 1 index page, 2 dictionary page, 3 data page v2.
    pub kind: i32,
    /// The bytes of the body before compression.
    pub uncompressed_page_size: i32,
    /// The bytes of the body.
    pub compressed_page_size: i32,
    /// The inner header of a data page.
    pub data_page_header: Option<DataHeader>,
    /// The inner header of a dictionary page.
    pub dictionary_page_header: Option<DictHeader>,
    /// The inner header of a data page v2.
    pub data_page_header_v2: Option<DataHeaderV2>,
}

#[derive(Debug, Drop)]
pub(crate) struct DataSlots {
    num_values: Slot<i32>,
    encoding: Slot<i32>,
    definition_level_encoding: Slot<i32>,
    repetition_level_encoding: Slot<i32>,
}

struct DataDraft;

impl PlainDraft for DataDraft {
    type Held = DataSlots;

    type Item = DataHeader;

    ghost shapes = { data_shapes };

    ghost start = { data_start };

    ghost put = { data_put };

    ghost finish = { data_finish };

    fn start() -> DataSlots {
        DataSlots {
            num_values: Slot::Missing,
            encoding: Slot::Missing,
            definition_level_encoding: Slot::Missing,
            repetition_level_encoding: Slot::Missing,
        }
    }

    #[tactic(auto, unfolding(crate::specs::Trees::known_at, crate::specs::Trees::at_shape, crate::specs::PageHeaders::data_shapes, crate::specs::PageHeaders::data_put))]
    fn field<'a>(
        held: &mut DataSlots,
        id: i16,
        kind: u8,
        bytes: &'a [u8],
    ) -> Result<&'a [u8], Rule> {
        match id {
            1 => put_i32(&mut held.num_values, kind, bytes),
            2 => put_i32(&mut held.encoding, kind, bytes),
            3 => put_i32(&mut held.definition_level_encoding, kind, bytes),
            4 => put_i32(&mut held.repetition_level_encoding, kind, bytes),
            _ => pass(bytes, kind),
        }
    }

    #[tactic(auto, unfolding(crate::specs::PageHeaders::data_finish))]
    fn finished(held: DataSlots) -> Option<DataHeader> {
        Some(DataHeader {
            num_values: held.num_values.counted()?,
            encoding: held.encoding.required()?,
            definition_level_encoding: held.definition_level_encoding.required()?,
            repetition_level_encoding: held.repetition_level_encoding.required()?,
        })
    }
}

#[derive(Debug, Drop)]
pub(crate) struct DictSlots {
    num_values: Slot<i32>,
    encoding: Slot<i32>,
}

struct DictDraft;

impl PlainDraft for DictDraft {
    type Held = DictSlots;

    type Item = DictHeader;

    ghost shapes = { dict_shapes };

    ghost start = { dict_start };

    ghost put = { dict_put };

    ghost finish = { dict_finish };

    fn start() -> DictSlots {
        DictSlots {
            num_values: Slot::Missing,
            encoding: Slot::Missing,
        }
    }

    #[tactic(auto, unfolding(crate::specs::Trees::known_at, crate::specs::Trees::at_shape, crate::specs::PageHeaders::dict_shapes, crate::specs::PageHeaders::dict_put))]
    fn field<'a>(
        held: &mut DictSlots,
        id: i16,
        kind: u8,
        bytes: &'a [u8],
    ) -> Result<&'a [u8], Rule> {
        match id {
            1 => put_i32(&mut held.num_values, kind, bytes),
            2 => put_i32(&mut held.encoding, kind, bytes),
            _ => pass(bytes, kind),
        }
    }

    #[tactic(auto, unfolding(crate::specs::PageHeaders::dict_finish))]
    fn finished(held: DictSlots) -> Option<DictHeader> {
        Some(DictHeader {
            num_values: held.num_values.counted()?,
            encoding: held.encoding.required()?,
        })
    }
}

#[derive(Debug, Drop)]
pub(crate) struct DataV2Slots {
    num_values: Slot<i32>,
    num_nulls: Slot<i32>,
    num_rows: Slot<i32>,
    encoding: Slot<i32>,
    definition_levels_byte_length: Slot<i32>,
    repetition_levels_byte_length: Slot<i32>,
}

struct DataV2Draft;

impl PlainDraft for DataV2Draft {
    type Held = DataV2Slots;

    type Item = DataHeaderV2;

    ghost shapes = { data_v2_shapes };

    ghost start = { data_v2_start };

    ghost put = { data_v2_put };

    ghost finish = { data_v2_finish };

    fn start() -> DataV2Slots {
        DataV2Slots {
            num_values: Slot::Missing,
            num_nulls: Slot::Missing,
            num_rows: Slot::Missing,
            encoding: Slot::Missing,
            definition_levels_byte_length: Slot::Missing,
            repetition_levels_byte_length: Slot::Missing,
        }
    }

    #[tactic(auto, unfolding(crate::specs::Trees::known_at, crate::specs::Trees::at_shape, crate::specs::PageHeaders::data_v2_shapes, crate::specs::PageHeaders::data_v2_put))]
    fn field<'a>(
        held: &mut DataV2Slots,
        id: i16,
        kind: u8,
        bytes: &'a [u8],
    ) -> Result<&'a [u8], Rule> {
        match id {
            1 => put_i32(&mut held.num_values, kind, bytes),
            2 => put_i32(&mut held.num_nulls, kind, bytes),
            3 => put_i32(&mut held.num_rows, kind, bytes),
            4 => put_i32(&mut held.encoding, kind, bytes),
            5 => put_i32(&mut held.definition_levels_byte_length, kind, bytes),
            6 => put_i32(&mut held.repetition_levels_byte_length, kind, bytes),
            _ => pass(bytes, kind),
        }
    }

    #[tactic(auto, unfolding(crate::specs::PageHeaders::data_v2_finish))]
    fn finished(held: DataV2Slots) -> Option<DataHeaderV2> {
        Some(DataHeaderV2 {
            num_values: held.num_values.counted()?,
            num_nulls: held.num_nulls.counted()?,
            num_rows: held.num_rows.counted()?,
            encoding: held.encoding.required()?,
            definition_levels_byte_length: held.definition_levels_byte_length.counted()?,
            repetition_levels_byte_length: held.repetition_levels_byte_length.counted()?,
        })
    }
}

#[derive(Debug, Drop)]
pub(crate) struct PageSlots {
    kind: Slot<i32>,
    uncompressed_page_size: Slot<i32>,
    compressed_page_size: Slot<i32>,
    data_page_header: Slot<DataHeader>,
    dictionary_page_header: Slot<DictHeader>,
    data_page_header_v2: Slot<DataHeaderV2>,
}

struct PageDraft;

impl PlainDraft for PageDraft {
    type Held = PageSlots;

    type Item = PageHeader;

    ghost shapes = { page_shapes };

    ghost start = { page_start };

    ghost put = { page_put };

    ghost finish = { page_finish };

    fn start() -> PageSlots {
        PageSlots {
            kind: Slot::Missing,
            uncompressed_page_size: Slot::Missing,
            compressed_page_size: Slot::Missing,
            data_page_header: Slot::Missing,
            dictionary_page_header: Slot::Missing,
            data_page_header_v2: Slot::Missing,
        }
    }

    #[tactic(auto, unfolding(crate::specs::Trees::known_at, crate::specs::Trees::at_shape, crate::specs::PageHeaders::page_shapes, crate::specs::PageHeaders::page_put))]
    fn field<'a>(
        held: &mut PageSlots,
        id: i16,
        kind: u8,
        bytes: &'a [u8],
    ) -> Result<&'a [u8], Rule> {
        match id {
            1 => put_i32(&mut held.kind, kind, bytes),
            2 => put_i32(&mut held.uncompressed_page_size, kind, bytes),
            3 => put_i32(&mut held.compressed_page_size, kind, bytes),
            5 => put_struct::<DataDraft>(&mut held.data_page_header, kind, bytes),
            7 => put_struct::<DictDraft>(&mut held.dictionary_page_header, kind, bytes),
            8 => put_struct::<DataV2Draft>(&mut held.data_page_header_v2, kind, bytes),
            _ => pass(bytes, kind),
        }
    }

    #[tactic(auto, unfolding(crate::specs::PageHeaders::page_finish))]
    fn finished(held: PageSlots) -> Option<PageHeader> {
        let header = PageHeader {
            kind: held.kind.required()?,
            uncompressed_page_size: held.uncompressed_page_size.counted()?,
            compressed_page_size: held.compressed_page_size.counted()?,
            data_page_header: held.data_page_header.optional()?,
            dictionary_page_header: held.dictionary_page_header.optional()?,
            data_page_header_v2: held.data_page_header_v2.optional()?,
        };
        with_inner(header)
    }
}

// The header, where the inner header of its type is there.
fn with_inner(header: PageHeader) -> Option<PageHeader>
    ensures { result ≡ with_inner header }
{
    if has_inner(&header) {
        Some(header)
    } else {
        None
    }
}

fn has_inner(header: &PageHeader) -> bool
    ensures { result ≡ has_inner header.now }
{
    match header.kind {
        0 => header.data_page_header.is_some(),
        2 => header.dictionary_page_header.is_some(),
        3 => header.data_page_header_v2.is_some(),
        _ => true,
    }
}

/// Reads the page header that `bytes` begin with, and answers it with how many bytes it takes.
///
/// `Thrift` where the bytes end early or aren't in the compact protocol. `PageHeader` where a known field has another
/// type, stands twice, or is missing for the page's type, or a count or size is negative.
#[tactic(auto, using(crate::proofs::TreeEnds::struct_len), unfolding(crate::specs::PageHeaders::page_header))]
pub fn read_page_header(bytes: &[u8]) -> Result<(PageHeader, usize), Rule>
    ensures exact { Gives (λ r. r) result (page_header bytes.now) }
    ensures least { IfOk result (λ r. 1 ≤ r.1) }
    ensures within { IfOk result (λ r. r.1 ≤ length bytes.now) }
{
    let (header, rest) = read_struct::<PageDraft>(bytes)?;
    match header {
        Some(header) => Ok((header, bytes.len() - rest.len())),
        None => Err(Rule::PageHeader),
    }
}
