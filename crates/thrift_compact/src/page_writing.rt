//! Page headers, written.

ghost use Rattle.std.specs.Prelude.{◌≡◌, ◌++◌, true, OnOk, OnErr};
ghost use Rattle.vs_bytes.specs.Outcome.{Grows};
ghost use Rattle.thrift_compact.specs.Trees.{struct_value};
ghost use Rattle.thrift_compact.specs.Coded.{coded, fields_coded};
ghost use Rattle.thrift_compact.specs.PageWriting.{data_tree, dict_tree, data_v2_tree, page_fields, IsWritable};

use crate::coding::{Code, Int32, append_field, append_maybe, append_stop};
use crate::page_headers::{DataHeader, DataHeaderV2, DictHeader, PageHeader};
use vs_bytes::NoMemory;

struct DataCode;

impl Code for DataCode {
    type Of = DataHeader;

    ghost tree = { data_tree };

    ghost fits = { λ _. Unit {0} };

    fn kind(_value: &DataHeader) -> u8 {
        12
    }

    #[tactic(auto, using(vs_bytes::proofs::Growing::grows_on), unfolding(crate::specs::Coded::coded, crate::specs::PageWriting::data_fields))]
    fn write(into: &mut Vec<u8>, value: &DataHeader) -> Result<(), NoMemory> {
        append_field::<Int32>(into, 0, 1, &value.num_values)?;
        append_field::<Int32>(into, 1, 2, &value.encoding)?;
        append_field::<Int32>(into, 2, 3, &value.definition_level_encoding)?;
        append_field::<Int32>(into, 3, 4, &value.repetition_level_encoding)?;
        append_stop(into, 4)?;
        Ok(())
    }
}

struct DictCode;

impl Code for DictCode {
    type Of = DictHeader;

    ghost tree = { dict_tree };

    ghost fits = { λ _. Unit {0} };

    fn kind(_value: &DictHeader) -> u8 {
        12
    }

    #[tactic(auto, using(vs_bytes::proofs::Growing::grows_on), unfolding(crate::specs::Coded::coded, crate::specs::PageWriting::dict_fields))]
    fn write(into: &mut Vec<u8>, value: &DictHeader) -> Result<(), NoMemory> {
        append_field::<Int32>(into, 0, 1, &value.num_values)?;
        append_field::<Int32>(into, 1, 2, &value.encoding)?;
        append_stop(into, 2)?;
        Ok(())
    }
}

struct DataV2Code;

impl Code for DataV2Code {
    type Of = DataHeaderV2;

    ghost tree = { data_v2_tree };

    ghost fits = { λ _. Unit {0} };

    fn kind(_value: &DataHeaderV2) -> u8 {
        12
    }

    #[tactic(auto, using(vs_bytes::proofs::Growing::grows_on), unfolding(crate::specs::Coded::coded, crate::specs::PageWriting::data_v2_fields))]
    fn write(into: &mut Vec<u8>, value: &DataHeaderV2) -> Result<(), NoMemory> {
        append_field::<Int32>(into, 0, 1, &value.num_values)?;
        append_field::<Int32>(into, 1, 2, &value.num_nulls)?;
        append_field::<Int32>(into, 2, 3, &value.num_rows)?;
        append_field::<Int32>(into, 3, 4, &value.encoding)?;
        append_field::<Int32>(into, 4, 5, &value.definition_levels_byte_length)?;
        append_field::<Int32>(into, 5, 6, &value.repetition_levels_byte_length)?;
        append_stop(into, 6)?;
        Ok(())
    }
}

#[tactic(auto, using(vs_bytes::proofs::Growing::grows_on, crate::proofs::Appended::some_always), unfolding(crate::specs::PageWriting::page_fields))]
fn append_page_header(into: &mut Vec<u8>, header: &PageHeader) -> Result<(), NoMemory>
    ensures ok { OnOk result (into.new.items ≡ into.old.items ++ fields_coded 0 (page_fields header.now)) }
    ensures grows { Grows into.old.items into.new.items }
{
    append_field::<Int32>(into, 0, 1, &header.kind)?;
    append_field::<Int32>(into, 1, 2, &header.uncompressed_page_size)?;
    append_field::<Int32>(into, 2, 3, &header.compressed_page_size)?;
    let last = append_maybe::<DataCode>(into, 3, 5, &header.data_page_header)?;
    let last = append_maybe::<DictCode>(into, last, 7, &header.dictionary_page_header)?;
    let last = append_maybe::<DataV2Code>(into, last, 8, &header.data_page_header_v2)?;
    append_stop(into, last)?;
    Ok(())
}

/// Appends the bytes of a page header. After an `Err` the output is as before.
pub fn write_page_header(into: &mut Vec<u8>, header: &PageHeader) -> Result<(), NoMemory>
    requires { IsWritable header.now }
    ensures ok { OnOk result (into.new.items ≡ into.old.items ++ fields_coded 0 (page_fields header.now)) }
    ensures err { OnErr result (into.new.items ≡ into.old.items) }
{
    let before = into.len();
    let done = append_page_header(into, header);
    if done.is_err() {
        into.truncate(before);
    }
    done
}
