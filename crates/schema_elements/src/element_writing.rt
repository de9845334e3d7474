//! Schema elements, written.

ghost use Rattle.std.specs.Prelude.{◌≡◌, ◌++◌, OnOk};
ghost use Rattle.vs_bytes.specs.Outcome.{Grows};
ghost use Rattle.thrift_compact.specs.Trees.{Fields};
ghost use Rattle.thrift_compact.specs.Coded.{fields_coded};
ghost use Rattle.schema_elements.specs.ElementWriting.{type_fields, element_fields, ElementFits};

use crate::elements::{ElementDraft, SchemaElement};
use crate::entries::Words;
use crate::logical_types::LogicalDraft;
use thrift_compact::{Int32, append_field, append_maybe, append_stop};
use thrift_structs::{StructCode, StructOf};
use vs_bytes::NoMemory;

// Fields 1 to 4.
#[tactic(auto, using(vs_bytes::proofs::Growing::grows_on, thrift_compact::proofs::Appended::some_always), unfolding(crate::specs::ElementWriting::type_fields))]
fn append_type(into: &mut Vec<u8>, value: &SchemaElement) -> Result<(), NoMemory>
    ensures ok { OnOk result ((fs : Fields) → into.new.items ++ fields_coded 4 fs ≡ into.old.items ++ fields_coded 0 (type_fields value.now fs)) }
    ensures grows { Grows into.old.items into.new.items }
{
    let last = append_maybe::<Int32>(into, 0, 1, &value.kind)?;
    let last = append_maybe::<Int32>(into, last, 2, &value.type_length)?;
    let last = append_maybe::<Int32>(into, last, 3, &value.repetition_type)?;
    append_field::<Words>(into, last, 4, &value.name)
}

impl StructCode for ElementDraft {
    type Of = SchemaElement;

    ghost fields = { element_fields };

    ghost fits = { ElementFits };

    #[tactic(auto, using(vs_bytes::proofs::Growing::grows_on, thrift_compact::proofs::Appended::some_always), unfolding(crate::specs::ElementWriting::element_fields))]
    fn append_fields(into: &mut Vec<u8>, value: &SchemaElement) -> Result<(), NoMemory> {
        append_type(into, value)?;
        let last = append_maybe::<Int32>(into, 4, 5, &value.num_children)?;
        let last = append_maybe::<Int32>(into, last, 6, &value.converted_type)?;
        let last = append_maybe::<Int32>(into, last, 7, &value.scale)?;
        let last = append_maybe::<Int32>(into, last, 8, &value.precision)?;
        let last = append_maybe::<StructOf<LogicalDraft>>(into, last, 10, &value.logical_type)?;
        append_stop(into, last)?;
        Ok(())
    }
}
