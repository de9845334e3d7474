//! Logical types, written.

ghost use Rattle.std.specs.Prelude.{◌≡◌, ◌++◌, OnOk, true, IfSome};
ghost use Rattle.vs_bytes.specs.Outcome.{Grows};
ghost use Rattle.thrift_compact.specs.Trees.{struct_value, no_fields, with_field};
ghost use Rattle.thrift_compact.specs.Coded.{fields_coded};
ghost use Rattle.thrift_compact.specs.PageWriting.{IsI32};
ghost use Rattle.schema_elements.specs.FieldValues.{IsI8, IsFlag};
ghost use Rattle.schema_elements.specs.ElementWriting.{decimal_fields, unit_fields, time_fields, integer_fields, variant_fields, logical_fields, is_decimal, is_time, is_integer, is_variant, IsUnit, IsNone, Holds, IsLogical};

use crate::entries::{Flag, Small};
use crate::logical_types::{Logical, LogicalDraft};
use crate::members::{DecimalDraft, EmptyDraft, IntegerDraft, TimeDraft, UnitDraft, VariantDraft};
use thrift_compact::{Int32, append_field, append_maybe, append_stop};
use thrift_structs::{StructCode, StructOf};
use vs_bytes::NoMemory;

impl StructCode for EmptyDraft {
    type Of = ();

    ghost fields = { λ _. no_fields };

    ghost fits = { λ _. Unit {0} };

    fn append_fields(into: &mut Vec<u8>, _value: &()) -> Result<(), NoMemory> {
        append_stop(into, 0)
    }
}

impl StructCode for DecimalDraft {
    type Of = Logical;

    ghost fields = { decimal_fields };

    ghost fits = { λ _. Unit {0} };

    #[tactic(auto, using(vs_bytes::proofs::Growing::grows_on, thrift_compact::proofs::Appended::some_always), unfolding(crate::specs::ElementWriting::decimal_fields))]
    fn append_fields(into: &mut Vec<u8>, value: &Logical) -> Result<(), NoMemory> {
        let last = append_maybe::<Int32>(into, 0, 1, &value.first)?;
        let last = append_maybe::<Int32>(into, last, 2, &value.second)?;
        append_stop(into, last)?;
        Ok(())
    }
}

impl StructCode for UnitDraft {
    type Of = i32;

    ghost fields = { unit_fields };

    ghost fits = { IsUnit };

    #[tactic(auto, using(vs_bytes::proofs::Growing::grows_on), unfolding(crate::specs::ElementWriting::unit_fields))]
    fn append_fields(into: &mut Vec<u8>, value: &i32) -> Result<(), NoMemory> {
        let unit = *value as i16;
        append_field::<StructOf<EmptyDraft>>(into, 0, unit, &())?;
        append_stop(into, unit.unsigned_abs())?;
        Ok(())
    }
}

impl StructCode for TimeDraft {
    type Of = Logical;

    ghost fields = { time_fields };

    ghost fits = { λ l. IfSome l.second IsUnit };

    #[tactic(auto, using(vs_bytes::proofs::Growing::grows_on, thrift_compact::proofs::Appended::some_always), unfolding(crate::specs::ElementWriting::time_fields))]
    fn append_fields(into: &mut Vec<u8>, value: &Logical) -> Result<(), NoMemory> {
        let last = append_maybe::<Flag>(into, 0, 1, &value.first)?;
        let last = append_maybe::<StructOf<UnitDraft>>(into, last, 2, &value.second)?;
        append_stop(into, last)?;
        Ok(())
    }
}

impl StructCode for IntegerDraft {
    type Of = Logical;

    ghost fields = { integer_fields };

    ghost fits = { λ l. IfSome l.first IsI8 };

    #[tactic(auto, using(vs_bytes::proofs::Growing::grows_on, thrift_compact::proofs::Appended::some_always), unfolding(crate::specs::ElementWriting::integer_fields))]
    fn append_fields(into: &mut Vec<u8>, value: &Logical) -> Result<(), NoMemory> {
        let last = append_maybe::<Small>(into, 0, 1, &value.first)?;
        let last = append_maybe::<Flag>(into, last, 2, &value.second)?;
        append_stop(into, last)?;
        Ok(())
    }
}

impl StructCode for VariantDraft {
    type Of = Logical;

    ghost fields = { variant_fields };

    ghost fits = { λ l. IfSome l.first IsI8 };

    #[tactic(auto, using(vs_bytes::proofs::Growing::grows_on), unfolding(crate::specs::ElementWriting::variant_fields))]
    fn append_fields(into: &mut Vec<u8>, value: &Logical) -> Result<(), NoMemory> {
        let last = append_maybe::<Small>(into, 0, 1, &value.first)?;
        append_stop(into, last)?;
        Ok(())
    }
}

// A member with its fields, and the stop.
#[tactic(auto, using(vs_bytes::proofs::Growing::grows_on))]
fn append_member<C: StructCode<Of = Logical>>(
    into: &mut Vec<u8>,
    logical: &Logical,
) -> Result<(), NoMemory>
    requires { C.fits logical.now }
    ensures ok { OnOk result (into.new.items ≡ into.old.items ++ fields_coded 0 (with_field logical.now.member (struct_value (C.fields logical.now)) no_fields)) }
    ensures grows { Grows into.old.items into.new.items }
{
    append_field::<StructOf<C>>(into, 0, logical.member, logical)?;
    append_stop(into, logical.member.unsigned_abs())
}

// A member without fields, and the stop.
#[tactic(auto, using(vs_bytes::proofs::Growing::grows_on))]
fn append_plain(into: &mut Vec<u8>, member: i16) -> Result<(), NoMemory>
    ensures ok { OnOk result (into.new.items ≡ into.old.items ++ fields_coded 0 (with_field member (struct_value no_fields) no_fields)) }
    ensures grows { Grows into.old.items into.new.items }
{
    append_field::<StructOf<EmptyDraft>>(into, 0, member, &())?;
    append_stop(into, member.unsigned_abs())
}

impl StructCode for LogicalDraft {
    type Of = Logical;

    ghost fields = { logical_fields };

    ghost fits = { IsLogical };

    #[tactic(auto, unfolding(crate::specs::ElementWriting::logical_fields))]
    fn append_fields(into: &mut Vec<u8>, value: &Logical) -> Result<(), NoMemory> {
        match value.member {
            0 => append_stop(into, 0),
            5 => append_member::<DecimalDraft>(into, value),
            7 => append_member::<TimeDraft>(into, value),
            8 => append_member::<TimeDraft>(into, value),
            10 => append_member::<IntegerDraft>(into, value),
            16 => append_member::<VariantDraft>(into, value),
            member => append_plain(into, member),
        }
    }
}
