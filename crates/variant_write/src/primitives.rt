//! Values that hold no others, written (VariantEncoding.md, "Value encoding").
//!
//! Each function appends, and after an `Err` the bytes have grown.

ghost use Rattle.std.specs.Prelude.{◌≡◌, ◌≤◌, ◌<◌, ◌^◌, ◌++◌, ◌∷◌, [], length, OnOk, if◌then◌else◌};
ghost use Rattle.exact_num.specs.NumberOf.{decimal_of};
ghost use Rattle.exact_num.specs.Unscaled.{FitsBytes, reach};
ghost use Rattle.vs_bytes.specs.Outcome.{Grows};
ghost use Rattle.variant_meta.specs.TypeIds.{null_id, true_id, false_id};
ghost use Rattle.variant_write.specs.Primitives.{primitive_head, integer_bytes, decimal_bytes, whole_bytes, fraction_bytes, decimal_coded, text_coded};

use exact_num::{Number, Unscaled};
use variant_meta::{
    DECIMAL4_ID, DECIMAL8_ID, DECIMAL16_ID, FALSE_ID, INT8_ID, INT16_ID, INT32_ID, INT64_ID,
    NULL_ID, SHORT_STRING_TYPE, STRING_ID, TRUE_ID,
};
use vs_bytes::{Le, NoMemory};

// The longest text that is written as a short string.
const MAX_SHORT_STRING: usize = 63;

fn append_head(into: &mut Vec<u8>, type_id: u8) -> Result<(), NoMemory>
    requires { type_id < 64 }
    ensures ok { OnOk result (into.new.items ≡ into.old.items ++ primitive_head type_id ∷ []) }
    ensures grows { Grows into.old.items into.new.items }
{
    into.push(4 * type_id)?;
    Ok(())
}

/// Appends null.
pub(crate) fn append_null(into: &mut Vec<u8>) -> Result<(), NoMemory>
    ensures ok { OnOk result (into.new.items ≡ into.old.items ++ primitive_head null_id ∷ []) }
    ensures grows { Grows into.old.items into.new.items }
{
    append_head(into, NULL_ID)
}

/// Appends a boolean.
pub(crate) fn append_bool(into: &mut Vec<u8>, truth: bool) -> Result<(), NoMemory>
    ensures ok { OnOk result (into.new.items ≡ into.old.items ++ (if truth then primitive_head true_id else primitive_head false_id) ∷ []) }
    ensures grows { Grows into.old.items into.new.items }
{
    if truth {
        append_head(into, TRUE_ID)
    } else {
        append_head(into, FALSE_ID)
    }
}

// An integer of `W` bytes.
#[tactic(auto, unfolding(crate::specs::Primitives::integer_bytes))]
fn append_integer<const W: usize>(
    into: &mut Vec<u8>,
    type_id: u8,
    number: Number,
) -> Result<(), NoMemory>
    requires id { type_id < 64 }
    requires least { 1 ≤ W }
    requires most { W ≤ 16 }
    requires fits { FitsBytes W (decimal_of number).unscaled }
    ensures ok { OnOk result (into.new.items ≡ into.old.items ++ integer_bytes type_id W (decimal_of number).unscaled) }
    ensures grows { Grows into.old.items into.new.items }
{
    append_head(into, type_id)?;
    Unscaled::<W>::write_little(into, number.unscaled())
}

// A decimal whose unscaled integer has `W` bytes.
#[tactic(auto, unfolding(crate::specs::Primitives::decimal_bytes))]
fn append_decimal<const W: usize>(
    into: &mut Vec<u8>,
    type_id: u8,
    number: Number,
) -> Result<(), NoMemory>
    requires id { type_id < 64 }
    requires least { 1 ≤ W }
    requires most { W ≤ 16 }
    requires fits { FitsBytes W (decimal_of number).unscaled }
    ensures ok { OnOk result (into.new.items ≡ into.old.items ++ decimal_bytes type_id W (decimal_of number)) }
    ensures grows { Grows into.old.items into.new.items }
{
    append_head(into, type_id)?;
    into.push(number.scale())?;
    Unscaled::<W>::write_little(into, number.unscaled())
}

// How far an integer reaches: two's complement has one more below 0.
fn reach(number: Number) -> u128
    ensures { result ≡ reach (decimal_of number).unscaled }
{
    let unscaled = number.unscaled();
    if unscaled < 0 {
        -(unscaled + 1) as u128
    } else {
        unscaled as u128
    }
}

// A whole number, in the narrowest kind.
#[tactic(auto, using(crate::proofs::NumberKinds::fits_int8, crate::proofs::NumberKinds::fits_int16, crate::proofs::NumberKinds::fits_int32, crate::proofs::NumberKinds::fits_int64, crate::proofs::NumberKinds::fits_decimal16, crate::proofs::NumberKinds::in_int8, crate::proofs::NumberKinds::in_int16, crate::proofs::NumberKinds::in_int32, crate::proofs::NumberKinds::in_int64, crate::proofs::NumberKinds::past_int64))]
fn append_whole(into: &mut Vec<u8>, number: Number) -> Result<(), NoMemory>
    ensures ok { OnOk result (into.new.items ≡ into.old.items ++ whole_bytes (decimal_of number)) }
    ensures grows { Grows into.old.items into.new.items }
{
    let reach = reach(number);
    if reach < 0x80 {
        append_integer::<1>(into, INT8_ID, number)
    } else if reach < 0x8000 {
        append_integer::<2>(into, INT16_ID, number)
    } else if reach < 0x8000_0000 {
        append_integer::<4>(into, INT32_ID, number)
    } else if reach < 0x8000_0000_0000_0000 {
        append_integer::<8>(into, INT64_ID, number)
    } else {
        append_decimal::<16>(into, DECIMAL16_ID, number)
    }
}

// A fraction, by how many digits it has.
#[tactic(auto, using(crate::proofs::NumberKinds::fits_decimal4, crate::proofs::NumberKinds::fits_decimal8, crate::proofs::NumberKinds::fits_decimal16, crate::proofs::NumberKinds::in_decimal4, crate::proofs::NumberKinds::in_decimal8, crate::proofs::NumberKinds::past_decimal8))]
fn append_fraction(into: &mut Vec<u8>, number: Number) -> Result<(), NoMemory>
    ensures ok { OnOk result (into.new.items ≡ into.old.items ++ fraction_bytes (decimal_of number)) }
    ensures grows { Grows into.old.items into.new.items }
{
    let size = number.unscaled().unsigned_abs();
    if size < 1_000_000_000 {
        append_decimal::<4>(into, DECIMAL4_ID, number)
    } else if size < 1_000_000_000_000_000_000 {
        append_decimal::<8>(into, DECIMAL8_ID, number)
    } else {
        append_decimal::<16>(into, DECIMAL16_ID, number)
    }
}

/// Appends a number.
#[tactic(auto, unfolding(crate::specs::Primitives::decimal_coded))]
pub(crate) fn append_decimal_number(into: &mut Vec<u8>, number: Number) -> Result<(), NoMemory>
    ensures ok { OnOk result (into.new.items ≡ into.old.items ++ decimal_coded (decimal_of number)) }
    ensures grows { Grows into.old.items into.new.items }
{
    if number.scale() == 0 {
        append_whole(into, number)
    } else {
        append_fraction(into, number)
    }
}

/// Appends a text.
#[tactic(auto, unfolding(crate::specs::Primitives::text_coded))]
pub(crate) fn append_text(into: &mut Vec<u8>, text: &[u8]) -> Result<(), NoMemory>
    requires { length text.now < 2 ^ 32 }
    ensures ok { OnOk result (into.new.items ≡ into.old.items ++ text_coded text.now) }
    ensures grows { Grows into.old.items into.new.items }
{
    if text.len() <= MAX_SHORT_STRING {
        into.push(SHORT_STRING_TYPE + 4 * text.len() as u8)?;
    } else {
        append_head(into, STRING_ID)?;
        Le::<4>::write(into, text.len() as u32)?;
    }
    into.extend_from_slice(text)?;
    Ok(())
}
