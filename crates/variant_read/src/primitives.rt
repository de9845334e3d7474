//! The values that hold no others: how many bytes each has, or the rule that it violates.

ghost use Rattle.std.specs.Prelude.{◌≡◌, ◌+◌, ◌<◌, ◌≤◌, ◌^◌, ℕ, List, length, nat_lt, if◌then◌else◌, Ok, Err};
ghost use Rattle.std.specs.Str.{is_utf8};
ghost use Rattle.vs_bytes.specs.declared.rule.Rule.TheVariants.{ValueShort};
ghost use Rattle.variant_meta.specs.TypeIds.{int64_id, double_id, decimal16_id};
ghost use Rattle.variant_read.specs.Meaning.{size_in};
ghost use Rattle.variant_read.specs.Primitives.{decimal_kind, string_len_size, text_at, short_string, string_kind, kind_of, primitive};

use crate::layout::type_header;
use exact_num::Unscaled;
use variant_meta::{
    DECIMAL4_ID, DECIMAL8_ID, DECIMAL16_ID, DOUBLE_ID, FLOAT_ID, INT8_ID, INT16_ID, INT32_ID,
    INT64_ID, LAST_TYPE_ID, STRING_ID,
};
use vs_bytes::{Rule, cut, is_utf8, number_at};

// The greatest scale of a decimal.
const MAX_SCALE: u8 = 38;

// An unscaled integer of a decimal is less, without its sign.
const UNSCALED_BOUND: u128 = 100_000_000_000_000_000_000_000_000_000_000_000_000;

// The bytes of the length of a string that isn't short.
pub(crate) const STRING_LEN_SIZE: usize = 4;

// How many bytes null, booleans and integers have, the values of a type id up to that of int64.
#[inline(always)]
#[tactic(auto, unfolding(crate::specs::Primitives::kind_of, crate::specs::Primitives::constant_kind, crate::specs::Primitives::integer_kind))]
fn plain_size(id: u8) -> usize
    requires { id ≤ int64_id }
    ensures { (bytes : List ℕ) → 0 < length bytes → size_in (kind_of id bytes) ≡ if nat_lt (length bytes) result then Err ValueShort else Ok result }
{
    match id {
        INT8_ID => 1 + 1,
        INT16_ID => 1 + 2,
        INT32_ID => 1 + 4,
        INT64_ID => 1 + 8,
        _ => 1,
    }
}

// A decimal whose integer has few bytes has few digits.
#[tactic(auto, using(crate::proofs::Unscaleds::small_read), unfolding(crate::specs::Primitives::decimal_kind))]
fn small_decimal(bytes: &[u8], width: usize) -> Result<usize, Rule>
    requires { width ≤ 8 }
    ensures { result ≡ size_in (decimal_kind width bytes.now) }
{
    if bytes.len() < 2 + width {
        return Err(Rule::ValueShort);
    }
    if bytes[1] > MAX_SCALE {
        return Err(Rule::DecimalScale);
    }
    Ok(2 + width)
}

#[tactic(auto, unfolding(crate::specs::Primitives::decimal_kind))]
fn wide_decimal(bytes: &[u8]) -> Result<usize, Rule>
    ensures { result ≡ size_in (decimal_kind 16 bytes.now) }
{
    if bytes.len() < 18 {
        return Err(Rule::ValueShort);
    }
    if bytes[1] > MAX_SCALE {
        return Err(Rule::DecimalScale);
    }
    if Unscaled::<16>::little(bytes, 2).unsigned_abs() >= UNSCALED_BOUND {
        return Err(Rule::DecimalDigits);
    }
    Ok(18)
}

#[inline(always)]
#[tactic(auto, unfolding(crate::specs::Primitives::text_at))]
fn text(bytes: &[u8], at: usize, len: usize) -> Result<usize, Rule>
    requires at { at ≤ 1 + string_len_size }
    requires len { len < 2 ^ 32 }
    ensures { result ≡ size_in (text_at at len bytes.now) }
{
    let Some(text) = cut(bytes, at, len) else {
        return Err(Rule::ValueShort);
    };
    if is_utf8(text) {
        Ok(at + len)
    } else {
        Err(Rule::TextUtf8)
    }
}

#[inline(always)]
#[tactic(auto, unfolding(crate::specs::Primitives::short_string))]
pub(crate) fn short_string(bytes: &[u8]) -> Result<usize, Rule>
    requires { 0 < length bytes.now }
    ensures { result ≡ size_in (short_string bytes.now) }
{
    text(bytes, 1, usize::from(type_header(bytes)))
}

#[tactic(auto, unfolding(crate::specs::Primitives::string_kind, crate::specs::Primitives::text_at))]
fn string(bytes: &[u8]) -> Result<usize, Rule>
    ensures { result ≡ size_in (string_kind bytes.now) }
{
    if bytes.len() < 1 + STRING_LEN_SIZE {
        return Err(Rule::ValueShort);
    }
    let len = number_at(bytes, 1, STRING_LEN_SIZE) as usize;
    text(bytes, 1 + STRING_LEN_SIZE, len)
}

// The kinds of the type id of decimal16 and above.
#[inline(never)]
#[tactic(auto, unfolding(crate::specs::Primitives::kind_of, crate::specs::Primitives::unread_kind))]
fn rare_kind(bytes: &[u8], id: u8) -> Result<usize, Rule>
    requires { decimal16_id ≤ id }
    ensures { result ≡ size_in (kind_of id bytes.now) }
{
    match id {
        DECIMAL16_ID => wide_decimal(bytes),
        FLOAT_ID => Err(Rule::FloatLeftOut),
        STRING_ID => string(bytes),
        _ => {
            if id <= LAST_TYPE_ID {
                Err(Rule::KindNotRead)
            } else {
                Err(Rule::TypeId)
            }
        }
    }
}

// The kinds of the type id of double and above.
#[inline(always)]
#[tactic(auto, unfolding(crate::specs::Primitives::kind_of, crate::specs::Primitives::unread_kind))]
fn other_kind(bytes: &[u8], id: u8) -> Result<usize, Rule>
    requires { double_id ≤ id }
    ensures { result ≡ size_in (kind_of id bytes.now) }
{
    match id {
        DOUBLE_ID => Err(Rule::FloatLeftOut),
        DECIMAL4_ID => small_decimal(bytes, 4),
        DECIMAL8_ID => small_decimal(bytes, 8),
        _ => rare_kind(bytes, id),
    }
}

#[inline(always)]
#[tactic(auto, unfolding(crate::specs::Primitives::primitive))]
pub(crate) fn primitive(bytes: &[u8]) -> Result<usize, Rule>
    requires { 0 < length bytes.now }
    ensures { result ≡ size_in (primitive bytes.now) }
{
    let id = type_header(bytes);
    if id > INT64_ID {
        return other_kind(bytes, id);
    }
    let size = plain_size(id);
    if bytes.len() < size {
        return Err(Rule::ValueShort);
    }
    Ok(size)
}
