//! The values that hold no others, where they were judged.

ghost use Rattle.std.specs.Prelude.{◌≡◌, ◌<◌, ◌≤◌, true, is_ok, Ok, length};
ghost use Rattle.vs_bytes.specs.Numbers.{IsPart, part};
ghost use Rattle.exact_num.specs.NumberOf.{decimal_of};
ghost use Rattle.json_tree.specs.Json.{number, text};
ghost use Rattle.variant_read.specs.Primitives.{integer_kind, decimal_kind, text_at, string_kind, kind_of, short_string, primitive};
ghost use Rattle.variant_read.specs.Meaning.{json_in};
ghost use Rattle.variant_read.specs.View.{scalar_json, ScalarLiesIn};

use crate::layout::type_header;
use crate::primitives::STRING_LEN_SIZE;
use crate::views::Scalar;
use exact_num::{Number, Unscaled};
use variant_meta::{
    DECIMAL4_ID, DECIMAL8_ID, DECIMAL16_ID, FALSE_ID, INT8_ID, INT16_ID, INT32_ID, INT64_ID,
    NULL_ID, STRING_ID, TRUE_ID,
};
use vs_bytes::{number_at, part};

#[tactic(auto, using(crate::proofs::Judged::integer_there, crate::proofs::Judged::integer_means, crate::proofs::Judged::integer_digits), unfolding(crate::specs::Primitives::decimal))]
fn integer<const W: usize>(bytes: &[u8]) -> Number
    requires least { 1 ≤ W }
    requires most { W ≤ 8 }
    requires judged { is_ok (integer_kind W bytes.now) ≡ true }
    ensures { json_in (integer_kind W bytes.now) ≡ Ok (number (decimal_of result)) }
{
    Number::of(Unscaled::<W>::little(bytes, 1), 0)
}

#[tactic(auto, using(crate::proofs::Judged::decimal_there, crate::proofs::Judged::decimal_scale, crate::proofs::Judged::decimal_digits, crate::proofs::Judged::decimal_means), unfolding(crate::specs::Primitives::decimal))]
fn decimal<const W: usize>(bytes: &[u8]) -> Number
    requires least { 1 ≤ W }
    requires most { W ≤ 16 }
    requires judged { is_ok (decimal_kind W bytes.now) ≡ true }
    ensures { json_in (decimal_kind W bytes.now) ≡ Ok (number (decimal_of result)) }
{
    Number::of(Unscaled::<W>::little(bytes, 2), bytes[1])
}

#[tactic(auto, using(crate::proofs::Judged::text_there, crate::proofs::Judged::text_utf8, crate::proofs::Judged::text_means))]
fn text(bytes: &[u8], at: usize, len: usize) -> &str
    requires { is_ok (text_at at len bytes.now) ≡ true }
    ensures value { result.now ≡ part bytes.now at len }
    ensures inside { IsPart result.now bytes.now }
{
    let text = part(bytes, at, len);
    unsafe { std::str::from_utf8_unchecked(text) }
}

/// The text of a short string.
#[inline(always)]
#[tactic(auto, using(crate::proofs::Judged::text_means), unfolding(crate::specs::Primitives::short_string))]
pub(crate) fn opened_short_string(bytes: &[u8]) -> &str
    requires there { 0 < length bytes.now }
    requires judged { is_ok (short_string bytes.now) ≡ true }
    ensures value { json_in (short_string bytes.now) ≡ Ok (text result.now) }
    ensures inside { IsPart result.now bytes.now }
{
    text(bytes, 1, usize::from(type_header(bytes)))
}

#[tactic(auto, using(crate::proofs::Judged::text_there, crate::proofs::Judged::text_means), unfolding(crate::specs::Primitives::string_kind))]
fn string(bytes: &[u8]) -> &str
    requires { is_ok (string_kind bytes.now) ≡ true }
    ensures value { json_in (string_kind bytes.now) ≡ Ok (text result.now) }
    ensures inside { IsPart result.now bytes.now }
{
    let len = number_at(bytes, 1, STRING_LEN_SIZE) as usize;
    text(bytes, 1 + STRING_LEN_SIZE, len)
}

#[inline(always)]
#[tactic(auto, unfolding(crate::specs::Primitives::kind_of, crate::specs::Primitives::constant_kind, crate::specs::Primitives::unread_kind))]
fn opened_kind(bytes: &[u8], id: u8) -> Scalar<'_>
    requires { is_ok (kind_of id bytes.now) ≡ true }
    ensures value { json_in (kind_of id bytes.now) ≡ Ok (scalar_json result) }
    ensures inside { ScalarLiesIn result bytes.now }
{
    match id {
        NULL_ID => Scalar::Null,
        TRUE_ID => Scalar::Bool(true),
        FALSE_ID => Scalar::Bool(false),
        INT8_ID => Scalar::Num(integer::<1>(bytes)),
        INT16_ID => Scalar::Num(integer::<2>(bytes)),
        INT32_ID => Scalar::Num(integer::<4>(bytes)),
        INT64_ID => Scalar::Num(integer::<8>(bytes)),
        DECIMAL4_ID => Scalar::Num(decimal::<4>(bytes)),
        DECIMAL8_ID => Scalar::Num(decimal::<8>(bytes)),
        DECIMAL16_ID => Scalar::Num(decimal::<16>(bytes)),
        STRING_ID => Scalar::Text(string(bytes)),
        _ => unreachable!(),
    }
}

/// A primitive value.
#[inline(always)]
#[tactic(auto, unfolding(crate::specs::Primitives::primitive))]
pub(crate) fn opened_primitive(bytes: &[u8]) -> Scalar<'_>
    requires there { 0 < length bytes.now }
    requires judged { is_ok (primitive bytes.now) ≡ true }
    ensures value { json_in (primitive bytes.now) ≡ Ok (scalar_json result) }
    ensures inside { ScalarLiesIn result bytes.now }
{
    opened_kind(bytes, type_header(bytes))
}
