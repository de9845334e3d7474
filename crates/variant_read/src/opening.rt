//! One level of a value that was judged.

ghost use Rattle.std.specs.Prelude.{◌≡◌, ◌<◌, ℕ, List, true, is_ok, Ok, length};
ghost use Rattle.variant_meta.specs.MetaRefs.{names_of, bytes_of};
ghost use Rattle.variant_read.specs.Meaning.{container, value_within, json_in};
ghost use Rattle.variant_read.specs.View.{json_of, scalar_json, LiesIn, ScalarLiesIn, HasMetadata};

use crate::layout::{Layout, basic_type};
use crate::scalars::{opened_primitive, opened_short_string};
use crate::views::{ArrayView, Container, ObjectView, Scalar, ValueRef};
use variant_meta::{MetaRef, PRIMITIVE_TYPE, SHORT_STRING_TYPE};

#[tactic(auto, using(crate::proofs::Levels::container_fits, crate::proofs::Levels::container_items, crate::proofs::Levels::object_means, crate::proofs::Levels::array_means, crate::proofs::Inside::part_all), unfolding(crate::specs::View::elements_of, crate::specs::View::members_of, crate::specs::View::array_bytes, crate::specs::View::object_bytes, crate::specs::View::array_metadata, crate::specs::View::object_metadata))]
fn opened_container<'a>(meta: MetaRef<'a>, bytes: &'a [u8], room: u8) -> ValueRef<'a>
    requires there { 0 < length bytes.now }
    requires judged { is_ok (container (names_of meta) (value_within (names_of meta) room) bytes.now) ≡ true }
    ensures value { json_in (container (names_of meta.entry) (value_within (names_of meta.entry) room) bytes.now) ≡ Ok (json_of result) }
    ensures inside { LiesIn result bytes.now }
    ensures metadata { HasMetadata result (bytes_of meta.entry) }
{
    let Some(layout) = Layout::of(bytes) else {
        unreachable!()
    };
    let of = Container { layout, meta, room };
    if layout.object {
        ValueRef::Object(ObjectView { of })
    } else {
        ValueRef::Array(ArrayView { of })
    }
}

fn opened_scalar(scalar: Scalar<'_>) -> ValueRef<'_>
    ensures value { json_of result ≡ scalar_json scalar.entry }
    ensures inside { (bytes : List ℕ) → ScalarLiesIn scalar.entry bytes → LiesIn result bytes }
    ensures metadata { (bytes : List ℕ) → HasMetadata result bytes }
{
    match scalar {
        Scalar::Null => ValueRef::Null,
        Scalar::Bool(truth) => ValueRef::Bool(truth),
        Scalar::Num(number) => ValueRef::Num(number),
        Scalar::Text(text) => ValueRef::Text(text),
    }
}

/// The value at the front of bytes that were judged. Nothing is tested again.
#[tactic(auto, using(crate::proofs::Levels::some_byte, crate::proofs::Levels::level_primitive, crate::proofs::Levels::level_short, crate::proofs::Levels::level_room, crate::proofs::Levels::level_container))]
pub(crate) fn opened<'a>(meta: MetaRef<'a>, bytes: &'a [u8], room: u8) -> ValueRef<'a>
    requires { is_ok (value_within (names_of meta) room bytes.now) ≡ true }
    ensures value { json_in (value_within (names_of meta.entry) room bytes.now) ≡ Ok (json_of result) }
    ensures inside { LiesIn result bytes.now }
    ensures metadata { HasMetadata result (bytes_of meta.entry) }
{
    match basic_type(bytes) {
        PRIMITIVE_TYPE => opened_scalar(opened_primitive(bytes)),
        SHORT_STRING_TYPE => ValueRef::Text(opened_short_string(bytes)),
        _ => opened_container(meta, bytes, room - 1),
    }
}
