//! How values are written: `Code`, and the plain types.

ghost use Rattle.std.specs.Prelude.{◌≡◌, ◌≤◌, ◌++◌, ℕ, OnOk, IfOk, IfSome, unsigned_abs};
ghost use Rattle.vs_bytes.specs.Outcome.{Grows};
ghost use Rattle.thrift_compact.specs.Trees.{Value, Fields, bool_value, i8_value, i32_value, i64_value, binary_value, no_fields, with_field};
ghost use Rattle.thrift_compact.specs.Coded.{kind_of, coded, fields_coded, maybe};

use crate::appending::{append_binary, append_field_header, append_int8, append_signed};
use vs_bytes::{Bytes, NoMemory};

/// How a value is written. `tree` is the value that its bytes mean.
pub trait Code {
    type Of: Drop;

    ghost tree: { Self.Of → Value };

    // Whether the value has bytes.
    ghost fits: { Self.Of → Type 0 };

    /// The type of a value.
    fn kind(value: &Self::Of) -> u8
        ensures own { result ≡ kind_of (tree value.now) }
        ensures most { result ≤ 15 };

    /// Appends the bytes of a value. After an `Err` some front of them may be appended.
    fn write(into: &mut Vec<u8>, value: &Self::Of) -> Result<(), NoMemory>
        requires { fits value.now }
        ensures ok { OnOk result (into.new.items ≡ into.old.items ++ coded (tree value.now)) }
        ensures grows { Grows into.old.items into.new.items };
}

/// Appends a field. `last` is the id of the field before it, or 0. After an `Err` some front may be appended.
#[tactic(auto, using(vs_bytes::proofs::Growing::grows_on, crate::proofs::Appended::field_joined), unfolding(crate::specs::Coded::fields_coded))]
pub fn append_field<C: Code>(
    into: &mut Vec<u8>,
    last: u16,
    id: i16,
    value: &C::Of,
) -> Result<(), NoMemory>
    requires { C.fits value.now }
    ensures ok { OnOk result ((fs : Fields) → into.new.items ++ fields_coded (unsigned_abs id) fs ≡ into.old.items ++ fields_coded last (with_field id (C.tree value.now) fs)) }
    ensures grows { Grows into.old.items into.new.items }
{
    append_field_header(into, last, id, C::kind(value))?;
    C::write(into, value)
}

/// Appends a field that may be missing, and answers the id of the last field then.
#[tactic(auto)]
pub fn append_maybe<C: Code>(
    into: &mut Vec<u8>,
    last: u16,
    id: i16,
    value: &Option<C::Of>,
) -> Result<u16, NoMemory>
    requires { IfSome value.now C.fits }
    ensures ok { IfOk result (λ now. (fs : Fields) → into.new.items ++ fields_coded now fs ≡ into.old.items ++ fields_coded last (maybe id C.tree value.now fs)) }
    ensures grows { Grows into.old.items into.new.items }
{
    match value {
        None => Ok(last),
        Some(value) => {
            append_field::<C>(into, last, id, value)?;
            Ok(id.unsigned_abs())
        }
    }
}

/// Appends the stop of a struct whose last field is `last`.
#[tactic(auto, unfolding(crate::specs::Coded::fields_coded))]
pub fn append_stop(into: &mut Vec<u8>, last: u16) -> Result<(), NoMemory>
    ensures ok { OnOk result (into.new.items ≡ into.old.items ++ fields_coded last no_fields) }
    ensures grows { Grows into.old.items into.new.items }
{
    into.push(0)?;
    Ok(())
}

/// An i8.
pub struct Int8;

impl Code for Int8 {
    type Of = i8;

    ghost tree = { i8_value };

    ghost fits = { λ _. Unit {0} };

    fn kind(_value: &i8) -> u8 {
        3
    }

    #[tactic(auto, unfolding(crate::specs::Coded::coded))]
    fn write(into: &mut Vec<u8>, value: &i8) -> Result<(), NoMemory> {
        append_int8(into, *value)
    }
}

/// An i32, also one of an enum.
pub struct Int32;

impl Code for Int32 {
    type Of = i32;

    ghost tree = { i32_value };

    ghost fits = { λ _. Unit {0} };

    fn kind(_value: &i32) -> u8 {
        5
    }

    #[tactic(auto, unfolding(crate::specs::Coded::coded))]
    fn write(into: &mut Vec<u8>, value: &i32) -> Result<(), NoMemory> {
        append_signed(into, i64::from(*value))
    }
}

/// An i64.
pub struct Int64;

impl Code for Int64 {
    type Of = i64;

    ghost tree = { i64_value };

    ghost fits = { λ _. Unit {0} };

    fn kind(_value: &i64) -> u8 {
        6
    }

    #[tactic(auto, unfolding(crate::specs::Coded::coded))]
    fn write(into: &mut Vec<u8>, value: &i64) -> Result<(), NoMemory> {
        append_signed(into, *value)
    }
}

/// A truth value, which stands in the field's header.
pub struct Truth;

impl Code for Truth {
    type Of = bool;

    ghost tree = { bool_value };

    ghost fits = { λ _. Unit {0} };

    fn kind(value: &bool) -> u8 {
        if *value { 1 } else { 2 }
    }

    #[tactic(auto, unfolding(crate::specs::Coded::coded))]
    fn write(_into: &mut Vec<u8>, _value: &bool) -> Result<(), NoMemory> {
        Ok(())
    }
}

/// A binary.
pub struct Binary;

impl Code for Binary {
    type Of = Bytes;

    ghost tree = { binary_value };

    ghost fits = { λ _. Unit {0} };

    fn kind(_value: &Bytes) -> u8 {
        8
    }

    #[tactic(auto, unfolding(crate::specs::Coded::coded))]
    fn write(into: &mut Vec<u8>, value: &Bytes) -> Result<(), NoMemory> {
        append_binary(into, value.as_slice())
    }
}

/// A binary in place.
#[derive(Clone, Copy)]
pub(crate) struct Part<'a> {
    pub(crate) part: &'a [u8],
}

impl<'a> Code for Part<'a> {
    type Of = Part<'a>;

    ghost tree = { λ p. binary_value p.part.now };

    ghost fits = { λ _. Unit {0} };

    fn kind(_value: &Part<'a>) -> u8 {
        8
    }

    #[tactic(auto, unfolding(crate::specs::Coded::coded))]
    fn write(into: &mut Vec<u8>, value: &Part<'a>) -> Result<(), NoMemory> {
        append_binary(into, value.part)
    }
}
