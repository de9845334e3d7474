//! What the fields of schema elements hold beside plain numbers: small numbers and truth values as i32s, and names.

ghost use Rattle.std.specs.Prelude.{◌≡◌, ◌++◌, Some, IfOk, OnOk};
ghost use Rattle.std.proofs.Common.{refl};
ghost use Rattle.vs_bytes.specs.Outcome.{Grows};
ghost use Rattle.thrift_compact.specs.Trees.{bools, i8s, binaries, bool_value, binary_value};
ghost use Rattle.thrift_compact.specs.Coded.{zigzag, binary_bytes};
ghost use Rattle.schema_elements.specs.FieldValues.{small_in, flag_in, text_in, small_value, flag_value, IsI8};

use std::alloc::Global;
use thrift_compact::{Code, Int8, Int64, binary_at, i8_at};
use thrift_structs::Entry;
use vs_bytes::{NoMemory, Refusal, Text, is_utf8};

/// An i8, as an i32.
pub struct Small;

impl Entry for Small {
    type Out = i32;

    ghost shape = { i8s };

    ghost read = { small_in };

    #[tactic(auto, using(std::proofs::lemmas::Bool::Decides::nat_tests))]
    fn fits(kind: u8) -> bool {
        kind == 3
    }

    #[tactic(auto, using(std::proofs::lemmas::Bool::Decides::nat_tests))]
    fn fits_element(kind: u8) -> bool {
        kind == 3
    }

    #[tactic(auto, unfolding(thrift_compact::specs::Trees::shaped))]
    fn read(_alloc: Global, _kind: u8, bytes: &[u8]) -> Result<(Option<i32>, &[u8]), Refusal> {
        let (number, rest) = i8_at(bytes)?;
        Ok((Some(i32::from(number)), rest))
    }

    ghost passed = { refl };
}

impl Code for Small {
    type Of = i32;

    ghost tree = { small_value };

    ghost fits = { IsI8 };

    fn kind(_value: &i32) -> u8 {
        3
    }

    fn write(into: &mut Vec<u8>, value: &i32) -> Result<(), NoMemory> {
        Int8::write(into, &(*value as i8))
    }
}

/// A truth value, as 0 or 1.
pub struct Flag;

fn flag_of(truth: bool) -> i32
    ensures { Some result ≡ flag_in (bool_value truth) }
{
    if truth { 1 } else { 0 }
}

impl Entry for Flag {
    type Out = i32;

    ghost shape = { bools };

    ghost read = { flag_in };

    #[tactic(auto, using(std::proofs::lemmas::Bool::Decides::nat_tests))]
    fn fits(kind: u8) -> bool {
        kind == 1 || kind == 2
    }

    fn fits_element(_kind: u8) -> bool {
        false
    }

    #[tactic(auto, using(std::proofs::lemmas::Bool::Decides::nat_tests), unfolding(thrift_compact::specs::Trees::shaped))]
    fn read(_alloc: Global, kind: u8, bytes: &[u8]) -> Result<(Option<i32>, &[u8]), Refusal> {
        Ok((Some(flag_of(kind == 1)), bytes))
    }

    ghost passed = { refl };
}

impl Code for Flag {
    type Of = i32;

    ghost tree = { flag_value };

    ghost fits = { λ _. Unit {0} };

    fn kind(value: &i32) -> u8 {
        if *value == 0 { 2 } else { 1 }
    }

    #[tactic(auto, unfolding(thrift_compact::specs::Coded::coded))]
    fn write(_into: &mut Vec<u8>, _value: &i32) -> Result<(), NoMemory> {
        Ok(())
    }
}

/// UTF-8 text.
pub struct Words;

#[tactic(auto, using(crate::proofs::Texts::utf8_is))]
fn text_of(alloc: Global, bytes: &[u8]) -> Result<Option<Text>, NoMemory>
    ensures { IfOk result (λ t. t ≡ text_in (binary_value bytes.now)) }
{
    if is_utf8(bytes) {
        Ok(Some(Text::from_utf8_slice(alloc, bytes)?))
    } else {
        Ok(None)
    }
}

impl Entry for Words {
    type Out = Text;

    ghost shape = { binaries };

    ghost read = { text_in };

    #[tactic(auto, using(std::proofs::lemmas::Bool::Decides::nat_tests))]
    fn fits(kind: u8) -> bool {
        kind == 8
    }

    #[tactic(auto, using(std::proofs::lemmas::Bool::Decides::nat_tests))]
    fn fits_element(kind: u8) -> bool {
        kind == 8
    }

    #[tactic(auto, unfolding(thrift_compact::specs::Trees::shaped))]
    fn read(alloc: Global, _kind: u8, bytes: &[u8]) -> Result<(Option<Text>, &[u8]), Refusal> {
        let (part, rest) = binary_at(bytes)?;
        let text = text_of(alloc, part)?;
        Ok((text, rest))
    }

    ghost passed = { refl };
}

// The number whose zigzag is `size`: a size is a varint without a sign, and so has the bytes of this number.
#[tactic(auto, using(std::proofs::lemmas::Bool::Decides::nat_tests))]
fn with_zigzag(size: u64) -> i64
    ensures { zigzag result ≡ size }
{
    let half = (size / 2) as i64;
    if size % 2 == 0 { half } else { -1 - half }
}

#[tactic(auto, using(vs_bytes::proofs::Growing::grows_more), unfolding(thrift_compact::specs::Coded::coded, thrift_compact::specs::Coded::signed_bytes, thrift_compact::specs::Coded::binary_bytes))]
fn append_text(into: &mut Vec<u8>, text: &[u8]) -> Result<(), NoMemory>
    ensures ok { OnOk result (into.new.items ≡ into.old.items ++ binary_bytes text.now) }
    ensures grows { Grows into.old.items into.new.items }
{
    Int64::write(into, &with_zigzag(text.len() as u64))?;
    into.extend_from_slice(text)?;
    Ok(())
}

impl Code for Words {
    type Of = Text;

    ghost tree = { binary_value };

    ghost fits = { λ _. Unit {0} };

    fn kind(_value: &Text) -> u8 {
        8
    }

    #[tactic(auto, unfolding(thrift_compact::specs::Coded::coded))]
    fn write(into: &mut Vec<u8>, value: &Text) -> Result<(), NoMemory> {
        append_text(into, value.as_bytes())
    }
}
