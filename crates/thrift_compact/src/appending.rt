//! The bytes of numbers, binary and headers, appended. After an `Err` some front of them may be appended.

ghost use Rattle.std.specs.Prelude.{◌≡◌, ◌≤◌, ◌++◌, ◌∷◌, [], pos, length, unsigned_abs, OnOk};
ghost use Rattle.vs_bytes.specs.Outcome.{Grows};
ghost use Rattle.thrift_compact.specs.Coded.{varint_bytes, zigzag, signed_bytes, int8_byte, binary_bytes, field_bytes, list_bytes};

use vs_bytes::NoMemory;

#[tactic(auto, using(crate::proofs::Appended::next_digit, crate::proofs::Appended::more_digits, crate::proofs::Appended::no_digits, std::proofs::lemmas::Bool::Decides::nat_tests, vs_bytes::proofs::Growing::grows_more), unfolding(crate::specs::Coded::varint_bytes))]
pub(crate) fn append_varint(into: &mut Vec<u8>, number: u64) -> Result<(), NoMemory>
    ensures ok { OnOk result (into.new.items ≡ into.old.items ++ varint_bytes number) }
    ensures grows { Grows into.old.items into.new.items }
{
    let mut left = number;
    for turn in 0..10u8 {
        if left < 128 {
            into.push(left as u8)?;
            return Ok(());
        }
        into.push((left % 128) as u8 + 128)?;
        left /= 128;
    }
    Ok(())
}

fn zigzag(number: i64) -> u64
    ensures { result ≡ zigzag number }
{
    if number >= 0 {
        2 * number as u64
    } else {
        2 * (-1 - number) as u64 + 1
    }
}

#[tactic(auto, unfolding(crate::specs::Coded::signed_bytes))]
pub(crate) fn append_signed(into: &mut Vec<u8>, number: i64) -> Result<(), NoMemory>
    ensures ok { OnOk result (into.new.items ≡ into.old.items ++ signed_bytes number) }
    ensures grows { Grows into.old.items into.new.items }
{
    append_varint(into, zigzag(number))
}

fn int8_byte(number: i8) -> u8
    ensures { result ≡ int8_byte number }
{
    if number >= 0 {
        number as u8
    } else {
        255 - (-1 - number) as u8
    }
}

pub(crate) fn append_int8(into: &mut Vec<u8>, number: i8) -> Result<(), NoMemory>
    ensures ok { OnOk result (into.new.items ≡ into.old.items ++ int8_byte number ∷ []) }
    ensures grows { Grows into.old.items into.new.items }
{
    into.push(int8_byte(number))?;
    Ok(())
}

#[tactic(auto, using(vs_bytes::proofs::Growing::grows_more), unfolding(crate::specs::Coded::binary_bytes))]
pub(crate) fn append_binary(into: &mut Vec<u8>, bytes: &[u8]) -> Result<(), NoMemory>
    ensures ok { OnOk result (into.new.items ≡ into.old.items ++ binary_bytes bytes.now) }
    ensures grows { Grows into.old.items into.new.items }
{
    append_varint(into, bytes.len() as u64)?;
    into.extend_from_slice(bytes)?;
    Ok(())
}

/// The header of field `id` after field `last`.
#[tactic(auto, using(std::proofs::lemmas::Bool::Decides::nat_tests, vs_bytes::proofs::Growing::grows_on), unfolding(crate::specs::Coded::field_bytes))]
pub(crate) fn append_field_header(
    into: &mut Vec<u8>,
    last: u16,
    id: i16,
    kind: u8,
) -> Result<(), NoMemory>
    requires { kind ≤ 15 }
    ensures ok { OnOk result (into.new.items ≡ into.old.items ++ field_bytes last (unsigned_abs id) kind) }
    ensures grows { Grows into.old.items into.new.items }
{
    let id = id.unsigned_abs();
    if last < id && id - last <= 15 {
        into.push((id - last) as u8 * 16 + kind)?;
        Ok(())
    } else {
        into.push(kind)?;
        append_signed(into, i64::from(id))
    }
}

/// The header of a list of `size` elements of type `kind`. After an `Err` some front of it may be appended.
#[tactic(auto, using(std::proofs::lemmas::Bool::Decides::nat_tests, vs_bytes::proofs::Growing::grows_on), unfolding(crate::specs::Coded::list_bytes))]
pub fn append_list_header(into: &mut Vec<u8>, kind: u8, size: u32) -> Result<(), NoMemory>
    requires { kind ≤ 15 }
    ensures ok { OnOk result (into.new.items ≡ into.old.items ++ list_bytes kind size) }
    ensures grows { Grows into.old.items into.new.items }
{
    if size < 15 {
        into.push(size as u8 * 16 + kind)?;
        Ok(())
    } else {
        into.push(240 + kind)?;
        append_varint(into, u64::from(size))
    }
}
