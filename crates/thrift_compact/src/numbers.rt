//! Varints, signed numbers and binary, each with the bytes after it.

ghost use Rattle.std.specs.Prelude.{◌≡◌, ◌<◌, ◌^◌};
ghost use Rattle.vs_bytes.specs.Outcome.{Gives};
ghost use Rattle.thrift_compact.specs.Numbers.{byte, digits, varint, unzigzag, signed, int8, bytes_at, binary};

use vs_bytes::Rule;

pub(crate) fn byte_at(bytes: &[u8]) -> Result<(u8, &[u8]), Rule>
    ensures { Gives (λ r. (r.0, r.1.now)) result (byte bytes.now) }
{
    match bytes {
        [first, rest @ ..] => Ok((*first, rest)),
        [] => Err(Rule::Thrift),
    }
}

// Ten bytes have 70 bits.
#[tactic(auto, using(crate::proofs::Varints::first_digits, crate::proofs::Varints::next_digit, crate::proofs::Varints::no_room, crate::proofs::Varints::place_small, crate::proofs::Varints::place_next, crate::proofs::Varints::digit_small, crate::proofs::Varints::value_next))]
fn digits_at(bytes: &[u8]) -> Result<(u128, &[u8]), Rule>
    ensures { Gives (λ r. (r.0, r.1.now)) result (digits 10 bytes.now) }
{
    let mut value: u128 = 0;
    let mut place: u128 = 1;
    let mut rest = bytes;
    for turn in 0..10u8 {
        let (first, after) = byte_at(rest)?;
        if first < 128 {
            return Ok((value + place * u128::from(first), after));
        }
        value += place * u128::from(first - 128);
        place *= 128;
        rest = after;
    }
    Err(Rule::Thrift)
}

#[tactic(auto, using(std::proofs::lemmas::Bool::Decides::nat_tests), unfolding(crate::specs::Numbers::varint))]
pub(crate) fn varint_at(bytes: &[u8]) -> Result<(u64, &[u8]), Rule>
    ensures { Gives (λ r. (r.0, r.1.now)) result (varint bytes.now) }
{
    let (value, rest) = digits_at(bytes)?;
    if value < 18_446_744_073_709_551_616 {
        Ok((value as u64, rest))
    } else {
        Err(Rule::Thrift)
    }
}

#[tactic(auto, using(std::proofs::lemmas::Bool::Decides::nat_tests), unfolding(crate::specs::Numbers::unzigzag))]
fn unzigzag_16(number: u16) -> i16
    ensures { result ≡ unzigzag number }
{
    if number % 2 == 0 {
        (number / 2) as i16
    } else {
        -1 - (number / 2) as i16
    }
}

#[tactic(auto, using(std::proofs::lemmas::Bool::Decides::nat_tests), unfolding(crate::specs::Numbers::unzigzag))]
fn unzigzag_32(number: u32) -> i32
    ensures { result ≡ unzigzag number }
{
    if number % 2 == 0 {
        (number / 2) as i32
    } else {
        -1 - (number / 2) as i32
    }
}

#[tactic(auto, using(std::proofs::lemmas::Bool::Decides::nat_tests), unfolding(crate::specs::Numbers::unzigzag))]
fn unzigzag_64(number: u64) -> i64
    ensures { result ≡ unzigzag number }
{
    if number % 2 == 0 {
        (number / 2) as i64
    } else {
        -1 - (number / 2) as i64
    }
}

/// An i64, and the bytes after it.
#[tactic(auto, using(std::proofs::lemmas::Bool::Decides::nat_tests), unfolding(crate::specs::Numbers::signed))]
pub fn i64_at(bytes: &[u8]) -> Result<(i64, &[u8]), Rule>
    ensures { Gives (λ r. (r.0, r.1.now)) result (signed 64 bytes.now) }
{
    let (number, rest) = varint_at(bytes)?;
    Ok((unzigzag_64(number), rest))
}

/// An i32, and the bytes after it.
#[tactic(auto, using(std::proofs::lemmas::Bool::Decides::nat_tests), unfolding(crate::specs::Numbers::signed))]
pub fn i32_at(bytes: &[u8]) -> Result<(i32, &[u8]), Rule>
    ensures { Gives (λ r. (r.0, r.1.now)) result (signed 32 bytes.now) }
{
    let (number, rest) = varint_at(bytes)?;
    if number < 1 << 32 {
        Ok((unzigzag_32(number as u32), rest))
    } else {
        Err(Rule::Thrift)
    }
}

#[tactic(auto, using(std::proofs::lemmas::Bool::Decides::nat_tests), unfolding(crate::specs::Numbers::signed))]
pub(crate) fn i16_at(bytes: &[u8]) -> Result<(i16, &[u8]), Rule>
    ensures { Gives (λ r. (r.0, r.1.now)) result (signed 16 bytes.now) }
{
    let (number, rest) = varint_at(bytes)?;
    if number < 65_536 {
        Ok((unzigzag_16(number as u16), rest))
    } else {
        Err(Rule::Thrift)
    }
}

/// An i8, and the bytes after it.
#[tactic(auto, using(std::proofs::lemmas::Bool::Decides::nat_tests), unfolding(crate::specs::Numbers::int8))]
pub fn i8_at(bytes: &[u8]) -> Result<(i8, &[u8]), Rule>
    ensures { Gives (λ r. (r.0, r.1.now)) result (int8 bytes.now) }
{
    let (byte, rest) = byte_at(bytes)?;
    if byte < 128 {
        Ok((byte as i8, rest))
    } else {
        Ok((-1 - (255 - byte) as i8, rest))
    }
}

#[tactic(auto, using(std::proofs::lemmas::Bool::Decides::nat_tests), unfolding(crate::specs::Numbers::bytes_at))]
pub(crate) fn part_at(count: u64, bytes: &[u8]) -> Result<(&[u8], &[u8]), Rule>
    ensures { Gives (λ r. (r.0.now, r.1.now)) result (bytes_at count bytes.now) }
{
    if count <= bytes.len() as u64 {
        Ok(bytes.split_at(count as usize))
    } else {
        Err(Rule::Thrift)
    }
}

/// A binary or string in place, and the bytes after it.
#[tactic(auto, unfolding(crate::specs::Numbers::binary))]
pub fn binary_at(bytes: &[u8]) -> Result<(&[u8], &[u8]), Rule>
    ensures { Gives (λ r. (r.0.now, r.1.now)) result (binary bytes.now) }
{
    let (count, rest) = varint_at(bytes)?;
    part_at(count, rest)
}
