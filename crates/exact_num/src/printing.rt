//! Printing numbers.

ghost use Rattle.std.specs.Prelude.{◌≡◌, ◌+◌, ◌-◌, min, length, ◌^◌, ◌<◌, ◌≤◌, ◌++◌, ◌∷◌, decimal, drop, OnOk, OnErr};
ghost use Rattle.exact_num.specs.NumberOf.{decimal_of};
ghost use Rattle.exact_num.specs.Text.{Grows, text_of, size_text, padded};
ghost use Rattle.exact_num.specs.Decimal.{max_places};

use crate::number::Number;
use crate::power::{parts, power};
use std::alloc::AllocError;
use vs_bytes::NoMemory;

/// Appends the number as a JSON text: a minus where it is below 0, its whole part, and where its scale
/// isn't 0 a point and as many digits as that. After an `Err` `into` is as before.
pub fn print(into: &mut Vec<u8>, number: Number) -> Result<(), NoMemory>
    ensures ok { OnOk result (into.new.items ≡ into.old.items ++ text_of (decimal_of number)) }
    ensures err { OnErr result (into.new.items ≡ into.old.items) }
{
    let before = into.len();
    if put(into, number).is_err() {
        into.truncate(before);
        return Err(NoMemory);
    }
    Ok(())
}

fn put(into: &mut Vec<u8>, number: Number) -> Result<(), AllocError>
    ensures ok { OnOk result (into.new.items ≡ into.old.items ++ text_of (decimal_of number)) }
    ensures grows { Grows into.old.items into.new.items }
{
    if number.is_minus() {
        into.push(b'-')?;
    }
    put_size(into, number.size(), number.scale())
}

#[tactic(auto, unfolding(crate::specs::Text::size_text))]
fn put_size(into: &mut Vec<u8>, size: u128, scale: u8) -> Result<(), AllocError>
    requires { scale ≤ max_places }
    ensures ok { OnOk result (into.new.items ≡ into.old.items ++ size_text size scale) }
    ensures grows { Grows into.old.items into.new.items }
{
    if scale == 0 {
        return put_whole(into, size);
    }
    let ten = power(scale);
    let (whole, rest) = parts(size, ten);
    put_whole(into, whole)?;
    into.push(b'.')?;
    put_places(into, rest, scale)
}

fn put_whole(into: &mut Vec<u8>, size: u128) -> Result<(), AllocError>
    ensures ok { OnOk result (into.new.items ≡ into.old.items ++ decimal size) }
    ensures grows { Grows into.old.items into.new.items }
{
    let mut buffer = itoa::Buffer::new();
    match u64::try_from(size) {
        Ok(short) => into.extend_from_slice(buffer.format(short).as_bytes()),
        Err(_) => into.extend_from_slice(buffer.format(size).as_bytes()),
    }
}

// The digits after a leading 1, which keeps the zeros at their beginning.
#[tactic(auto, using(crate::proofs::Printed::marked_text))]
fn put_places(into: &mut Vec<u8>, rest: u128, scale: u8) -> Result<(), AllocError>
    requires scale { scale ≤ max_places }
    requires rest { rest < 10 ^ scale }
    ensures ok { OnOk result (into.new.items ≡ into.old.items ++ padded scale rest) }
    ensures grows { Grows into.old.items into.new.items }
{
    let mut buffer = itoa::Buffer::new();
    let marked = power(scale) + rest;
    match u64::try_from(marked) {
        Ok(short) => into.extend_from_slice(behind_first(buffer.format(short).as_bytes())),
        Err(_) => into.extend_from_slice(behind_first(buffer.format(marked).as_bytes())),
    }
}

fn behind_first(text: &[u8]) -> &[u8]
    ensures { result.now ≡ drop 1 text.now }
{
    match text.split_first() {
        Some((_, rest)) => rest,
        None => text,
    }
}

/// How many bytes the number's text takes. It takes no memory.
pub fn text_len(number: Number) -> u64
    ensures { result ≡ min (length (text_of (decimal_of number))) (2 ^ 64 - 1) }
{
    let sign = u64::from(number.is_minus());
    size_len(number.size(), number.scale()).saturating_add(sign)
}

fn size_len(size: u128, scale: u8) -> u64
    requires { scale ≤ max_places }
    ensures { result ≡ min (length (size_text size scale)) (2 ^ 64 - 1) }
{
    let (whole, _) = parts(size, power(scale));
    let mut buffer = itoa::Buffer::new();
    let len = buffer.format(whole).len() as u64;
    if scale == 0 {
        return len;
    }
    len.saturating_add(u64::from(scale) + 1)
}
