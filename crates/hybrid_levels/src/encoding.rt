//! The bytes of numbers.

ghost use Rattle.std.specs.Prelude.{◌≡◌, ◌*◌, ◌^◌, ◌<◌, ◌≤◌, ◌++◌, ℕ, length, slice_index, IfOk, OnOk, OnErr};
ghost use Rattle.vs_bytes.specs.Outcome.{Grows};
ghost use Rattle.hybrid_levels.specs.Written.{varint_bytes, run, group, stretch, piece, piece_count, encoded};

use crate::packing::pack;
use vs_bytes::{NoMemory, append_number};

#[tactic(auto, using(crate::proofs::Packed::varint_more))]
fn append_varint(into: &mut Vec<u8>, most: usize, number: u32) -> Result<(), NoMemory>
    ensures ok { OnOk result (into.new.items ≡ into.old.items ++ varint_bytes most number) }
    ensures grows { Grows into.old.items into.new.items }
{
    if most == 0 {
        return Ok(());
    }
    if number < 128 {
        into.push(number as u8)?;
        return Ok(());
    }
    into.push((128 + number % 128) as u8)?;
    append_varint(into, most - 1, number / 128)?;
    Ok(())
}

#[tactic(auto, using(crate::proofs::Packed::bytes_hold), unfolding(crate::specs::Written::run))]
fn append_run(into: &mut Vec<u8>, width: usize, copies: usize, number: u32) -> Result<(), NoMemory>
    requires narrow { width ≤ 32 }
    requires fits { number < 2 ^ width }
    requires few { copies < 2 ^ 31 }
    ensures ok { OnOk result (into.new.items ≡ into.old.items ++ run width copies number) }
    ensures grows { Grows into.old.items into.new.items }
{
    append_varint(into, 5, 2 * copies as u32)?;
    if width == 0 {
        return Ok(());
    }
    append_number(into, width.div_ceil(8), number)
}

#[tactic(auto, unfolding(crate::specs::Written::group))]
fn append_group(into: &mut Vec<u8>, width: usize, numbers: &[u32]) -> Result<(), NoMemory>
    requires narrow { width ≤ 32 }
    requires fit { (k : ℕ) → slice_index numbers.now k < 2 ^ width }
    ensures ok { OnOk result (into.new.items ≡ into.old.items ++ group width numbers.now) }
    ensures grows { Grows into.old.items into.new.items }
{
    let mut bytes = [0u8; 32];
    pack(width, numbers, &mut bytes[..width]);
    into.push(3)?;
    into.extend_from_slice(&bytes[..width])?;
    Ok(())
}

// How many numbers at the front are equal.
#[tactic(auto, unfolding(crate::specs::Written::stretch))]
fn stretch(numbers: &[u32]) -> usize
    ensures value { result ≡ stretch numbers.now }
    ensures within { result ≤ length numbers.now }
{
    match numbers.first() {
        Some(front) => numbers.iter().take_while(|n| **n == *front).count(),
        None => 0,
    }
}

// Appends the part for the front, and answers how many numbers it is for.
#[tactic(auto, unfolding(crate::specs::Written::piece, crate::specs::Written::piece_count))]
fn append_piece(into: &mut Vec<u8>, width: usize, numbers: &[u32]) -> Result<usize, NoMemory>
    requires narrow { width ≤ 32 }
    requires fit { (k : ℕ) → slice_index numbers.now k < 2 ^ width }
    requires few { length numbers.now < 2 ^ 31 }
    ensures ok { OnOk result (into.new.items ≡ into.old.items ++ piece width numbers.now) }
    ensures count { IfOk result (λ count. count ≡ piece_count numbers.now) }
    ensures some { IfOk result (λ count. 1 ≤ count) }
    ensures few { IfOk result (λ count. count < 2 ^ 31) }
    ensures grows { Grows into.old.items into.new.items }
{
    let copies = stretch(numbers);
    if copies >= 8 {
        append_run(into, width, copies, numbers[0])?;
        return Ok(copies);
    }
    append_group(into, width, &numbers[..numbers.len().min(8)])?;
    Ok(8)
}

fn append_pieces(into: &mut Vec<u8>, width: usize, numbers: &[u32]) -> Result<(), NoMemory>
    requires narrow { width ≤ 32 }
    requires fit { (k : ℕ) → slice_index numbers.now k < 2 ^ width }
    requires few { length numbers.now < 2 ^ 31 }
    ensures ok { OnOk result (into.new.items ≡ into.old.items ++ encoded width numbers.now) }
    ensures grows { Grows into.old.items into.new.items }
{
    let mut at = 0;
    while at < numbers.len() {
        at += append_piece(into, width, &numbers[at..])?;
    }
    Ok(())
}

/// Appends the bytes of numbers: at each place a run of the numbers that are equal from there on, where they are
/// 8 or more, else a group of the next 8 numbers. After an `Err` the bytes are as before.
///
/// `width` is in bits. Whether a number fits is for the caller to know.
pub fn encode(into: &mut Vec<u8>, width: u8, numbers: &[u32]) -> Result<(), NoMemory>
    requires narrow { width ≤ 32 }
    requires fit { (k : ℕ) → slice_index numbers.now k < 2 ^ width }
    requires few { length numbers.now < 2 ^ 31 }
    ensures ok { OnOk result (into.new.items ≡ into.old.items ++ encoded width numbers.now) }
    ensures err { OnErr result (into.new.items ≡ into.old.items) }
{
    let before = into.len();
    let done = append_pieces(into, usize::from(width), numbers);
    if done.is_err() {
        into.truncate(before);
    }
    done
}
