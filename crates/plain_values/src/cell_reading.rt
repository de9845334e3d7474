//! The cell at the front of bytes, and how many bytes it takes.

ghost use Rattle.std.specs.Prelude.{◌≡◌, ◌<◌, ◌≤◌, ◌^◌, length, IfOk, Ok};
ghost use Rattle.vs_bytes.specs.Outcome.{Gives, Makes};
ghost use Rattle.vs_bytes.specs.declared.leaf_columns.Cell.TheVariants as cell;
ghost use Rattle.plain_values.specs.Plain.{decimal, text, array_held, array_len, integer, fixed, array, front_cell, with_len, len_of, front_len};

use exact_num::{Unscaled, big_of};
use std::alloc::Global;
use vs_bytes::{Bytes, Cell, Le, Leaf, Phys, Prim, Refusal, Refused, Rule, is_utf8, part};

// The integer of a decimal is below this.
const DECIMAL_BOUND: u128 = 100_000_000_000_000_000_000_000_000_000_000_000_000;

#[tactic(auto, unfolding(crate::specs::Plain::decimal))]
fn decimal(bytes: &[u8]) -> Result<Cell, Rule>
    ensures { Gives (λ c. c) result (decimal bytes.now) }
{
    if bytes.is_empty() || bytes.len() > 16 {
        return Err(Rule::DecimalDigits);
    }
    let number = big_of(bytes);
    if number.unsigned_abs() < DECIMAL_BOUND {
        Ok(Cell::Num(number))
    } else {
        Err(Rule::DecimalDigits)
    }
}

fn copied(alloc: Global, bytes: &[u8]) -> Result<Cell, Refusal>
    ensures { Makes (λ c. c) result (Ok (cell.Bytes bytes.now)) }
{
    match Bytes::from_slice(alloc, bytes) {
        Ok(copy) => Ok(Cell::Bytes(copy)),
        Err(_) => Err(Refused::NoMemory),
    }
}

#[inline(always)]
#[tactic(auto, unfolding(crate::specs::Plain::text))]
fn text(alloc: Global, bytes: &[u8]) -> Result<Cell, Refusal>
    ensures { Makes (λ c. c) result (text bytes.now) }
{
    if !is_utf8(bytes) {
        return Err(Refused::Fault(Rule::TextUtf8));
    }
    match Bytes::from_slice(alloc, bytes) {
        Ok(copy) => Ok(Cell::Bytes(copy)),
        Err(_) => Err(Refused::NoMemory),
    }
}

// What the bytes of a BYTE_ARRAY hold.
#[inline(always)]
fn array_held(alloc: Global, kind: Prim, bytes: &[u8]) -> Result<Cell, Refusal>
    ensures { Makes (λ c. c) result (array_held kind bytes.now) }
{
    match kind {
        Prim::Text => text(alloc, bytes),
        Prim::Decimal { .. } => match decimal(bytes) {
            Ok(cell) => Ok(cell),
            Err(rule) => Err(Refused::Fault(rule)),
        },
        _ => copied(alloc, bytes),
    }
}

#[tactic(auto, unfolding(crate::specs::Plain::integer))]
fn int32(bytes: &[u8]) -> Result<(Cell, usize), Refusal>
    ensures exact { Makes (λ c. c) result (integer 4 bytes.now) }
    ensures within { IfOk result (λ c. c.1 ≤ length bytes.now) }
{
    if bytes.len() < 4 {
        return Err(Refused::Fault(Rule::PlainShort));
    }
    Ok((Cell::Num(Unscaled::<4>::little(bytes, 0)), 4))
}

#[tactic(auto, unfolding(crate::specs::Plain::integer))]
fn int64(bytes: &[u8]) -> Result<(Cell, usize), Refusal>
    ensures exact { Makes (λ c. c) result (integer 8 bytes.now) }
    ensures within { IfOk result (λ c. c.1 ≤ length bytes.now) }
{
    if bytes.len() < 8 {
        return Err(Refused::Fault(Rule::PlainShort));
    }
    Ok((Cell::Num(Unscaled::<8>::little(bytes, 0)), 8))
}

#[tactic(auto, unfolding(crate::specs::Plain::fixed))]
fn fixed(size: usize, bytes: &[u8]) -> Result<(Cell, usize), Refusal>
    ensures exact { Makes (λ c. c) result (fixed size bytes.now) }
    ensures within { IfOk result (λ c. c.1 ≤ length bytes.now) }
{
    if bytes.len() < size {
        return Err(Refused::Fault(Rule::PlainShort));
    }
    match decimal(&bytes[..size]) {
        Ok(cell) => Ok((cell, size)),
        Err(rule) => Err(Refused::Fault(rule)),
    }
}

#[tactic(auto, unfolding(crate::specs::Plain::array_len))]
fn array_len(bytes: &[u8]) -> usize
    requires { 4 ≤ length bytes.now }
    ensures value { result ≡ array_len bytes.now }
    ensures fits { result < 2 ^ 32 }
{
    Le::<4>::read(bytes, 0) as usize
}

#[inline(always)]
#[tactic(auto, unfolding(crate::specs::Plain::array))]
fn array(alloc: Global, kind: Prim, bytes: &[u8]) -> Result<(Cell, usize), Refusal>
    ensures exact { Makes (λ c. c) result (array kind bytes.now) }
    ensures within { IfOk result (λ c. c.1 ≤ length bytes.now) }
{
    if bytes.len() < 4 {
        return Err(Refused::Fault(Rule::PlainShort));
    }
    let len = array_len(bytes);
    if bytes.len() < 4 + len {
        return Err(Refused::Fault(Rule::PlainShort));
    }
    match array_held(alloc, kind, part(bytes, 4, len)) {
        Ok(cell) => Ok((cell, 4 + len)),
        Err(refusal) => Err(refusal),
    }
}

/// The cell of a leaf column of any type but BOOLEAN at the front of `bytes`, and how many bytes it takes. The rules
/// are those of `decode`.
///
/// For a caller that keeps its cells apart.
#[inline(always)]
pub fn front_cell(alloc: Global, leaf: &Leaf, bytes: &[u8]) -> Result<(Cell, usize), Refusal>
    ensures exact { Makes (λ c. c) result (front_cell leaf.now.phys leaf.now.prim bytes.now) }
    ensures within { IfOk result (λ c. c.1 ≤ length bytes.now) }
{
    match leaf.phys {
        Phys::Int32 => int32(bytes),
        Phys::Int64 => int64(bytes),
        Phys::Fixed(size) => fixed(size as usize, bytes),
        _ => array(alloc, leaf.prim, bytes),
    }
}

#[tactic(auto, unfolding(crate::specs::Plain::integer))]
fn integer_len(size: usize, bytes: &[u8]) -> Result<usize, Rule>
    ensures exact { Gives (λ n. n) result (len_of (integer size bytes.now)) }
    ensures within { IfOk result (λ n. n ≤ length bytes.now) }
{
    if bytes.len() < size {
        Err(Rule::PlainShort)
    } else {
        Ok(size)
    }
}

#[tactic(auto, unfolding(crate::specs::Plain::fixed))]
fn fixed_len(size: usize, bytes: &[u8]) -> Result<usize, Rule>
    ensures exact { Gives (λ n. n) result (len_of (fixed size bytes.now)) }
    ensures within { IfOk result (λ n. n ≤ length bytes.now) }
{
    if bytes.len() < size {
        return Err(Rule::PlainShort);
    }
    match decimal(&bytes[..size]) {
        Ok(_) => Ok(size),
        Err(rule) => Err(rule),
    }
}

#[tactic(auto, unfolding(crate::specs::Plain::text))]
fn text_len(bytes: &[u8], len: usize) -> Result<usize, Rule>
    ensures exact { Gives (λ n. n) result (len_of (with_len len (text bytes.now))) }
    ensures same { IfOk result (λ n. n ≡ len) }
{
    if is_utf8(bytes) {
        Ok(len)
    } else {
        Err(Rule::TextUtf8)
    }
}

// How many bytes the cell takes whose part is `bytes`, or the rule that the part violates.
#[inline(always)]
fn held_len(kind: Prim, bytes: &[u8], len: usize) -> Result<usize, Rule>
    ensures exact { Gives (λ n. n) result (len_of (with_len len (array_held kind bytes.now))) }
    ensures same { IfOk result (λ n. n ≡ len) }
{
    match kind {
        Prim::Text => text_len(bytes, len),
        Prim::Decimal { .. } => match decimal(bytes) {
            Ok(_) => Ok(len),
            Err(rule) => Err(rule),
        },
        _ => Ok(len),
    }
}

#[inline(always)]
#[tactic(auto, unfolding(crate::specs::Plain::array))]
fn array_front_len(kind: Prim, bytes: &[u8]) -> Result<usize, Rule>
    ensures exact { Gives (λ n. n) result (len_of (array kind bytes.now)) }
    ensures within { IfOk result (λ n. n ≤ length bytes.now) }
{
    if bytes.len() < 4 {
        return Err(Rule::PlainShort);
    }
    let len = array_len(bytes);
    if bytes.len() < 4 + len {
        return Err(Rule::PlainShort);
    }
    held_len(kind, part(bytes, 4, len), 4 + len)
}

/// How many bytes the cell of a leaf column of any type but BOOLEAN takes at the front of `bytes`, or the rule that
/// it violates. The rules are those of `front_cell`. No cell is made.
#[inline(always)]
pub fn front_len(leaf: &Leaf, bytes: &[u8]) -> Result<usize, Rule>
    ensures exact { Gives (λ n. n) result (front_len leaf.now.phys leaf.now.prim bytes.now) }
    ensures within { IfOk result (λ n. n ≤ length bytes.now) }
{
    match leaf.phys {
        Phys::Int32 => integer_len(4, bytes),
        Phys::Int64 => integer_len(8, bytes),
        Phys::Fixed(size) => fixed_len(size as usize, bytes),
        _ => array_front_len(leaf.prim, bytes),
    }
}
