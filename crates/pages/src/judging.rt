//! Values that are judged, and not made.

ghost use Rattle.std.specs.Prelude.{◌≡◌, ◌<◌, ◌≤◌, true, is_ok, Ok, Err, IfOk, IfErr};
ghost use Rattle.plain_values.specs.Plain.{front_cell, integer, cells};

use plain_values::front_len;
use vs_bytes::{Leaf, Phys, Rule, rest};

// Judges so many values, and makes none. It is put in line where the type is known, so that each type has a loop of its
// own.
#[inline(always)]
fn judge_in_turn(leaf: &Leaf, count: usize, bytes: &[u8]) -> Result<(), Rule>
    ensures ok { IfOk result (λ done. is_ok (cells (front_cell leaf.now.phys leaf.now.prim) count bytes.now) ≡ true) }
    ensures err { IfErr result (λ rule. cells (front_cell leaf.now.phys leaf.now.prim) count bytes.now ≡ Err rule) }
{
    let mut left = bytes;
    for _i in 0..count {
        match front_len(leaf, left) {
            Ok(used) => left = rest(left, used),
            Err(rule) => return Err(rule),
        }
    }
    Ok(())
}

// Judges so many integers of this size: their bytes are there, or end early.
#[tactic(auto, using(crate::proofs::JudgedIntegers::all_there, crate::proofs::JudgedIntegers::some_absent))]
fn judge_integers(size: usize, count: usize, bytes: &[u8]) -> Result<(), Rule>
    requires { 1 ≤ size }
    ensures ok { IfOk result (λ done. is_ok (cells (integer size) count bytes.now) ≡ true) }
    ensures err { IfErr result (λ rule. cells (integer size) count bytes.now ≡ Err rule) }
{
    if count <= bytes.len() / size {
        Ok(())
    } else {
        Err(Rule::PlainShort)
    }
}

/// Judges so many values at the front of `bytes`, and makes none: answers the first rule that they violate.
#[inline(never)]
pub(crate) fn judge(leaf: &Leaf, count: usize, bytes: &[u8]) -> Result<(), Rule>
    ensures ok { IfOk result (λ done. is_ok (cells (front_cell leaf.now.phys leaf.now.prim) count bytes.now) ≡ true) }
    ensures err { IfErr result (λ rule. cells (front_cell leaf.now.phys leaf.now.prim) count bytes.now ≡ Err rule) }
{
    match leaf.phys {
        Phys::Int32 => judge_integers(4, count, bytes),
        Phys::Int64 => judge_integers(8, count, bytes),
        Phys::ByteArray => judge_in_turn(&leaf.of_type(Phys::ByteArray), count, bytes),
        _ => judge_in_turn(leaf, count, bytes),
    }
}
