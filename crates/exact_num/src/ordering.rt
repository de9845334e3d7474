//! Comparing numbers.

ghost use Rattle.std.specs.Prelude.{◌≡◌, ◌*◌, ◌^◌, ◌<◌, ◌≤◌};
ghost use Rattle.std.specs.Ordering.{nat_cmp};
ghost use Rattle.exact_num.specs.Decimal.{max_places, order};
ghost use Rattle.exact_num.specs.NumberOf.{decimal_of};

use crate::number::Number;
use crate::power::{parts, power};
use std::cmp::Ordering;

/// The order of two numbers by their values.
pub fn cmp(a: Number, b: Number) -> Ordering
    ensures { result ≡ order (decimal_of a) (decimal_of b) }
{
    if a.scale() == b.scale() {
        return a.unscaled().cmp(&b.unscaled());
    }
    match (a.is_minus(), b.is_minus()) {
        (false, false) => cmp_sizes(a.size(), a.scale(), b.size(), b.scale()),
        (true, true) => cmp_sizes(b.size(), b.scale(), a.size(), a.scale()),
        (true, false) => Ordering::Less,
        (false, true) => Ordering::Greater,
    }
}

// The order of a / 10 ^ s and b / 10 ^ t: by the whole parts, and then by what is after the point.
#[tactic(auto, using(crate::proofs::Orders::wholes_below, crate::proofs::Orders::wholes_above, crate::proofs::Orders::wholes_same))]
fn cmp_sizes(a: u128, s: u8, b: u128, t: u8) -> Ordering
    requires s { s ≤ max_places }
    requires t { t ≤ max_places }
    ensures { result ≡ nat_cmp (a * 10 ^ t) (b * 10 ^ s) }
{
    let (whole_a, rest_a) = parts(a, power(s));
    let (whole_b, rest_b) = parts(b, power(t));
    if whole_a < whole_b {
        Ordering::Less
    } else if whole_b < whole_a {
        Ordering::Greater
    } else {
        cmp_rests(rest_a, s, rest_b, t)
    }
}

#[tactic(auto, using(crate::proofs::Orders::rests_up, crate::proofs::Orders::rests_down))]
fn cmp_rests(a: u128, s: u8, b: u128, t: u8) -> Ordering
    requires s { s ≤ max_places }
    requires t { t ≤ max_places }
    requires a { a < 10 ^ s }
    requires b { b < 10 ^ t }
    ensures { result ≡ nat_cmp (a * 10 ^ t) (b * 10 ^ s) }
{
    if s <= t {
        let scaled = a * power(t - s);
        scaled.cmp(&b)
    } else {
        let scaled = b * power(s - t);
        a.cmp(&scaled)
    }
}
