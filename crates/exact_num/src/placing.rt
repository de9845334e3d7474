//! Numbers from their digits and a power of ten.

ghost use Rattle.std.specs.Prelude.{◌≡◌, ◌*◌, ◌%◌, ◌^◌, ◌<◌, option_map};
ghost use Rattle.exact_num.specs.Decimal.{max_digits, admitted, numbered};
ghost use Rattle.exact_num.specs.NumberOf.{decimal_of};

use crate::number::Number;
use crate::power::shifted;

/// The number `digits * 10 ^ up / 10 ^ down` or its negative; `None` where it isn't admitted.
pub(crate) fn placed(minus: bool, digits: u128, up: u128, down: u128) -> Option<Number>
    requires size { digits < 10 ^ max_digits }
    requires lean { 0 < digits % 10 }
    ensures { option_map decimal_of result ≡ numbered minus (digits * 10 ^ up) down }
{
    if up >= down {
        placed_up(minus, digits, up - down)
    } else {
        placed_down(minus, digits, down - up)
    }
}

fn placed_up(minus: bool, digits: u128, by: u128) -> Option<Number>
    requires size { digits < 10 ^ max_digits }
    requires some { 0 < digits }
    ensures { option_map decimal_of result ≡ admitted minus (digits * 10 ^ by) 0 }
{
    if by > 38 {
        return None;
    }
    match shifted(digits, by as u8) {
        Some(size) => Some(Number::of_size(minus, size, 0)),
        None => None,
    }
}

fn placed_down(minus: bool, digits: u128, by: u128) -> Option<Number>
    requires size { digits < 10 ^ max_digits }
    requires lean { 0 < digits % 10 }
    ensures { option_map decimal_of result ≡ admitted minus digits by }
{
    if by > 38 {
        return None;
    }
    Some(Number::of_size(minus, digits, by as u8))
}
