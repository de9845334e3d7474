//! Numbers as integers.

ghost use Rattle.std.specs.Prelude.{◌≡◌, ◌≤◌, ℤ, MatchOption, FitsSigned};
ghost use Rattle.exact_num.specs.Decimal.{max_digits, IsSame};
ghost use Rattle.exact_num.specs.Fitting.{IsOver};
ghost use Rattle.exact_num.specs.NumberOf.{decimal_of};
ghost use mir.Syntax.{w64};

use crate::number::{Number, with_sign};
use crate::power::{power, shifted};

/// The integer that is the number times `10 ^ scale`, if there is one of at most `precision` digits.
/// Nothing is rounded.
pub fn fits(number: Number, precision: u8, scale: u8) -> Option<i128>
    requires some { 1 ≤ precision }
    requires precision { precision ≤ max_digits }
    requires scale { scale ≤ precision }
    ensures { MatchOption result ((u : ℤ) → IsOver precision scale (decimal_of number) u → ⊥) (IsOver precision scale (decimal_of number)) }
{
    if scale < number.scale() {
        return None;
    }
    match shifted(number.size(), scale - number.scale()) {
        Some(size) if size < power(precision) => Some(with_sign(number.is_minus(), size)),
        Some(_) => None,
        None => None,
    }
}

/// The number as an integer of 64 bits, if it is one.
pub fn whole(number: Number) -> Option<i64>
    ensures { MatchOption result ((n : ℤ) → FitsSigned w64 n → IsSame (record { unscaled = n; scale = 0 }) (decimal_of number) → ⊥) (λ n. IsSame (record { unscaled = n; scale = 0 }) (decimal_of number)) }
{
    if number.scale() != 0 {
        return None;
    }
    i64::try_from(number.unscaled()).ok()
}
