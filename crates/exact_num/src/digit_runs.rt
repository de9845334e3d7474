//! The integers of digits.

ghost use Rattle.std.specs.Prelude.{◌≡◌, ◌^◌, ◌<◌, All, IfSome};
ghost use Rattle.exact_num.specs.Spelling.{IsDigit, digits_value};
ghost use Rattle.exact_num.specs.Decimal.{max_digits};

/// The integer of the digits, after the digits of `before`, if it has 18 digits at most.
pub(crate) fn small_value(before: u64, digits: &[u8]) -> Option<u64>
    requires { All IsDigit digits.now }
    ensures { IfSome result (λ n. n ≡ digits_value before digits.now) }
{
    let mut value = before;
    for byte in digits {
        if value >= 100_000_000_000_000_000 {
            return None;
        }
        value = value * 10 + u64::from(*byte - b'0');
    }
    Some(value)
}

/// The integer of the digits, after the digits of `before`, if it is below 10 ^ 38.
pub(crate) fn wide_value(before: u128, digits: &[u8]) -> Option<u128>
    requires all { All IsDigit digits.now }
    requires before { before < 10 ^ max_digits }
    ensures value { IfSome result (λ n. n ≡ digits_value before digits.now) }
    ensures size { IfSome result (λ n. n < 10 ^ max_digits) }
{
    let mut value = before;
    for byte in digits {
        if value >= 10_000_000_000_000_000_000_000_000_000_000_000_000 {
            return None;
        }
        value = value * 10 + u128::from(*byte - b'0');
    }
    Some(value)
}
