//! Powers of ten, and products with them that keep to 38 digits.

ghost use Rattle.std.specs.Prelude.{◌≡◌, ◌+◌, ◌*◌, ◌/◌, ◌%◌, ◌^◌, ◌<◌, ◌≤◌, MatchOption};
ghost use Rattle.exact_num.specs.Decimal.{max_digits, max_places};

/// `10 ^ places`.
pub(crate) fn power(places: u8) -> u128
    requires { places ≤ max_places }
    ensures value { result ≡ 10 ^ places }
    ensures some { 0 < result }
    ensures small { result ≤ 10 ^ max_digits }
{
    POWERS[usize::from(places)]
}

/// `number * 10 ^ places`, or `None` from 10 ^ 38 on.
pub(crate) fn shifted(number: u128, places: u8) -> Option<u128>
    requires { places ≤ max_places }
    ensures { MatchOption result (10 ^ max_digits ≤ number * 10 ^ places) (λ n. (n ≡ number * 10 ^ places) × (n < 10 ^ max_digits)) }
{
    let product = number.checked_mul(power(places))?;
    if product < POWERS[38] {
        Some(product)
    } else {
        None
    }
}

/// The quotient and the rest, by a short division where both numbers are short.
pub(crate) fn parts(size: u128, by: u128) -> (u128, u128)
    requires { 0 < by }
    ensures whole { result.0 ≡ size / by }
    ensures rest { result.1 ≡ size % by }
{
    match u64::try_from(by) {
        Ok(short_by) => match u64::try_from(size) {
            Ok(short) => (u128::from(short / short_by), u128::from(short % short_by)),
            Err(_) => (size / by, size % by),
        },
        Err(_) => (size / by, size % by),
    }
}

const POWERS: [u128; 39] = [
    1,
    10,
    100,
    1000,
    10000,
    100000,
    1000000,
    10000000,
    100000000,
    1000000000,
    10000000000,
    100000000000,
    1000000000000,
    10000000000000,
    100000000000000,
    1000000000000000,
    10000000000000000,
    100000000000000000,
    1000000000000000000,
    10000000000000000000,
    100000000000000000000,
    1000000000000000000000,
    10000000000000000000000,
    100000000000000000000000,
    1000000000000000000000000,
    10000000000000000000000000,
    100000000000000000000000000,
    1000000000000000000000000000,
    10000000000000000000000000000,
    100000000000000000000000000000,
    1000000000000000000000000000000,
    10000000000000000000000000000000,
    100000000000000000000000000000000,
    1000000000000000000000000000000000,
    10000000000000000000000000000000000,
    100000000000000000000000000000000000,
    1000000000000000000000000000000000000,
    10000000000000000000000000000000000000,
    100000000000000000000000000000000000000,
];
