//! The number type.

ghost use Rattle.std.specs.Prelude.{◌≡◌, ℕ, ◌*◌, ◌%◌, ◌^◌, ◌<◌, ◌≤◌, pos, int_lt, unsigned_abs};
ghost use Rattle.exact_num.specs.Decimal.{max_digits, max_places, IsSame, least, shortened, signed};

/// An exact decimal: `unscaled / 10 ^ scale`, of 38 digits and 38 places at most, in least scale: after
/// the point there is no zero at the end. So each value has one `Number`; there is no negative 0.
#[derive(Clone, Copy, PartialEq, Eq, Debug, Drop)]
pub struct Number {
    unscaled: i128,
    // A whole word: a byte with its padding is slow to copy.
    scale: u64,
    ghost size: { unsigned_abs unscaled < 10 ^ max_digits },
    ghost places: { scale ≤ max_places },
    ghost least: { unsigned_abs unscaled % 10 ≡ 0 → scale ≡ 0 },
}

impl Number {
    ghost use Rattle.exact_num.specs.NumberOf.{decimal_of};

    /// The number 0.
    pub(crate) const ZERO: Number = Number {
        unscaled: 0,
        scale: 0,
    };

    /// The number `unscaled / 10 ^ scale`.
    pub fn of(unscaled: i128, scale: u8) -> Number
        requires size { unsigned_abs unscaled < 10 ^ max_digits }
        requires places { scale ≤ max_places }
        ensures exact { decimal_of result ≡ least (int_lt unscaled (pos 0)) (unsigned_abs unscaled) scale }
        ensures same { IsSame (decimal_of result) (record { unscaled = unscaled; scale = scale }) }
    {
        Number::of_size(unscaled < 0, unscaled.unsigned_abs(), scale)
    }

    /// The number `size / 10 ^ places`, or its negative.
    pub(crate) fn of_size(minus: bool, size: u128, places: u8) -> Number
        requires size { size < 10 ^ max_digits }
        requires places { places ≤ max_places }
        ensures { decimal_of result ≡ least minus size places }
    {
        let (size, scale) = trimmed(size, places);
        Number {
            unscaled: with_sign(minus, size),
            scale: u64::from(scale),
        }
    }

    /// The integer that the number has without its point.
    pub fn unscaled(self) -> i128
        ensures { result ≡ (decimal_of self).unscaled }
    {
        self.unscaled
    }

    /// The integer without its sign.
    pub(crate) fn size(self) -> u128
        ensures value { result ≡ unsigned_abs (decimal_of self).unscaled }
        ensures small { result < 10 ^ max_digits }
    {
        self.unscaled.unsigned_abs()
    }

    /// Whether the number is below 0.
    pub(crate) fn is_minus(self) -> bool
        ensures { result ≡ int_lt (decimal_of self).unscaled (pos 0) }
    {
        self.unscaled < 0
    }

    /// How many digits it has after the point.
    pub fn scale(self) -> u8
        ensures value { result ≡ (decimal_of self).scale }
        ensures small { result ≤ max_places }
    {
        self.scale as u8
    }
}

// The number without the zeros at its end, and the places that are left.
fn trimmed(size: u128, places: u8) -> (u128, u8)
    ensures { (result.0, result.1) ≡ shortened size places }
{
    match u64::try_from(size) {
        Ok(small) => {
            let (left, scale) = trimmed_small(small, places);
            (u128::from(left), scale)
        }
        Err(_) => trimmed_wide(size, places),
    }
}

#[tactic(auto, using(crate::proofs::Shortening::shortened_ten, crate::proofs::Shortening::shortened_lean))]
fn trimmed_small(size: u64, places: u8) -> (u64, u8)
    ensures { (result.0, result.1) ≡ shortened size places }
{
    let mut left = size;
    let mut scale = places;
    while scale > 0 && left % 10 == 0 {
        left /= 10;
        scale -= 1;
    }
    (left, scale)
}

#[tactic(auto, using(crate::proofs::Shortening::shortened_ten, crate::proofs::Shortening::shortened_lean))]
fn trimmed_wide(size: u128, places: u8) -> (u128, u8)
    ensures { (result.0, result.1) ≡ shortened size places }
{
    let mut left = size;
    let mut scale = places;
    while scale > 0 && left % 10 == 0 {
        left /= 10;
        scale -= 1;
    }
    (left, scale)
}

/// The integer of a sign and a size.
#[tactic(auto, using(crate::proofs::Signs::signed_abs))]
pub(crate) fn with_sign(minus: bool, size: u128) -> i128
    requires { size < 10 ^ max_digits }
    ensures value { result ≡ signed minus size }
    ensures size { unsigned_abs result ≡ size }
{
    let number = size as i128;
    if minus { -number } else { number }
}
