//! Digits without the zeros at their end.

ghost use Rattle.std.specs.Prelude.{◌≡◌, ◌+◌, ◌*◌, ◌%◌, ◌^◌, ◌<◌, ◌≤◌, length, All, IfSome, MatchOption};
ghost use Rattle.exact_num.specs.Decimal.{max_digits};

use crate::power::shifted;

/// The integer `digits * 10 ^ zeros`, whose digits have no zero at the end.
#[derive(Clone, Copy)]
pub(crate) struct Significand {
    pub(crate) digits: u128,
    pub(crate) zeros: u128,
    ghost size: { digits < 10 ^ max_digits },
    ghost lean: { digits % 10 ≡ 0 → digits ≡ 0 },
}

impl Significand {
    ghost use Rattle.exact_num.specs.Spelling.{IsDigit, digits_value};
    ghost use Rattle.exact_num.specs.Wide.{IsWide};

    pub(crate) const ZERO: Significand = Significand {
        digits: 0,
        zeros: 0,
    };

    /// The integer with more digits after it; `None` where that has more than 38 between its first and
    /// its last that isn't 0, which no digit after them changes.
    pub(crate) fn with_digits(self, digits: &[u8]) -> Option<Significand>
        requires all { All IsDigit digits.now }
        requires zeros { self.zeros + length digits.now < 2 ^ 66 }
        ensures value { MatchOption result (IsWide (digits_value (self.digits * 10 ^ self.zeros) digits.now)) (λ s. s.digits * 10 ^ s.zeros ≡ digits_value (self.digits * 10 ^ self.zeros) digits.now) }
        ensures zeros { IfSome result (λ s. s.zeros ≤ self.zeros + length digits.now) }
    {
        let mut now = self;
        for byte in digits {
            now = now.with_digit(*byte - b'0')?;
        }
        Some(now)
    }

    fn with_digit(self, digit: u8) -> Option<Significand>
        requires digit { digit < 10 }
        requires zeros { self.zeros < 2 ^ 66 }
        ensures value { MatchOption result (IsWide (self.digits * 10 ^ self.zeros * 10 + digit)) (λ s. s.digits * 10 ^ s.zeros ≡ self.digits * 10 ^ self.zeros * 10 + digit) }
        ensures zeros { IfSome result (λ s. s.zeros ≤ self.zeros + 1) }
    {
        if digit == 0 {
            return Some(Significand {
                digits: self.digits,
                zeros: self.zeros + 1,
            });
        }
        let digits = self.with_last(digit)?;
        Some(Significand { digits, zeros: 0 })
    }

    // The integer with a digit other than 0 after it.
    fn with_last(self, digit: u8) -> Option<u128>
        requires digit { (0 < digit) × (digit < 10) }
        requires zeros { self.zeros < 2 ^ 66 }
        ensures value { MatchOption result (IsWide (self.digits * 10 ^ self.zeros * 10 + digit)) (λ n. n ≡ self.digits * 10 ^ self.zeros * 10 + digit) }
        ensures size { IfSome result (λ n. n < 10 ^ max_digits) }
        ensures lean { IfSome result (λ n. 0 < n % 10) }
    {
        if self.digits == 0 {
            return Some(u128::from(digit));
        }
        if self.zeros >= 38 {
            return None;
        }
        let tens = shifted(self.digits, self.zeros as u8 + 1)?;
        Some(tens + u128::from(digit))
    }
}
