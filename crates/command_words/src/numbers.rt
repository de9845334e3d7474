//! Numbers from the values of options.

ghost use Rattle.std.specs.Prelude.{◌≡◌, ◌≤◌, map, IfSome};
ghost use Rattle.std.specs.Option.{option_map};
ghost use Rattle.std.specs.Str.{all_ascii_digits};
ghost use Rattle.vs_bytes.specs.Outcome.{Finds};
ghost use Rattle.command_words.specs.Numbers.{HasDefault, is_number, number_within, number_or_default, number_given};
ghost use Rattle.command_words.specs.Reading.{option_of};

use crate::arguments::OptionWord;
use crate::options::value_of;

/// The greatest number of digits of a number.
const MAX_DIGITS: usize = 10;

/// The numbers that an option takes, both ends included, and the one that stands for it where it isn't given.
#[derive(Clone, Copy, Drop)]
pub struct NumberRange {
    pub least: u32,
    pub most: u32,
    pub default: u32,
}

fn are_digits(text: &[u8]) -> bool
    ensures { result ≡ all_ascii_digits text.now }
{
    for byte in text {
        if !byte.is_ascii_digit() {
            return false;
        }
    }
    true
}

/// Whether a text is 1 to 10 digits, of which the first may be 0.
fn is_number(text: &[u8]) -> bool
    ensures { result ≡ is_number text.now }
{
    !text.is_empty() && text.len() <= MAX_DIGITS && are_digits(text)
}

impl NumberRange {
    /// The number that a text is, where it is one of the range.
    fn number(self, text: &str) -> Option<u32>
        ensures found { Finds (λ number. number) result (number_within self text.now) }
        ensures fits { IfSome result (λ number. (self.least ≤ number) × (number ≤ self.most)) }
    {
        if !is_number(text.as_bytes()) {
            return None;
        }
        let Ok(number) = text.parse::<u32>() else {
            return None;
        };
        if number < self.least || self.most < number {
            return None;
        }
        Some(number)
    }

    /// The number that an option's value is, or the default where it isn't given.
    fn number_or_default(self, value: Option<&str>) -> Option<u32>
        requires { HasDefault self }
        ensures found { Finds (λ number. number) result (number_or_default self (option_map (λ v. v.now) value.entry)) }
        ensures fits { IfSome result (λ number. (self.least ≤ number) × (number ≤ self.most)) }
    {
        match value {
            Some(text) => self.number(text),
            None => Some(self.default),
        }
    }

    /// The number that the option of that name gives.
    pub fn number_given(self, name: &str, options: &[OptionWord<'_>]) -> Option<u32>
        requires { HasDefault self }
        ensures found { Finds (λ number. number) result (number_given name.now self (map option_of options.now)) }
        ensures fits { IfSome result (λ number. (self.least ≤ number) × (number ≤ self.most)) }
    {
        self.number_or_default(value_of(name, options)?)
    }
}
