//! Escapes, after their backslash.

ghost use Rattle.std.specs.Prelude.{◌≡◌, ◌<◌, ◌^◌, true, IfSome, SomeIff};
ghost use Rattle.std.specs.Char.{digit_value};
ghost use Rattle.json_strings.specs.Meaning.{short_char, unit_of};
ghost use Rattle.json_strings.specs.Reading.{is_short, is_hex, are_hex};

/// The character of an escape of two characters, by the second.
#[tactic(auto, unfolding(crate::specs::Reading::is_short, crate::specs::Meaning::short_char))]
pub fn short_escape(byte: u8) -> Option<u8>
    ensures { SomeIff result (is_short byte ≡ true) (short_char byte) }
{
    match byte {
        b'"' => Some(b'"'),
        b'\\' => Some(b'\\'),
        b'/' => Some(b'/'),
        b'b' => Some(0x08),
        b'f' => Some(0x0c),
        b'n' => Some(b'\n'),
        b'r' => Some(b'\r'),
        b't' => Some(b'\t'),
        _ => None,
    }
}

/// The UTF-16 unit of four hexadecimal digits.
#[tactic(auto, unfolding(crate::specs::Reading::are_hex, crate::specs::Meaning::unit_of))]
pub fn unit_escape(a: u8, b: u8, c: u8, d: u8) -> Option<u32>
    ensures value { SomeIff result (are_hex a b c d ≡ true) (unit_of a b c d) }
    ensures small { IfSome result (λ unit. unit < 2 ^ 16) }
{
    let high = hex_digit(a)? * 16 + hex_digit(b)?;
    let low = hex_digit(c)? * 16 + hex_digit(d)?;
    Some(high * 256 + low)
}

fn hex_digit(byte: u8) -> Option<u32>
    ensures value { SomeIff result (is_hex byte ≡ true) (digit_value byte) }
    ensures small { IfSome result (λ digit. digit < 16) }
{
    char::from(byte).to_digit(16)
}
