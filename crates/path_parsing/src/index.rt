//! The index of an array's element: 0, or digits of which the first isn't 0.

ghost use Rattle.std.specs.Prelude.{◌≡◌, ◌≤◌, length, All};
ghost use Rattle.exact_num.specs.Spelling.{digits_value};
ghost use Rattle.vs_bytes.specs.Outcome.{Reads};
ghost use Rattle.byte_parsing.specs.Parse.{read_as};
ghost use Rattle.byte_parsing.specs.Words.{IsDigit};
ghost use Rattle.path_parsing.specs.Grammar.{step_of};
ghost use Rattle.path_parsing.specs.Limits.{most_digits};
ghost use Rattle.path_parsing.specs.Reading.{is_index, index_at};

use byte_parsing::{is_whole, split_digits};
use query_tree::Step;
use vs_bytes::{Absent, Refused};

// The most digits of an index, so that it fits into 32 bits.
const MAX_DIGITS: usize = 9;

// Whether digits are an index.
fn is_index(digits: &[u8]) -> bool
    ensures { result ≡ is_index digits.now }
{
    is_whole(digits) && digits.len() <= MAX_DIGITS
}

// The number that digits stand for.
fn index_of(digits: &[u8]) -> u32
    requires all { All IsDigit digits.now }
    requires few { length digits.now ≤ most_digits }
    ensures { result ≡ digits_value 0 digits.now }
{
    let mut index = 0;
    for byte in digits {
        index = index * 10 + u32::from(*byte - b'0');
    }
    index
}

/// Reads an index from the front of `text`, and gives the bytes after it.
pub(crate) fn read_index(text: &[u8]) -> Result<(Step, &[u8]), Refused<Absent>>
    ensures { Reads (λ x. (x.0, x.1.now)) result (read_as step_of (index_at text.now)) }
{
    let (digits, rest) = split_digits(text);
    if !is_index(digits) {
        return Err(Refused::Fault(Absent));
    }
    Ok((Step::Index(index_of(digits)), rest))
}
