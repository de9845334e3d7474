//! Exact decimal numbers: read from JSON texts, compared, printed and turned into integers, with no
//! rounding anywhere.
//!
//! A `Number` is `unscaled / 10 ^ scale` with at most 38 digits and 38 places after the point. Contracts
//! see it as a `Decimal`, which has no bound, and what a text means is a `Decimal` too.
//!
//! | Module | What it holds |
//! |---|---|
//! | `number` | `Number`, in least scale, so that each value has one |
//! | `fault` | `NumFault`: why a text has no number |
//! | `reading` | `read_number`: any JSON number text |
//! | `leading_reading` | `read_leading`: the number at the front of a text |
//! | `exponent_reading`, `exponent` | the exponent, cut where it is out of reach |
//! | `digit_runs` | the integers of digits |
//! | `significand` | digits of any count, without the zeros at their end |
//! | `placing` | where the point of the digits goes |
//! | `printing` | `print` |
//! | `ordering` | `cmp`: the order of the values |
//! | `fitting` | `fits` and `whole`: numbers as integers |
//! | `power` | powers of ten |
//! | `unscaled` | `Unscaled`, `big_of`: integers as bytes, two's complement |
//! | `laws` | one value has one number, a text is spelled in one way, a printed number reads back |
#![tactic(auto)]

mod digit_runs;
mod exponent;
mod exponent_reading;
mod fault;
mod fitting;
mod laws;
mod leading_reading;
mod number;
mod ordering;
mod placing;
mod power;
mod printing;
mod reading;
mod significand;
mod unscaled;

pub use fault::NumFault;
pub use fitting::{fits, whole};
pub use laws::{
    one_number, parsing_is_complete, parsing_is_sound, printed_reads_back, reading_is_exact,
    spelled_once,
};
pub use leading_reading::read_leading;
pub use number::Number;
pub use ordering::cmp;
pub use printing::{print, text_len};
pub use reading::read_number;
pub use unscaled::{Unscaled, big_of, integers_read_back};
