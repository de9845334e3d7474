//! Widths of offsets and of field ids, in bytes, from the values of options.

ghost use Rattle.std.specs.Prelude.{map};
ghost use Rattle.vs_bytes.specs.Outcome.{Finds};
ghost use Rattle.command_words.specs.Reading.{option_of, widths_of};
ghost use Rattle.command_words.specs.Widths.{widths_given};

use crate::arguments::OptionWord;
use crate::numbers::NumberRange;
use crate::settings::WidthWords;

/// The widths that may be given, in bytes.
const WIDTHS: NumberRange = NumberRange {
    least: 1,
    most: 4,
    default: 1,
};

/// The widths that options give, and 1 for each that isn't given.
pub fn widths_given(options: &[OptionWord<'_>]) -> Option<WidthWords>
    ensures { Finds widths_of result (widths_given (map option_of options.now)) }
{
    let offset_width = WIDTHS.number_given("--offset-width", options)?;
    let id_width = WIDTHS.number_given("--id-width", options)?;
    Some(WidthWords {
        offset_width: offset_width as u8,
        id_width: id_width as u8,
    })
}
