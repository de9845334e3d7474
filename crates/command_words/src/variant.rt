//! The words after `variant`: `[--offset-width N] [--id-width N]`.

ghost use Rattle.vs_bytes.specs.Outcome.{Finds};
ghost use Rattle.command_words.specs.Reading.{widths_of, given_by, ReadsWords};
ghost use Rattle.command_words.specs.Variant.{variant_given, variant_words};

use crate::arguments::{CommandWords, read_words};
use crate::fault::WordFault;
use crate::options::are_known;
use crate::settings::WidthWords;
use crate::widths::widths_given;
use std::alloc::Global;
use vs_bytes::Text;

/// The widths among the arguments.
fn given_variant(given: &CommandWords<'_>) -> Option<WidthWords>
    ensures { Finds widths_of result (variant_given (given_by given.now)) }
{
    let options = given.options.as_slice();
    if !are_known(&["--offset-width", "--id-width"], options) || !given.operands.is_empty() {
        return None;
    }
    widths_given(options)
}

/// The widths that the words after `variant` give, and 1 for each that isn't given.
pub fn variant_words(alloc: Global, words: &[Text]) -> Result<WidthWords, WordFault>
    ensures { ReadsWords widths_of result (variant_words words.now) }
{
    match read_words(alloc, words) {
        Ok(given) => match given_variant(&given) {
            Some(read) => Ok(read),
            None => Err(WordFault::Usage),
        },
        Err(fault) => Err(fault),
    }
}
