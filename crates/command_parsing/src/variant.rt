//! What the words after `variant` ask for.

ghost use Rattle.command_words.specs.Reading.{widths_of};
ghost use Rattle.command_parsing.specs.Asking.{Reads};
ghost use Rattle.command_parsing.specs.Commands.{AskVariant, AskVariantWrongly};

use crate::fault::{BadWords, WordsFault};
use command_words::{WidthWords, WordFault, variant_words};
use std::alloc::Global;
use vs_bytes::Text;

/// The widths that the words after `variant` ask for.
pub fn asked_variant(alloc: Global, words: &[Text]) -> Result<WidthWords, WordsFault>
    ensures { Reads (λ widths. AskVariant words.now (widths_of widths)) (AskVariantWrongly words.now) result }
{
    match variant_words(alloc, words) {
        Ok(given) => Ok(given),
        Err(WordFault::Usage) => Err(WordsFault::Wrong(BadWords::Usage)),
        Err(WordFault::NoMemory) => Err(WordsFault::NoMemory),
    }
}
