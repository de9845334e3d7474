//! The words after `load`:
//! `OUT [--schema TEXT] [--offset-width N] [--id-width N] [--page-bytes N] [--group-rows N]`.

ghost use Rattle.std.specs.Prelude.{map};
ghost use Rattle.vs_bytes.specs.Outcome.{Finds};
ghost use Rattle.command_words.specs.Load.{writing_given, load_given, load_words};
ghost use Rattle.command_words.specs.Reading.{option_of, writing_of, load_of, given_by, ReadsWords};

use crate::arguments::{CommandWords, OptionWord, read_words};
use crate::fault::WordFault;
use crate::files::{only_file, or_text};
use crate::numbers::NumberRange;
use crate::options::{are_known, value_of};
use crate::settings::WritingWords;
use crate::widths::widths_given;
use std::alloc::Global;
use vs_bytes::Text;

/// The limits of a page that may be given, in bytes.
const PAGE_BYTES: NumberRange = NumberRange {
    least: 1_024,
    most: 16_777_216,
    default: 1_048_576,
};

/// The limits of a row group that may be given, in rows.
const GROUP_ROWS: NumberRange = NumberRange {
    least: 1,
    most: 100_000,
    default: 10_000,
};

/// What the words give: the name of the file that is written, and how it is written.
#[derive(Clone, Copy, Drop)]
pub struct LoadWords<'a> {
    pub out: &'a str,
    pub writing: WritingWords<'a>,
}

/// How a file is written, by the options.
fn writing_given<'a>(options: &[OptionWord<'a>]) -> Option<WritingWords<'a>>
    ensures { Finds writing_of result (writing_given (map option_of options.now)) }
{
    let schema = value_of("--schema", options)?;
    let widths = widths_given(options)?;
    let page_bytes = PAGE_BYTES.number_given("--page-bytes", options)?;
    let group_rows = GROUP_ROWS.number_given("--group-rows", options)?;
    Some(WritingWords {
        schema: or_text(schema, "variant"),
        widths,
        page_bytes,
        group_rows,
    })
}

/// The file that is written and how it is written, among the arguments.
fn given_load<'a>(given: &CommandWords<'a>) -> Option<LoadWords<'a>>
    ensures { Finds load_of result (load_given (given_by given.now)) }
{
    let options = given.options.as_slice();
    if !are_known(
        &[
            "--schema",
            "--offset-width",
            "--id-width",
            "--page-bytes",
            "--group-rows",
        ],
        options,
    ) {
        return None;
    }
    let out = only_file(given.operands.as_slice())?;
    let writing = writing_given(options)?;
    Some(LoadWords { out, writing })
}

/// The file that the words after `load` name, and how it is written: by the schema `variant`, widths of 1,
/// pages of 1,048,576 bytes and row groups of 10,000 rows, each where nothing else is given.
pub fn load_words<'a>(alloc: Global, words: &'a [Text]) -> Result<LoadWords<'a>, WordFault>
    ensures { ReadsWords load_of result (load_words words.now) }
{
    match read_words(alloc, words) {
        Ok(given) => match given_load(&given) {
            Some(read) => Ok(read),
            None => Err(WordFault::Usage),
        },
        Err(fault) => Err(fault),
    }
}
