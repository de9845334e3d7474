//! The words after `check`: `FILE [--column NAME]`.

ghost use Rattle.vs_bytes.specs.Outcome.{Finds};
ghost use Rattle.command_words.specs.Check.{check_given, check_words};
ghost use Rattle.command_words.specs.Reading.{check_of, given_by, ReadsWords};

use crate::arguments::{CommandWords, read_words};
use crate::fault::WordFault;
use crate::files::{column_given, only_file};
use crate::options::are_known;
use std::alloc::Global;
use vs_bytes::Text;

/// What the words give: the name of the file, and the name of the column.
#[derive(Clone, Copy, Drop)]
pub struct CheckWords<'a> {
    pub file: &'a str,
    pub column: &'a str,
}

/// The file and the column among the arguments.
fn given_check<'a>(given: &CommandWords<'a>) -> Option<CheckWords<'a>>
    ensures { Finds check_of result (check_given (given_by given.now)) }
{
    let options = given.options.as_slice();
    if !are_known(&["--column"], options) {
        return None;
    }
    let file = only_file(given.operands.as_slice())?;
    let column = column_given(options)?;
    Some(CheckWords { file, column })
}

/// The file and the column that the words after `check` give; the column is `doc` where none is given.
pub fn check_words<'a>(alloc: Global, words: &'a [Text]) -> Result<CheckWords<'a>, WordFault>
    ensures { ReadsWords check_of result (check_words words.now) }
{
    match read_words(alloc, words) {
        Ok(given) => match given_check(&given) {
            Some(read) => Ok(read),
            None => Err(WordFault::Usage),
        },
        Err(fault) => Err(fault),
    }
}
