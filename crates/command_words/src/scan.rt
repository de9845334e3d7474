//! The words after `scan`: `[--where FILTER] PATH..`.

ghost use Rattle.std.specs.Prelude.{map};
ghost use Rattle.vs_bytes.specs.Outcome.{Finds};
ghost use Rattle.command_words.specs.Reading.{option_of, texts_of, given_by, ReadsWords};
ghost use Rattle.command_words.specs.Scan.{paths_given, scan_given, scan_words};

use crate::arguments::{CommandWords, OptionWord, read_words};
use crate::fault::WordFault;
use crate::options::{are_known, value_of};
use std::alloc::Global;
use vs_bytes::Text;

/// The greatest number of paths of a query.
const MAX_PATHS: usize = 64;

/// The text of the filter, if there is one, and the texts of the paths in order.
#[derive(Drop)]
pub struct ScanWords<'a> {
    pub filter: Option<&'a str>,
    pub paths: Vec<&'a str>,
}

/// The paths, and the filter that options give.
pub fn paths_given<'a>(paths: Vec<&'a str>, options: &[OptionWord<'a>]) -> Option<ScanWords<'a>>
    ensures { Finds texts_of result (paths_given (map (λ path. path.now) paths.entry.items) (map option_of options.now)) }
{
    if paths.is_empty() || paths.len() > MAX_PATHS {
        return None;
    }
    let filter = value_of("--where", options)?;
    Some(ScanWords { filter, paths })
}

/// The filter and the paths among the arguments.
fn given_scan(given: CommandWords<'_>) -> Option<ScanWords<'_>>
    ensures { Finds texts_of result (scan_given (given_by given.entry)) }
{
    let CommandWords { options, operands } = given;
    if !are_known(&["--where"], options.as_slice()) {
        return None;
    }
    paths_given(operands, options.as_slice())
}

/// The filter and the paths that the words after `scan` give: one path at least, and 64 at most.
pub fn scan_words<'a>(alloc: Global, words: &'a [Text]) -> Result<ScanWords<'a>, WordFault>
    ensures { ReadsWords texts_of result (scan_words words.now) }
{
    match read_words(alloc, words) {
        Ok(given) => match given_scan(given) {
            Some(read) => Ok(read),
            None => Err(WordFault::Usage),
        },
        Err(fault) => Err(fault),
    }
}
