//! The words after `query`: `FILE [--column NAME] [--where FILTER] PATH..`.

ghost use Rattle.vs_bytes.specs.Outcome.{Finds};
ghost use Rattle.command_words.specs.Query.{query_given, query_words};
ghost use Rattle.command_words.specs.Reading.{query_of, given_by, ReadsWords};

use crate::arguments::{CommandWords, read_words};
use crate::fault::WordFault;
use crate::files::column_given;
use crate::options::are_known;
use crate::scan::{ScanWords, paths_given};
use std::alloc::Global;
use vs_bytes::Text;

/// What the words give: the name of the file, the name of the column, and the filter and the paths.
#[derive(Drop)]
pub struct QueryWords<'a> {
    pub file: &'a str,
    pub column: &'a str,
    pub asked: ScanWords<'a>,
}

/// The file, the column, the filter and the paths among the arguments.
fn given_query(given: CommandWords<'_>) -> Option<QueryWords<'_>>
    ensures { Finds query_of result (query_given (given_by given.entry)) }
{
    let CommandWords {
        options,
        mut operands,
    } = given;
    if !are_known(&["--column", "--where"], options.as_slice()) || operands.is_empty() {
        return None;
    }
    let file = operands.remove(0);
    let column = column_given(options.as_slice())?;
    let asked = paths_given(operands, options.as_slice())?;
    Some(QueryWords {
        file,
        column,
        asked,
    })
}

/// The file, the column, the filter and the paths that the words after `query` give: one path at least, and
/// 64 at most. The column is `doc` where none is given.
pub fn query_words<'a>(alloc: Global, words: &'a [Text]) -> Result<QueryWords<'a>, WordFault>
    ensures { ReadsWords query_of result (query_words words.now) }
{
    match read_words(alloc, words) {
        Ok(given) => match given_query(given) {
            Some(read) => Ok(read),
            None => Err(WordFault::Usage),
        },
        Err(fault) => Err(fault),
    }
}
