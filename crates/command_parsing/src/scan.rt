//! What the words after `scan` ask for.

ghost use Rattle.query_tree.specs.Asked.{query_of};
ghost use Rattle.command_parsing.specs.Asking.{Reads};
ghost use Rattle.command_parsing.specs.Commands.{AskScan, AskScanWrongly};

use crate::fault::{BadWords, WordsFault};
use crate::query_texts::query_of_texts;
use command_words::{WordFault, scan_words};
use path_query::Query;
use std::alloc::Global;
use vs_bytes::Text;

/// The query that the words after `scan` ask for.
pub fn asked_scan(alloc: Global, words: &[Text]) -> Result<Query, WordsFault>
    ensures { Reads (λ query. AskScan words.now (query_of query)) (AskScanWrongly words.now) result }
{
    match scan_words(alloc, words) {
        Ok(given) => match query_of_texts(alloc, &given) {
            Ok(query) => Ok(query),
            Err(fault) => Err(fault),
        },
        Err(WordFault::Usage) => Err(WordsFault::Wrong(BadWords::Usage)),
        Err(WordFault::NoMemory) => Err(WordsFault::NoMemory),
    }
}
