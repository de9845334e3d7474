//! What the words after `query` ask for.

ghost use Rattle.command_parsing.specs.Asking.{Reads};
ghost use Rattle.command_parsing.specs.Commands.{IsFileQuery, AskQuery, AskQueryWrongly, file_query_of};
ghost use Rattle.command_parsing.specs.Queries.{IsWrongQuery};
ghost use Rattle.command_words.specs.Reading as words;

use crate::fault::{BadWords, WordsFault};
use crate::query_texts::query_of_texts;
use command_words::{QueryWords, WordFault, query_words};
use path_query::Query;
use std::alloc::Global;
use vs_bytes::Text;

/// A file, a column of it, and what is asked of the column's rows.
#[derive(Drop)]
pub struct QueryCommand {
    pub file: Text,
    pub column: Text,
    pub query: Query,
}

/// What is given, with the query of its texts.
fn query_of_words(alloc: Global, given: &QueryWords<'_>) -> Result<QueryCommand, WordsFault>
    ensures { Reads (λ query. IsFileQuery (words.query_of given.now) (file_query_of query)) (IsWrongQuery (words.query_of given.now).asked) result }
{
    let query = match query_of_texts(alloc, &given.asked) {
        Ok(query) => query,
        Err(fault) => return Err(fault),
    };
    let Ok(file) = Text::from_str(alloc, given.file) else {
        return Err(WordsFault::NoMemory);
    };
    let Ok(column) = Text::from_str(alloc, given.column) else {
        return Err(WordsFault::NoMemory);
    };
    Ok(QueryCommand {
        file,
        column,
        query,
    })
}

/// The file, the column and the query that the words after `query` ask for.
pub fn asked_query(alloc: Global, words: &[Text]) -> Result<QueryCommand, WordsFault>
    ensures { Reads (λ query. AskQuery words.now (file_query_of query)) (AskQueryWrongly words.now) result }
{
    match query_words(alloc, words) {
        Ok(given) => match query_of_words(alloc, &given) {
            Ok(query) => Ok(query),
            Err(fault) => Err(fault),
        },
        Err(WordFault::Usage) => Err(WordsFault::Wrong(BadWords::Usage)),
        Err(WordFault::NoMemory) => Err(WordsFault::NoMemory),
    }
}
