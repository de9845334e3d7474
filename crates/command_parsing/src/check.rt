//! What the words after `check` ask for.

ghost use Rattle.command_parsing.specs.Asking.{Reads};
ghost use Rattle.command_parsing.specs.Commands.{AskCheck, AskCheckWrongly, check_of};

use crate::fault::{BadWords, WordsFault};
use command_words::{WordFault, check_words};
use std::alloc::Global;
use vs_bytes::Text;

/// A file and a column of it.
#[derive(Drop)]
pub struct CheckCommand {
    pub file: Text,
    pub column: Text,
}

/// The file and the column that the words after `check` ask for.
pub fn asked_check(alloc: Global, words: &[Text]) -> Result<CheckCommand, WordsFault>
    ensures { Reads (λ check. AskCheck words.now (check_of check)) (AskCheckWrongly words.now) result }
{
    let given = match check_words(alloc, words) {
        Ok(given) => given,
        Err(WordFault::Usage) => return Err(WordsFault::Wrong(BadWords::Usage)),
        Err(WordFault::NoMemory) => return Err(WordsFault::NoMemory),
    };
    let Ok(file) = Text::from_str(alloc, given.file) else {
        return Err(WordsFault::NoMemory);
    };
    let Ok(column) = Text::from_str(alloc, given.column) else {
        return Err(WordsFault::NoMemory);
    };
    Ok(CheckCommand { file, column })
}
