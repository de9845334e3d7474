//! The command that words ask for.

ghost use Rattle.std.specs.Prelude.{◌≡◌};
ghost use Rattle.command_parsing.specs.Asking.{Reads};
ghost use Rattle.variant_store.specs.Commands.{AskFor, AskWrongly, command_of, named};

use command_parsing::{
    BadWords, CheckCommand, LoadCommand, QueryCommand, WidthWords, WordsFault, asked_check,
    asked_load, asked_query, asked_scan, asked_variant,
};
use path_query::Query;
use std::alloc::Global;
use vs_bytes::Text;

/// The name of a command.
#[derive(Clone, Copy, PartialEq, Eq, Debug, Drop)]
pub enum Name {
    Scan,
    Variant,
    Load,
    Query,
    Check,
}

/// What a call is asked to do.
#[derive(Drop)]
pub enum Command {
    /// To print a query's lines over the documents of the input.
    Scan(Query),
    /// To print each document of the input as a Variant, with numbers of at least these widths.
    Variant(WidthWords),
    /// To write the documents of the input to a new file.
    Load(LoadCommand),
    /// To print a query's lines over the rows of a file's column.
    Query(QueryCommand),
    /// To tell whether a file violates a rule.
    Check(CheckCommand),
}

/// The command that a word names.
fn named(word: &[u8]) -> Option<Name>
    ensures { result ≡ named word.now }
{
    if word == b"scan".as_slice() {
        Some(Name::Scan)
    } else if word == b"variant".as_slice() {
        Some(Name::Variant)
    } else if word == b"load".as_slice() {
        Some(Name::Load)
    } else if word == b"query".as_slice() {
        Some(Name::Query)
    } else if word == b"check".as_slice() {
        Some(Name::Check)
    } else {
        None
    }
}

/// The command that the words of a call ask for.
pub fn asked_command(alloc: Global, words: &[Text]) -> Result<Command, WordsFault>
    ensures { Reads (λ command. AskFor words.now (command_of command)) (AskWrongly words.now) result }
{
    let [word, others @ ..] = words else {
        return Err(WordsFault::Wrong(BadWords::Usage));
    };
    match named(word.as_bytes()) {
        Some(Name::Scan) => match asked_scan(alloc, others) {
            Ok(query) => Ok(Command::Scan(query)),
            Err(fault) => Err(fault),
        },
        Some(Name::Variant) => match asked_variant(alloc, others) {
            Ok(widths) => Ok(Command::Variant(widths)),
            Err(fault) => Err(fault),
        },
        Some(Name::Load) => match asked_load(alloc, others) {
            Ok(load) => Ok(Command::Load(load)),
            Err(fault) => Err(fault),
        },
        Some(Name::Query) => match asked_query(alloc, others) {
            Ok(query) => Ok(Command::Query(query)),
            Err(fault) => Err(fault),
        },
        Some(Name::Check) => match asked_check(alloc, others) {
            Ok(check) => Ok(Command::Check(check)),
            Err(fault) => Err(fault),
        },
        None => Err(WordsFault::Wrong(BadWords::Usage)),
    }
}
