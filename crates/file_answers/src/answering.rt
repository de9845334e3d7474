//! A query over the rows of a file.

ghost use Rattle.std.specs.Prelude.{◌≡◌};
ghost use Rattle.command_parsing.specs.Commands.{file_query_of};
ghost use Rattle.file_answers.specs.Answering.{AnswersQuery, query_end};
ghost use Rattle.file_answers.specs.Beginning.{readout};

use crate::beginning::begin_file;
use crate::file_error::{FileError, error_of};
use command_parsing::QueryCommand;
use outside::Sink;
use shelf::Shelf;
use std::alloc::Global;
use store_file::QueryFault;

fn query_end(done: Result<(), QueryFault>) -> Result<(), FileError>
    ensures { result ≡ query_end done }
{
    match done {
        Ok(()) => Ok(()),
        Err(fault) => Err(error_of(fault)),
    }
}

/// Prints the lines of a query over the rows of a file's column, group by group.
///
/// Of the column the leaves alone are read that the query needs. However it ends, no file changes. Where what is read of a
/// group violates a rule, or a read in it fails, the lines of the groups before it are printed, and none of its own.
pub fn answer_query<S: Shelf, O: Sink>(
    alloc: Global,
    asked: QueryCommand,
    shelf: &mut S,
    out: &mut O,
) -> Result<(), FileError>
    ensures answers { AnswersQuery (file_query_of asked) (readout (S.seen shelf.old) (O.seen out.old)) (readout (S.seen shelf.new) (O.seen out.new)) result }
{
    let QueryCommand {
        file,
        column,
        query,
    } = asked;
    match begin_file(alloc, shelf, file, &column) {
        Ok(begun) => query_end(begun.query(alloc, shelf, &query, out)),
        Err(fault) => Err(fault),
    }
}
