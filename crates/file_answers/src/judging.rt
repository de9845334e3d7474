//! A check of a file.

ghost use Rattle.std.specs.Prelude.{◌≡◌, IfOk, string_bytes};
ghost use Rattle.command_parsing.specs.Commands.{check_of};
ghost use Rattle.command_words.specs.Check.{CheckGiven};
ghost use Rattle.shelf.specs.Storage.{Storage};
ghost use Rattle.store_file.specs.Beginning.{IsUsable};
ghost use Rattle.file_answers.specs.Beginning.{readout, IsBegun};
ghost use Rattle.file_answers.specs.Judging.{JudgesFile, PrintsLine, count_line};

use crate::beginning::begin_file;
use crate::file_error::{FileError, error_of};
use command_parsing::CheckCommand;
use outside::{Sink, SinkError, write_all};
use shelf::Shelf;
use std::alloc::{AllocError, Global};
use store_file::StoreFile;

fn line_of(alloc: Global, groups: u64, rows: u64) -> Result<String, AllocError>
    ensures { IfOk result (λ line. string_bytes line ≡ count_line groups rows) }
{
    let mut line = format!(in alloc; "ok {groups}")?;
    let last = format!(in alloc; " groups {rows} rows\n")?;
    line.push_str(last.as_str())?;
    Ok(line)
}

// Prints the line of a file that violates nothing.
fn print_line<O: Sink>(alloc: Global, groups: u64, rows: u64, out: &mut O) -> Result<(), FileError>
    ensures prints { PrintsLine (count_line groups rows) (O.seen out.old) (O.seen out.new) result }
{
    let Ok(line) = line_of(alloc, groups, rows) else {
        return Err(FileError::NoMemory);
    };
    match write_all(out, line.as_bytes()) {
        Ok(()) => Ok(()),
        Err(SinkError::Failed) => Err(FileError::WriteFault),
        Err(SinkError::NoMemory) => Err(FileError::NoMemory),
    }
}

// Judges a file that was begun, and prints its counts.
fn judge_groups<S: Shelf, O: Sink>(
    alloc: Global,
    begun: &StoreFile,
    shelf: &mut S,
    out: &mut O,
) -> Result<(), FileError>
    requires usable { IsUsable begun.now }
    ensures judges { (check : CheckGiven) (before : Storage) → IsBegun check.file check.column begun.now before (S.seen shelf.old) → JudgesFile check (readout before (O.seen out.old)) (readout (S.seen shelf.new) (O.seen out.new)) result }
{
    match begun.check(alloc, shelf) {
        Ok((groups, rows)) => print_line(alloc, groups, rows, out),
        Err(fault) => Err(error_of(fault)),
    }
}

/// Judges a file's column, and prints `ok G groups R rows` where no rule is violated.
///
/// However it ends, no file changes. At a refusal nothing is printed.
pub fn judge_file<S: Shelf, O: Sink>(
    alloc: Global,
    asked: CheckCommand,
    shelf: &mut S,
    out: &mut O,
) -> Result<(), FileError>
    ensures judges { JudgesFile (check_of asked) (readout (S.seen shelf.old) (O.seen out.old)) (readout (S.seen shelf.new) (O.seen out.new)) result }
{
    let CheckCommand { file, column } = asked;
    match begin_file(alloc, shelf, file, &column) {
        Ok(begun) => judge_groups(alloc, &begun, shelf, out),
        Err(fault) => Err(fault),
    }
}
