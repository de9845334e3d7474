//! Why a call ends with another status than 0, and the line that says so.

ghost use Rattle.std.specs.Prelude.{◌≡◌, IfOk, string_bytes};
ghost use Rattle.variant_store.specs.Ends.{words_error, input_error, output_error, stream_end, first_error, write_error, load_end, file_end};
ghost use Rattle.variant_store.specs.Report.{status_of, message_of, IsReported};

use crate::gatherer::OutputFault;
use crate::place::place_text;
use command_parsing::{BadWords, WordsFault};
use file_answers::FileError;
use json_documents::{DocFault, InputFault, Stop};
use outside::{Sink, SinkError, write_all};
use std::alloc::{AllocError, Global};
use store_file::Place;
use store_write::{First, WriteError};
use vs_bytes::Rule;

/// Why a call ends with another status than 0.
#[derive(Clone, Copy, PartialEq, Eq, Debug, Drop)]
pub enum CommandError {
    /// The words ask for nothing.
    BadWords(BadWords),
    /// A line that isn't blank has a fault. Lines are counted from 1.
    BadLine { line: u64, fault: DocFault },
    /// The input has more than 2^40 bytes.
    InputTooLong,
    /// The footer of the file that is written would be longer than its limit.
    FooterFull,
    /// A file violates a rule. Files are counted from 1 in the words' order.
    BadFile { file: u32, rule: Rule, place: Place },
    /// A read failed.
    ReadFault,
    /// A write failed.
    WriteFault,
    /// An allocation was refused.
    NoMemory,
    /// There is no file of the name. Files are counted from 1 in the words' order.
    Absent { file: u32 },
    /// There is a file already of the name under which one is to be written.
    Taken,
}

/// How a call ends whose words gave no command.
pub fn words_error(fault: WordsFault) -> CommandError
    ensures { result ≡ words_error fault }
{
    match fault {
        WordsFault::Wrong(bad) => CommandError::BadWords(bad),
        WordsFault::NoMemory => CommandError::NoMemory,
    }
}

/// How a call ends that stops at its input.
fn input_error(fault: InputFault) -> CommandError
    ensures { result ≡ input_error fault }
{
    match fault {
        InputFault::BadLine { line, fault } => CommandError::BadLine { line, fault },
        InputFault::InputTooLong => CommandError::InputTooLong,
        InputFault::ReadFault => CommandError::ReadFault,
        InputFault::NoMemory => CommandError::NoMemory,
    }
}

/// How a call ends that stops at its output.
fn output_error(fault: OutputFault) -> CommandError
    ensures { result ≡ output_error fault }
{
    match fault {
        OutputFault::Write(SinkError::Failed) => CommandError::WriteFault,
        OutputFault::Write(SinkError::NoMemory) | OutputFault::NoMemory => CommandError::NoMemory,
    }
}

/// How a call ends that prints something of each document.
pub fn stream_end(done: Result<(), Stop<OutputFault>>) -> Result<(), CommandError>
    ensures { result ≡ stream_end done }
{
    match done {
        Ok(()) => Ok(()),
        Err(Stop::Input(fault)) => Err(input_error(fault)),
        Err(Stop::Taker(fault)) => Err(output_error(fault)),
    }
}

/// How a call ends whose file was refused earlier.
fn first_error(first: First) -> CommandError
    ensures { result ≡ first_error first }
{
    match first {
        First::Failed => CommandError::WriteFault,
        First::FooterFull { .. } => CommandError::FooterFull,
        First::NoMemory => CommandError::NoMemory,
    }
}

/// How a call ends that stops at the file that it writes.
fn write_error(fault: WriteError) -> CommandError
    ensures { result ≡ write_error fault }
{
    match fault {
        WriteError::Taken => CommandError::Taken,
        WriteError::Failed => CommandError::WriteFault,
        WriteError::FooterFull { .. } => CommandError::FooterFull,
        WriteError::NoMemory => CommandError::NoMemory,
        WriteError::Broken(first) => first_error(first),
    }
}

/// How a call ends that writes the documents to a file.
pub fn load_end(done: Result<(), Stop<WriteError>>) -> Result<(), CommandError>
    ensures { result ≡ load_end done }
{
    match done {
        Ok(()) => Ok(()),
        Err(Stop::Input(fault)) => Err(input_error(fault)),
        Err(Stop::Taker(fault)) => Err(write_error(fault)),
    }
}

/// How a call ends that reads one file.
pub fn file_end(done: Result<(), FileError>) -> Result<(), CommandError>
    ensures { result ≡ file_end done }
{
    match done {
        Ok(()) => Ok(()),
        Err(FileError::Absent) => Err(CommandError::Absent { file: 1 }),
        Err(FileError::Violated(violation)) => Err(CommandError::BadFile {
            file: 1,
            rule: violation.rule,
            place: violation.place,
        }),
        Err(FileError::ReadFault) => Err(CommandError::ReadFault),
        Err(FileError::WriteFault) => Err(CommandError::WriteFault),
        Err(FileError::NoMemory) => Err(CommandError::NoMemory),
    }
}

/// The line for words that ask for nothing.
fn bad_words_message(alloc: Global, fault: BadWords) -> Result<String, AllocError>
    ensures { IfOk result (λ message. string_bytes message ≡ message_of (CommandError.BadWords fault)) }
{
    match fault {
        BadWords::Usage => String::from_str(alloc, "vstore: usage\n"),
        BadWords::BadSchema => String::from_str(alloc, "vstore: bad schema\n"),
        BadWords::BadFilter => String::from_str(alloc, "vstore: bad filter\n"),
        BadWords::BadOrder => String::from_str(alloc, "vstore: bad order\n"),
        BadWords::BadPath => String::from_str(alloc, "vstore: bad path\n"),
        BadWords::RepeatedPath => String::from_str(alloc, "vstore: repeated path\n"),
    }
}

/// The line for a line that has a fault.
fn bad_line_message(alloc: Global, line: u64, fault: DocFault) -> Result<String, AllocError>
    ensures { IfOk result (λ message. string_bytes message ≡ message_of (CommandError.BadLine line fault)) }
{
    let mut message = format!(in alloc; "vstore: line {line}: ")?;
    message.push_str(fault.name())?;
    message.push_str("\n")?;
    Ok(message)
}

/// The line for a file that violates a rule.
fn bad_file_message(
    alloc: Global,
    file: u32,
    rule: Rule,
    place: Place,
) -> Result<String, AllocError>
    ensures { IfOk result (λ message. string_bytes message ≡ message_of (CommandError.BadFile file rule place)) }
{
    let mut message = format!(in alloc; "vstore: file {file}: ")?;
    message.push_str(rule.name())?;
    message.push_str(place_text(alloc, place)?.as_str())?;
    message.push_str("\n")?;
    Ok(message)
}

/// The line for a file that isn't there.
fn absent_message(alloc: Global, file: u32) -> Result<String, AllocError>
    ensures { IfOk result (λ message. string_bytes message ≡ message_of (CommandError.Absent file)) }
{
    format!(in alloc; "vstore: absent file {file}\n")
}

impl CommandError {
    /// The status that the program ends with.
    pub fn status(self) -> u8
        ensures { result ≡ status_of self }
    {
        match self {
            CommandError::BadWords(_) => 2,
            CommandError::BadLine { .. } | CommandError::InputTooLong | CommandError::FooterFull =>
                3,
            CommandError::BadFile { .. } => 4,
            CommandError::ReadFault => 5,
            CommandError::WriteFault => 6,
            CommandError::NoMemory => 7,
            CommandError::Absent { .. } => 8,
            CommandError::Taken => 9,
        }
    }

    /// The line that the error output gains, with its LF.
    fn message(self, alloc: Global) -> Result<String, AllocError>
        ensures { IfOk result (λ message. string_bytes message ≡ message_of self) }
    {
        match self {
            CommandError::BadWords(fault) => bad_words_message(alloc, fault),
            CommandError::BadLine { line, fault } => bad_line_message(alloc, line, fault),
            CommandError::InputTooLong => String::from_str(alloc, "vstore: input too long\n"),
            CommandError::FooterFull => String::from_str(alloc, "vstore: footer full\n"),
            CommandError::BadFile { file, rule, place } => {
                bad_file_message(alloc, file, rule, place)
            }
            CommandError::ReadFault => String::from_str(alloc, "vstore: read fault\n"),
            CommandError::WriteFault => String::from_str(alloc, "vstore: write fault\n"),
            CommandError::NoMemory => String::from_str(alloc, "vstore: no memory\n"),
            CommandError::Absent { file } => absent_message(alloc, file),
            CommandError::Taken => String::from_str(alloc, "vstore: taken\n"),
        }
    }

    /// Writes the line, and answers the status.
    ///
    /// A fault of the error output changes no status; where there is no memory for the line, the
    /// status is 7.
    pub fn report<E: Sink>(self, alloc: Global, err: &mut E) -> u8
        ensures { IsReported self result (E.seen err.old) (E.seen err.new) }
    {
        let Ok(message) = self.message(alloc) else {
            return CommandError::NoMemory.status();
        };
        match write_all(err, message.as_bytes()) {
            Ok(()) => self.status(),
            Err(SinkError::Failed) => self.status(),
            Err(SinkError::NoMemory) => CommandError::NoMemory.status(),
        }
    }
}
