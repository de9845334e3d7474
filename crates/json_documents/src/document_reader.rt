//! The documents of an input, read one by one.
//!
//! Each line that isn't blank is a document, or has a fault, and then it is the last that is read.

ghost use Rattle.std.specs.Prelude.{List, ℕ, IfOk, ◌≡◌};
ghost use Rattle.json_tree.specs.Json.{Json};
ghost use Rattle.json_lines.specs.Next.{State};
ghost use Rattle.json_documents.specs.Input.{Counts, IsWithinLimit};
ghost use Rattle.json_documents.specs.Call.{Call};
ghost use Rattle.json_documents.specs.Given.{at_start, IsGoing, Given, Gives, GoesOn, ReadsLine};

use crate::faults::InputFault;
use exact_json::{DocFault, read_line};
use json_lines::{LineFault, Lines, Next};
use json_tree::Tree;
use outside::Source;
use std::alloc::Global;
use std::marker::Model;
use vs_bytes::NoMemory;

/// The greatest number of bytes of an input.
const INPUT_LIMIT: u64 = 1 << 40;

/// Gives the documents of one input, of which at most 2^40 bytes count.
#[derive(Drop)]
pub struct Documents {
    alloc: Global,
    lines: Lines,
}

impl Model for Documents {
    ghost use Rattle.json_lines.specs.Next.{State};

    ghost Value = { State };

    ghost view = { λ d. d.lines };
}

impl Documents {
    /// An input of which nothing was read.
    pub fn new(alloc: Global) -> Result<Documents, NoMemory>
        ensures { IfOk result (λ documents. documents ≡ at_start) }
    {
        Ok(Documents {
            alloc,
            lines: Lines::new(alloc, INPUT_LIMIT)?,
        })
    }

    /// The next document, or none at the end of the input.
    ///
    /// After an `Err` no more is to be read. The source isn't read again once it has ended, and at
    /// most one byte is taken of it that no longer counts.
    pub fn next<S: Source>(&mut self, source: &mut S) -> Result<Option<Tree>, InputFault>
        requires going { IsGoing self.old }
        ensures gives { (input : List ℕ) (documents : List Json) → Given input (S.seen source.old).bytes self.old documents → Gives input (S.seen source.new).bytes self.new documents result }
        ensures bounded { (input : List ℕ) (documents : List Json) → Given input (S.seen source.old).bytes self.old documents → IsWithinLimit input (S.seen source.new).bytes }
        ensures goes_on { GoesOn self.old self.new result }
        ensures counts { Counts (S.seen source.old) (S.seen source.new) result }
    {
        next_of(self.alloc, &mut self.lines, source)
    }
}

fn next_of<S: Source>(
    alloc: Global,
    lines: &mut Lines,
    source: &mut S,
) -> Result<Option<Tree>, InputFault>
    requires going { IsGoing lines.old }
    ensures gives { (input : List ℕ) (documents : List Json) → Given input (S.seen source.old).bytes lines.old documents → Gives input (S.seen source.new).bytes lines.new documents result }
    ensures bounded { (input : List ℕ) (documents : List Json) → Given input (S.seen source.old).bytes lines.old documents → IsWithinLimit input (S.seen source.new).bytes }
    ensures goes_on { GoesOn lines.old lines.new result }
    ensures counts { Counts (S.seen source.old) (S.seen source.new) result }
{
    match next_line(lines, source) {
        Ok(Next::Line { number, bytes }) => match read_document(alloc, number, bytes.as_slice()) {
            Ok(tree) => Ok(Some(tree)),
            Err(fault) => Err(fault),
        },
        Ok(Next::TooLong { number }) => Err(InputFault::BadLine {
            line: number,
            fault: DocFault::LineTooLong,
        }),
        Ok(Next::End) => Ok(None),
        Err(LineFault::InputTooLong) => Err(InputFault::InputTooLong),
        Err(LineFault::ReadFault) => Err(InputFault::ReadFault),
        Err(LineFault::NoMemory) => Err(InputFault::NoMemory),
    }
}

// The next line, with all that is known of the call.
fn next_line<S: Source>(lines: &mut Lines, source: &mut S) -> Result<Next, LineFault>
    ensures call { Call lines.old lines.new (S.seen source.old) (S.seen source.new) result }
    ensures bounded { (input : List ℕ) (documents : List Json) → Given input (S.seen source.old).bytes lines.old documents → IsWithinLimit input (S.seen source.new).bytes }
{
    lines.next(source)
}

// The document in line `line`, or the line's first fault.
#[tactic(auto, using(crate::proofs::InputValues::input_value))]
fn read_document(alloc: Global, line: u64, bytes: &[u8]) -> Result<Tree, InputFault>
    ensures { ReadsLine line bytes.now result }
{
    match read_line(alloc, bytes) {
        Ok(tree) => Ok(tree),
        Err(DocFault::NoMemory) => Err(InputFault::NoMemory),
        Err(fault) => Err(InputFault::BadLine { line, fault }),
    }
}
