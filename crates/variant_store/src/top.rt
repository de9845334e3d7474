//! The top call: words in, a status out.

ghost use Rattle.std.specs.Prelude.{◌≡◌, ℕ, List, Ok, Err};
ghost use Rattle.json_documents.specs.Input.{OfInput, IsWithinLimit};
ghost use Rattle.variant_store.specs.World.{world_of};
ghost use Rattle.variant_store.specs.Top.{Runs, Works, IsAnswer, Completes, KeepsFiles};
ghost use Rattle.command_parsing.specs.declared.fault.BadWords.{BadWords};
ghost use Rattle.variant_store.specs.Commands.{prints, AskFor};
ghost use Rattle.variant_store.specs.Stream.{Stream};
ghost use Rattle.variant_store.specs.declared.command_error.CommandError.TheVariants as error;

use crate::command::{Command, asked_command};
use crate::command_error::{CommandError, file_end, load_end, stream_end, words_error};
use crate::query_printer::QueryPrinter;
use crate::stream::stream;
use crate::variant_printer::VariantPrinter;
use document_loading::load;
use file_answers::{answer_query, judge_file};
use outside::{Sink, Source};
use shelf::Shelf;
use std::alloc::Global;
use variant_write::Widths;
use vs_bytes::Text;

/// A word of a call; the program's own name is none.
pub type Word = Text;

fn run<S: Shelf, I: Source, O: Sink>(
    alloc: Global,
    words: &[Word],
    shelf: &mut S,
    input: &mut I,
    out: &mut O,
) -> Result<(), CommandError>
    ensures runs { Runs words.now (world_of (S.seen shelf.old) (I.seen input.old) (O.seen out.old)) (world_of (S.seen shelf.new) (I.seen input.new) (O.seen out.new)) result }
    ensures bounded { OfInput (I.seen input.old).bytes (λ bytes. IsWithinLimit bytes (I.seen input.new).bytes) }
    ensures beside { (stream : Stream) → AskFor words.now (prints stream) → shelf.new ≡ shelf.old }
    ensures untouched { (bad : BadWords) → result ≡ Err (error.BadWords bad) → (shelf.new ≡ shelf.old) × (input.new ≡ input.old) × (out.new ≡ out.old) }
{
    match asked_command(alloc, words) {
        Ok(Command::Scan(query)) => {
            stream_end(stream(alloc, QueryPrinter { query: &query }, input, out))
        }
        Ok(Command::Variant(words)) => {
            let widths = Widths {
                offset: words.offset_width,
                id: words.id_width,
            };
            stream_end(stream(alloc, VariantPrinter::new(alloc, widths), input, out))
        }
        Ok(Command::Load(asked)) => load_end(load(alloc, asked, input, shelf)),
        Ok(Command::Query(asked)) => file_end(answer_query(alloc, asked, shelf, out)),
        Ok(Command::Check(asked)) => file_end(judge_file(alloc, asked, shelf, out)),
        Err(fault) => Err(words_error(fault)),
    }
}

/// Does what the words ask for, and answers the status that the program ends with.
///
/// | Words | What it does |
/// |---|---|
/// | `scan [--where FILTER] PATH..` | prints the matches of 1 to 64 paths in each document of the input on which the filter holds |
/// | `variant [--offset-width N] [--id-width N]` | prints the metadata and the value of each document of the input as a Variant, in hex; its offsets and field ids take at least N bytes each; an N is a number from 1 to 4, of 1 to 10 digits, and 1 where it isn't given |
/// | `load OUT [--schema SCHEMA] [--offset-width N] [--id-width N] [--page-bytes N] [--group-rows N]` | writes the documents of the input to a new file OUT of the shelf, a row each, in a column `doc` that is shredded by the schema |
/// | `query FILE [--column NAME] [--where FILTER] PATH..` | prints the matches of 1 to 64 paths in each row of a file's column on which the filter holds; the column is `doc` where none is named, and of its leaves those alone are read that the paths and the filter need |
/// | `check FILE [--column NAME]` | prints `ok G groups R rows` where the file opens and has the column, and no row group of the column violates a rule; statistics and other columns aren't judged |
///
/// | Status | Line on `err` | Where |
/// |---|---|---|
/// | 0 | none | the job was done: the input, or what the command reads of the file, was read to its end, and no read or write failed |
/// | 2 | `vstore: usage` | the words aren't those of a command |
/// | 2 | `vstore: bad schema` | the schema isn't in its grammar |
/// | 2 | `vstore: bad filter`, `vstore: bad order`, `vstore: bad path`, `vstore: repeated path` | the filter isn't in its grammar; a relation in it doesn't suit its literal; a path isn't in its grammar; two paths have one canonical text |
/// | 3 | `vstore: line N: FAULT` | line N is the first that has a fault ([`DocFault`]). All lines before it are answered; OUT has the row groups of them that closed |
/// | 3 | `vstore: input too long` | more than 2^40 bytes came. The same of all lines before the one that the limit falls into |
/// | 3 | `vstore: footer full` | the footer of OUT would be longer than 67,108,864 bytes with a group; OUT has the groups before it |
/// | 4 | `vstore: file 1: RULE`, and then nothing, ` group G leaf L` or ` group G row R` | the rule is the first that FILE violates in what the command reads of it, and this is where; `query` has printed the lines of the groups before, `check` nothing |
/// | 5 | `vstore: read fault` | a read failed. Of the input: all lines whose LF had come are answered, and OUT has the groups of them that closed. Of FILE: `query` has printed the lines of the groups before the one whose chunk was asked for last, `check` nothing |
/// | 6 | `vstore: write fault` | a write to `out` or to the shelf failed; what `out` gained is a prefix of the answer, and what OUT has is one of its groups or of the whole file |
/// | 7 | `vstore: no memory` | there was no memory for something; what `out` gained, and what OUT has, are such prefixes |
/// | 8 | `vstore: absent file 1` | there is no file FILE |
/// | 9 | `vstore: taken` | OUT was there; it is as before |
///
/// After a fault of the input OUT has no footer, nor a part of one. `query` and `check` read no input, and write to no
/// file.
///
/// A fault of `err` changes no status; where there is no memory for its line the status is 7.
pub fn vstore<S: Shelf, I: Source, O: Sink, E: Sink>(
    alloc: Global,
    words: &[Word],
    shelf: &mut S,
    input: &mut I,
    out: &mut O,
    err: &mut E,
) -> u8
    ensures answer { IsAnswer words.now (world_of (S.seen shelf.old) (I.seen input.old) (O.seen out.old)) (world_of (S.seen shelf.new) (I.seen input.new) (O.seen out.new)) (E.seen err.old) (E.seen err.new) result }
    ensures zero { result ≡ 0 → Works words.now (world_of (S.seen shelf.old) (I.seen input.old) (O.seen out.old)) (world_of (S.seen shelf.new) (I.seen input.new) (O.seen out.new)) (Ok tt) }
    ensures complete { Completes words.now (world_of (S.seen shelf.old) (I.seen input.old) (O.seen out.old)) (world_of (S.seen shelf.new) (I.seen input.new) (O.seen out.new)) result }
    ensures beside { (stream : Stream) → AskFor words.now (prints stream) → shelf.new ≡ shelf.old }
    ensures kept { KeepsFiles words.now (world_of (S.seen shelf.old) (I.seen input.old) (O.seen out.old)) (world_of (S.seen shelf.new) (I.seen input.new) (O.seen out.new)) }
    ensures untouched { result ≡ 2 → (shelf.new ≡ shelf.old) × (input.new ≡ input.old) × (out.new ≡ out.old) }
    ensures bounded { OfInput (I.seen input.old).bytes (λ bytes. IsWithinLimit bytes (I.seen input.new).bytes) }
{
    match run(alloc, words, shelf, input, out) {
        Ok(()) => 0,
        Err(error) => error.report(alloc, err),
    }
}
