//! One call of the program.

ghost use Rattle.std.specs.Prelude.{◌<◌, None};

use outside::{MemSink, MemSource, Sink, SinkError};
use shelf::MemShelf;
use std::alloc::Global;
use variant_store::{Word, vstore};
use vs_bytes::{NoMemory, Text};

/// What a call answered, and what its devices hold after it.
#[derive(Drop)]
pub struct Outcome {
    pub status: u8,
    pub shelf: MemShelf,
    pub source: MemSource,
    pub out: MemSink,
    pub err: MemSink,
}

/// Calls the program on these devices.
pub fn call_on(
    alloc: Global,
    words: &[Word],
    shelf: MemShelf,
    source: MemSource,
    out: MemSink,
    err: MemSink,
) -> Outcome {
    let mut outcome = Outcome {
        status: 0,
        shelf,
        source,
        out,
        err,
    };
    outcome.status = vstore(
        alloc,
        words,
        &mut outcome.shelf,
        &mut outcome.source,
        &mut outcome.out,
        &mut outcome.err,
    );
    outcome
}

/// Calls the program where there are no files.
pub fn call(
    alloc: Global,
    words: &[Word],
    source: MemSource,
    out: MemSink,
    err: MemSink,
) -> Outcome {
    let shelf = MemShelf::new(alloc, Vec::new(alloc));
    call_on(alloc, words, shelf, source, out, err)
}

// A sink that has no memory for what is written to it.
#[derive(Drop)]
struct FullSink;

impl Sink for FullSink {
    ghost seen = { λ s. record { bytes = None; faults = 0 } };

    fn write(&mut self, _bytes: &[u8]) -> Result<usize, SinkError> {
        Err(SinkError::NoMemory)
    }
}

/// Calls the program on a shelf, with an output that has no memory: the status, and what the error output holds.
pub fn call_full_on(
    alloc: Global,
    words: &[Word],
    shelf: &mut MemShelf,
    input: &[u8],
) -> Result<(u8, MemSink), NoMemory> {
    let mut source = MemSource::new(Vec::from_slice(alloc, input)?, 64, Vec::new(alloc));
    let mut out = FullSink;
    let mut err = MemSink::new(alloc, Vec::new(alloc));
    let status = vstore(alloc, words, shelf, &mut source, &mut out, &mut err);
    Ok((status, err))
}

/// Calls the program where there are no files, with an output that has no memory.
pub fn call_full(alloc: Global, words: &[Word], input: &[u8]) -> Result<(u8, MemSink), NoMemory> {
    let mut shelf = MemShelf::new(alloc, Vec::new(alloc));
    call_full_on(alloc, words, &mut shelf, input)
}

/// Calls the program, its input in pieces of at most so many bytes.
pub fn run(alloc: Global, words: &[Word], input: &[u8], piece: usize) -> Result<Outcome, NoMemory>
    requires { 0 < piece }
{
    let source = MemSource::new(Vec::from_slice(alloc, input)?, piece, Vec::new(alloc));
    let out = MemSink::new(alloc, Vec::new(alloc));
    let err = MemSink::new(alloc, Vec::new(alloc));
    Ok(call(alloc, words, source, out, err))
}

/// The words of a call.
pub fn words_of(alloc: Global, texts: &[&str]) -> Result<Vec<Word>, NoMemory> {
    let mut words = Vec::new(alloc);
    for text in texts {
        words.push(Text::from_str(alloc, text)?)?;
    }
    Ok(words)
}

/// So many copies of a text, with another one between two of them.
pub fn repeated(
    alloc: Global,
    text: &str,
    between: &str,
    count: usize,
) -> Result<String, NoMemory> {
    let mut all = String::new(alloc);
    for copy in 0..count {
        if copy > 0 {
            all.push_str(between)?;
        }
        all.push_str(text)?;
    }
    Ok(all)
}
