//! Commands that print something of each document of their input.

ghost use Rattle.json_documents.specs.Input.{OfInput, IsWithinLimit};
ghost use Rattle.variant_store.specs.World.{pipe_of};
ghost use Rattle.variant_store.specs.Streaming.{Streams};

use crate::gatherer::{Gatherer, OutputFault};
use crate::printer::Printer;
use json_documents::{Stop, hand_on};
use outside::{OutputBuffer, Sink, Source};
use std::alloc::Global;

/// Prints something of each document of an input.
///
/// However the walk over the documents ends, what was printed of those before is written, unless a write
/// is refused. Where there is no memory for a line of the input or its tree, the answer is
/// `Err(Stop::Input(InputFault::NoMemory))`, and where there is none to print a document it is
/// `Err(Stop::Taker(OutputFault::NoMemory))`: all documents before it are answered, whole. The status of
/// the call alone doesn't tell these from a write without memory.
pub fn stream<P: Printer, I: Source, O: Sink>(
    alloc: Global,
    printer: P,
    input: &mut I,
    out: &mut O,
) -> Result<(), Stop<OutputFault>>
    ensures streams { Streams (P.stream printer) (pipe_of (I.seen input.old) (O.seen out.old)) (pipe_of (I.seen input.new) (O.seen out.new)) result }
    ensures bounded { OfInput (I.seen input.old).bytes (λ bytes. IsWithinLimit bytes (I.seen input.new).bytes) }
{
    let mut gatherer = Gatherer {
        printer,
        output: OutputBuffer::new(alloc),
    };
    match hand_on(alloc, input, &mut gatherer, out) {
        Ok(()) => match gatherer.output.flush(out) {
            Ok(()) => Ok(()),
            Err(fault) => Err(Stop::Taker(OutputFault::Write(fault))),
        },
        Err(Stop::Input(why)) => match gatherer.output.flush(out) {
            Ok(()) => Err(Stop::Input(why)),
            Err(fault) => Err(Stop::Taker(OutputFault::Write(fault))),
        },
        Err(Stop::Taker(OutputFault::NoMemory)) => match gatherer.output.flush(out) {
            Ok(()) => Err(Stop::Taker(OutputFault::NoMemory)),
            Err(fault) => Err(Stop::Taker(OutputFault::Write(fault))),
        },
        Err(Stop::Taker(OutputFault::Write(fault))) => Err(Stop::Taker(OutputFault::Write(fault))),
    }
}
