//! What is printed of each document is gathered, and written in pieces.

ghost use Rattle.std.specs.Prelude.{◌<◌, length};
ghost use Rattle.outside.specs.Output.{output_of, piece_size};
ghost use Rattle.variant_store.specs.Gathering.{Gathers, GathersUpTo};
ghost use Rattle.variant_store.specs.Beginning.{gathers_nothing};

use crate::printer::Printer;
use json_documents::Taker;
use json_tree::Tree;
use outside::{OutputBuffer, Sink, SinkError};
use vs_bytes::NoMemory;

/// Why what is printed of documents doesn't reach the output.
#[derive(Clone, Copy, PartialEq, Eq, Debug, Drop)]
pub enum OutputFault {
    /// There was no memory to print a document. What was gathered of those before it can still be written.
    NoMemory,
    /// A write was refused. Nothing more is to be written.
    Write(SinkError),
}

/// What a printer printed, as far as it isn't written yet: between two documents, less than a piece.
#[derive(Drop)]
pub struct Gatherer<P: Printer> {
    pub printer: P,
    pub output: OutputBuffer,
}

impl<O: Sink, P: Printer> Taker<O> for Gatherer<P> {
    type Fault = OutputFault;

    ghost ready = { λ g out. length g.output.pending.items < piece_size };

    ghost took = { λ a first documents b now. Gathers (P.stream a.printer) (P.stream b.printer) (output_of (O.seen first) a.output.pending.items) (output_of (O.seen now) b.output.pending.items) documents };

    ghost refused = { λ a first documents document fault b now. GathersUpTo (P.stream a.printer) (output_of (O.seen first) a.output.pending.items) (output_of (O.seen now) b.output.pending.items) documents document fault };

    fn take(&mut self, out: &mut O, document: &Tree) -> Result<(), OutputFault> {
        match self.printer.print(&mut self.output.pending, document) {
            Ok(()) => match self.output.flush_piece(out) {
                Ok(()) => Ok(()),
                Err(fault) => Err(OutputFault::Write(fault)),
            },
            Err(NoMemory) => Err(OutputFault::NoMemory),
        }
    }

    ghost begins = { λ start first. gathers_nothing (P.stream start.printer) (output_of (O.seen first) start.output.pending.items) };
}
