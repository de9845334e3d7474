//! Output that is gathered in memory, and written in pieces.

ghost use Rattle.std.specs.Prelude.{◌≡◌, ◌<◌, [], length, OnOk, OnErr};
ghost use Rattle.outside.specs.Devices.{AppendsPart};
ghost use Rattle.outside.specs.Output.{Puts, output_of, piece_size};

use crate::sink::{Sink, SinkError, write_all};
use std::alloc::Global;

/// How many bytes are gathered before they are written.
const PIECE: usize = 65_536;

/// The bytes that are still to be written: whoever prints appends to `pending`.
#[derive(Drop)]
pub struct OutputBuffer {
    pub pending: Vec<u8>,
}

impl OutputBuffer {
    /// Nothing is pending.
    pub fn new(alloc: Global) -> OutputBuffer
        ensures { result.pending.items ≡ [] }
    {
        OutputBuffer {
            pending: Vec::new(alloc),
        }
    }

    /// Writes all that is pending.
    ///
    /// After a refusal a part of it was written, and nothing more is to be: what is pending stays.
    pub fn flush<K: Sink>(&mut self, sink: &mut K) -> Result<(), SinkError>
        ensures puts { Puts (output_of (K.seen sink.old) self.old.pending.items) (output_of (K.seen sink.new) self.new.pending.items) [] result }
        ensures none { OnOk result (self.new.pending.items ≡ []) }
        ensures part { OnErr result (AppendsPart (K.seen sink.old).bytes (K.seen sink.new).bytes self.old.pending.items) }
        ensures err { OnErr result (self.new.pending.items ≡ self.old.pending.items) }
    {
        match write_all(sink, self.pending.as_slice()) {
            Ok(()) => {
                self.pending.clear();
                Ok(())
            }
            Err(fault) => Err(fault),
        }
    }

    /// Writes what is pending once it is a piece of 64 KiB.
    pub fn flush_piece<K: Sink>(&mut self, sink: &mut K) -> Result<(), SinkError>
        ensures puts { Puts (output_of (K.seen sink.old) self.old.pending.items) (output_of (K.seen sink.new) self.new.pending.items) [] result }
        ensures short { OnOk result (length self.new.pending.items < piece_size) }
        ensures err { OnErr result (self.new.pending.items ≡ self.old.pending.items) }
        ensures untouched { length self.old.pending.items < piece_size → (sink.new ≡ sink.old) × (self.new ≡ self.old) }
    {
        if self.pending.len() < PIECE {
            return Ok(());
        }
        self.flush(sink)
    }
}
