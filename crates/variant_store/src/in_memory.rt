//! The top call over objects in memory, where each byte is known.

ghost use Rattle.std.specs.Prelude.{◌≡◌, ◌⊎◌, List, [], Some};
ghost use Rattle.outside.specs.Devices.{Rose};
ghost use Rattle.outside.specs.Memory.{source_device, sink_device};
ghost use Rattle.shelf.specs.Memory.{mem_storage};
ghost use Rattle.json_tree.specs.Json.{Json};
ghost use Rattle.json_documents.specs.Documents.{at_end, HasDocuments};
ghost use Rattle.json_documents.specs.Input.{IsWithinLimit};
ghost use Rattle.variant_store.specs.Commands.{Command, prints, AskFor, ReadsInput};
ghost use Rattle.variant_store.specs.Stream.{Stream};
ghost use Rattle.variant_store.specs.World.{world_of};
ghost use Rattle.variant_store.specs.Top.{IsAnswer};
ghost use Rattle.variant_store.specs.InMemory.{Prints, StopsAtLine, StopsAtLimit};

use crate::top::{Word, vstore};
use outside::{MemSink, MemSource};
use shelf::MemShelf;
use std::alloc::Global;

/// [`vstore`] over objects in memory: what its `answer` says of known bytes, said in bytes for the commands that print
/// something of each document (`scan`, `variant`).
pub fn vstore_in_memory(
    alloc: Global,
    words: &[Word],
    shelf: &mut MemShelf,
    input: &mut MemSource,
    out: &mut MemSink,
    err: &mut MemSink,
) -> u8
    ensures answer { IsAnswer words.now (world_of (mem_storage shelf.old) (source_device input.old) (sink_device out.old)) (world_of (mem_storage shelf.new) (source_device input.new) (sink_device out.new)) (sink_device err.old) (sink_device err.new) result }
    ensures prints { (stream : Stream) → AskFor words.now (prints stream) → result ≡ 0 → Prints stream input.old at_end out.old out.new }
    ensures read_whole { (command : Command) → AskFor words.now command → ReadsInput command → result ≡ 0 → input.new.left ≡ [] }
    ensures quiet { result ≡ 0 → err.new.written ≡ err.old.written }
    ensures bounded { IsWithinLimit input.old.left (Some input.new.left) }
    ensures refused { (stream : Stream) → AskFor words.now (prints stream) → result ≡ 3 → (StopsAtLine stream input.old out.old out.new err.old err.new ⊎ StopsAtLimit stream input.old out.old out.new err.old err.new) }
    ensures beside { (stream : Stream) → AskFor words.now (prints stream) → shelf.new ≡ shelf.old }
    ensures complete { (stream : Stream) (documents : List Json) → AskFor words.now (prints stream) → HasDocuments input.old.left documents at_end → (Rose input.old.plan.faults input.new.plan.faults → ⊥) → (Rose out.old.plan.faults out.new.plan.faults → ⊥) → (result ≡ 0) ⊎ (result ≡ 7) }
{
    vstore(alloc, words, shelf, input, out, err)
}
