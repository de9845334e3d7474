//! All documents of an input, handed to whoever takes them.

ghost use Rattle.std.specs.Prelude.{◌≡◌, List, ℕ, [], ◌∷◌, ◌++◌, OnOk};
ghost use Rattle.json_tree.specs.Json.{Json};
ghost use Rattle.json_tree.specs.View.{view};
ghost use Rattle.json_documents.specs.Documents.{IsInputValue};
ghost use Rattle.json_documents.specs.Input.{OfInput, IsWithinLimit};
ghost use Rattle.json_documents.specs.Given.{at_start};
ghost use Rattle.json_documents.specs.Taking.{Takes, HandsOn};

use crate::document_reader::Documents;
use crate::faults::{InputFault, Stop};
use json_tree::Tree;
use outside::Source;
use std::alloc::Global;

/// What a command does with the documents of its input, one by one, where `D` is the device that it
/// writes to.
pub trait Taker<D> {
    /// Why a document wasn't taken.
    type Fault;

    /// When a document can be taken.
    ghost ready: { Self → D → Type 0 };

    /// From the first taker and device on, these documents were taken, and now this is the taker and
    /// this the device.
    ghost took: { Self → D → List Json → Self → D → Type 0 };

    /// These documents were taken, and then this one wasn't, for this reason.
    ghost refused: { Self → D → List Json → Json → Self.Fault → Self → D → Type 0 };

    /// Takes one more document. After an `Err` no more is to be taken.
    fn take(&mut self, device: &mut D, document: &Tree) -> Result<(), Self::Fault>
        requires ready { ready self.old device.old }
        requires document { IsInputValue (view document.now) }
        ensures takes { (start : Self) (first : D) (documents : List Json) → took start first documents self.old device.old → Takes (took start first (documents ++ view document.now ∷ []) self.new device.new) (λ fault. refused start first documents (view document.now) fault self.new device.new) result }
        ensures goes_on { OnOk result (ready self.new device.new) };

    /// At first no document was taken.
    ghost begins: { (start : Self) (first : D) → took start first [] start first };
}

/// Hands the documents of an input to their taker, up to the end of the input or the first fault.
///
/// At a fault of the input all documents before it were taken. After a fault of the taker nothing more
/// is read.
pub fn hand_on<S: Source, D, T: Taker<D>>(
    alloc: Global,
    source: &mut S,
    taker: &mut T,
    device: &mut D,
) -> Result<(), Stop<T::Fault>>
    requires ready { T.ready taker.old device.old }
    ensures hands { HandsOn (S.seen source.old) (S.seen source.new) (λ documents. T.took taker.old device.old documents taker.new device.new) (λ documents document fault. T.refused taker.old device.old documents document fault taker.new device.new) result }
    ensures bounded { OfInput (S.seen source.old).bytes (λ input. IsWithinLimit input (S.seen source.new).bytes) }
{
    match Documents::new(alloc) {
        Ok(mut documents) => walk(&mut documents, source, taker, device),
        Err(_) => Err(Stop::Input(InputFault::NoMemory)),
    }
}

// Hands all documents on, from the first.
fn walk<S: Source, D, T: Taker<D>>(
    documents: &mut Documents,
    source: &mut S,
    taker: &mut T,
    device: &mut D,
) -> Result<(), Stop<T::Fault>>
    requires start { documents.old ≡ at_start }
    requires ready { T.ready taker.old device.old }
    ensures hands { HandsOn (S.seen source.old) (S.seen source.new) (λ documents. T.took taker.old device.old documents taker.new device.new) (λ documents document fault. T.refused taker.old device.old documents document fault taker.new device.new) result }
    ensures bounded { OfInput (S.seen source.old).bytes (λ input. IsWithinLimit input (S.seen source.new).bytes) }
{
    loop {
        match documents.next(source) {
            Ok(Some(document)) => match pass_on(taker, device, document) {
                Ok(()) => {}
                Err(fault) => return Err(Stop::Taker(fault)),
            },
            Ok(None) => return Ok(()),
            Err(fault) => return Err(Stop::Input(fault)),
        }
    }
}

// One document, which isn't needed afterwards.
fn pass_on<D, T: Taker<D>>(taker: &mut T, device: &mut D, document: Tree) -> Result<(), T::Fault>
    requires ready { T.ready taker.old device.old }
    requires document { IsInputValue (view document) }
    ensures takes { (start : T) (first : D) (documents : List Json) → T.took start first documents taker.old device.old → Takes (T.took start first (documents ++ view document ∷ []) taker.new device.new) (λ fault. T.refused start first documents (view document) fault taker.new device.new) result }
    ensures goes_on { OnOk result (T.ready taker.new device.new) }
{
    taker.take(device, &document)
}
