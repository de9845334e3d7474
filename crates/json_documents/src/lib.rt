//! The documents of an input: one walk over its lines, for every command that takes them.
//!
//! | Module | What it holds |
//! |---|---|
//! | `document_reader` | `Documents`: gives the documents of an input in turn |
//! | `handing` | `Taker`: what a command does with a document; `hand_on`: hands it all of them |
//! | `faults` | `InputFault`: why an input has no further document; `Stop`: why a walk ended early |
//! | `laws` | an input has one list of documents, and one ending |
#![tactic(auto)]

mod document_reader;
mod faults;
mod handing;
pub mod laws;

pub use document_reader::Documents;
pub use exact_json::DocFault;
pub use faults::{InputFault, Stop};
pub use handing::{Taker, hand_on};
