//! The top call: the words of a command to a status, over any shelf, source and sinks, and what `scan` and `variant`
//! print of a document.
//!
//! | Module | What it holds |
//! |---|---|
//! | `top` | `vstore`: words in, a status out |
//! | `in_memory` | `vstore_in_memory`: the same over objects in memory, said in bytes |
//! | `command` | `Command`: what words ask for |
//! | `printer` | `Printer`: what a command prints of each document |
//! | `query_printer` | for `scan`: the line of a query |
//! | `variant_printer` | for `variant`: the bytes of a Variant in hex |
//! | `gatherer` | `Gatherer`: what is printed, gathered document by document |
//! | `stream` | what is printed of all documents of an input |
//! | `place` | `place_text`: where in a file a rule is violated, as it is told |
//! | `command_error` | `CommandError`: why a call ends with another status than 0, with its line |
#![tactic(auto)]

mod command;
mod command_error;
mod gatherer;
mod in_memory;
mod place;
mod printer;
mod query_printer;
mod stream;
mod top;
mod variant_printer;

pub use in_memory::vstore_in_memory;
pub use top::{Word, vstore};
