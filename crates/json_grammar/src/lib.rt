//! The grammar of JSON texts (RFC 8259) as derivation trees, and the laws of its reading.
//!
//! The crate is definitions and laws: what a line spells, and that it spells one thing at most. The
//! parser stands on it.
#![tactic(auto)]

mod laws;

pub use laws::{reading_is_complete, reading_is_sound, written_once};
