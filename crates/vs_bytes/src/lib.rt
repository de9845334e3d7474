//! What every crate stands on: how a call answers, texts, bytes and lists that contracts see as lists, and
//! numbers and parts of byte slices.
//!
//! The words of contracts for "exactly the defined value, or exactly the defined fault" stand in
//! `specs/Outcome.antt`.
//!
//! | Module | What it holds |
//! |---|---|
//! | `memory` | `NoMemory`: an allocation was refused |
//! | `refused` | `Refused`: a fault, or no memory; `Absent`: nothing of the kind stands there |
//! | `rule` | `Rule`: what a malformed file violates, and its printed name |
//! | `utf8_text` | `Text`: UTF-8 text, seen as its bytes and ordered by them; `is_utf8`: whether bytes are UTF-8 |
//! | `byte_list` | `Bytes`: owned bytes, seen as their list |
//! | `short_bytes` | bytes that lie in the value itself |
//! | `sequence` | `Sequence`: items in order, seen as their list |
//! | `leaf_columns` | `Phys`, `Prim`, `Leaf`: leaf columns; `Cell`, `Entry`: what they hold; lists of both |
//! | `slices` | `cut`, `part`, `rest`: parts of a byte slice |
//! | `little_endian` | `Le`, `number_at`, `append_number`: numbers of 1 to 4 bytes; `width_of`: how many a number needs |
//! | `hex_digits` | `hex`: bytes in hex digits |
#![tactic(auto)]

mod byte_list;
mod hex_digits;
mod leaf_columns;
mod little_endian;
mod memory;
mod refused;
mod rule;
mod sequence;
mod short_bytes;
mod slices;
mod utf8_text;

pub use byte_list::Bytes;
pub use hex_digits::hex;
pub use leaf_columns::{Cell, Cells, Entry, EntryList, Leaf, Phys, PrimKind as Prim};
pub use little_endian::{Le, append_number, number_at, width_of};
pub use memory::NoMemory;
pub use refused::{Absent, Refusal, Refused};
pub use rule::Rule;
pub use sequence::Sequence;
pub use slices::{cut, part, rest};
pub use utf8_text::{Text, is_utf8};
