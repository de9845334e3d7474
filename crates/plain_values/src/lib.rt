//! PLAIN values (Encodings.md, "Plain"): the cells of a leaf column one after the other.
//!
//! | Module | What it holds |
//! |---|---|
//! | `cell_reading` | `front_cell`, `front_len`: the cell at the front of bytes, and how many bytes it takes |
//! | `booleans` | truth values, which are bits |
//! | `decoding` | `decode`: the cells at the front of bytes |
//! | `cell_writing` | `append_cell`: the bytes of one cell |
//! | `encoding` | `encode`, `append`: the bytes of cells |
//! | `laws` | what is written decodes to its cells |
#![tactic(auto)]

mod booleans;
mod cell_reading;
mod cell_writing;
mod decoding;
mod encoding;
mod laws;

pub use cell_reading::{front_cell, front_len};
pub use cell_writing::append_cell;
pub use decoding::decode;
pub use encoding::{append, encode};
pub use laws::written_cells_read_back;
