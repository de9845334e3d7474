//! The RLE/bit-packing hybrid (Encodings.md, "Run Length Encoding / Bit-Packing Hybrid"), which holds levels
//! and dictionary indices.
//!
//! What the bytes hold, and the order of the violations, is defined in `specs/Hybrid.antt`. It is laxer than the
//! standard in this: a part may have no numbers, and the number of a run may have more than `width` bits.
//!
//! | Module | What it holds |
//! |---|---|
//! | `headers` | the header of a part, and what it says of the content |
//! | `unpacking` | groups of packed numbers |
//! | `decoding` | `decode`: numbers from the front of bytes |
//! | `measuring` | `measure`: how many bytes numbers take, without room for them |
//! | `packing` | numbers packed into bytes |
//! | `encoding` | `encode`: the bytes of numbers |
//! | `laws` | what is written decodes to its numbers |
#![tactic(auto)]

mod decoding;
mod encoding;
mod headers;
mod laws;
mod measuring;
mod packing;
mod unpacking;

pub use decoding::decode;
pub use encoding::encode;
pub use laws::written_numbers_read_back;
pub use measuring::measure;
