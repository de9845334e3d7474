//! Variant values, written (VariantEncoding.md, "Value encoding").
//!
//! | Module | What it holds |
//! |---|---|
//! | `widths` | `Widths`: the least widths of numbers |
//! | `primitives` | null, booleans, numbers and texts, written |
//! | `composer` | `Composer`: objects and arrays of values that are there already, written |
//! | `composing` | the same for widths that are known only at run time |
//! | `collecting` | `dictionary_of`: the names of all objects in a value |
//! | `known_names` | `KnownNames`: a dictionary and its metadata, kept for the next value |
//! | `field_ids` | the ids of an object's fields |
//! | `encoding` | `encode`: the bytes of a value |
//! | `choosing` | `encode_members`: the bytes of some members of an object |
//! | `laws` | what is written is short; the dictionary of a value; conditions hold of chosen members |
#![tactic(auto)]

mod choosing;
mod collecting;
mod composer;
mod composing;
mod encoding;
mod field_ids;
mod known_names;
mod laws;
mod primitives;
mod widths;

pub use choosing::encode_members;
pub use collecting::dictionary_of;
pub use composer::Composer;
pub use encoding::encode;
pub use known_names::KnownNames;
pub use laws::{chosen_members_keep, coded_is_short, dictionary_is_one};
pub use widths::Widths;
