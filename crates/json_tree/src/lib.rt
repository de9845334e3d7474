//! JSON values (RFC 8259) as trees, and their canonical text. Quoted strings are read by `read_string` of
//! `json_strings`, which is named here again.
//!
//! | Module | What it holds |
//! |---|---|
//! | `types` | `Tree`, the items of an array, the members of an object |
//! | `name_order` | members in the order of their names |
//! | `printing` | `print`, `print_text`, `print_quoted`: the canonical text |
//! | `lengths` | `text_len`: how long that text is |
//! | `depths` | `depth`: how deep a tree nests |
//! | `copies` | `copy`: a tree of the same value |
//! | `sameness` | `same`: whether two trees have the same value |
//! | `validity` | `tree_is_valid`: what holds of every tree |
//! | `laws` | what is valid, by its parts; a printed text is a string that means it |
#![tactic(auto)]

mod copies;
mod depths;
mod laws;
mod lengths;
mod name_order;
mod printing;
mod sameness;
mod types;
mod validity;

pub use copies::copy;
pub use depths::depth;
pub use exact_num::Number;
pub use json_strings::{StringFault, read_string};
pub use laws::{array_is_valid, object_is_valid, printed_texts_are_strings, valid_is_ordered};
pub use lengths::text_len;
pub use printing::{print, print_quoted, print_text};
pub use sameness::same;
pub use types::{Items, Members, MembersFault, Tree};
pub use validity::tree_is_valid;
