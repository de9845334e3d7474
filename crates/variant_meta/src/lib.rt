//! Variant metadata (VariantEncoding.md, "Metadata encoding"): the dictionary of names that the objects of a
//! value cite by their ids.
//!
//! What the bytes hold, and the order of the violations, is defined in `specs/Metadata.antt`. It is laxer than
//! the standard in this: bit 5 of byte 0 and the bytes after the last name are passed over, and a name may stand
//! twice where sorted_strings isn't set.
//!
//! | Module | What it holds |
//! |---|---|
//! | `layout`, `held_names` | where the parts of metadata lie; its names |
//! | `name_order` | `is_before`: the order of names |
//! | `meta_ref` | `MetaRef`: metadata, read in place |
//! | `known_meta` | `KnownMeta`: metadata that comes again |
//! | `dictionary` | `Dictionary`: names in order, each once; their metadata, written |
//! | `type_ids` | the types of values, which their readers and writers share |
//! | `laws` | what is written reads back |
#![tactic(auto)]

mod dictionary;
mod held_names;
mod known_meta;
mod laws;
mod layout;
mod meta_ref;
mod name_order;
mod type_ids;

pub use dictionary::Dictionary;
pub use known_meta::KnownMeta;
pub use laws::written_names_read_back;
pub use meta_ref::MetaRef;
pub use name_order::is_before;
pub use type_ids::{
    ARRAY_TYPE, DECIMAL4_ID, DECIMAL8_ID, DECIMAL16_ID, DOUBLE_ID, FALSE_ID, FLOAT_ID, INT8_ID,
    INT16_ID, INT32_ID, INT64_ID, LAST_TYPE_ID, NULL_ID, OBJECT_TYPE, PRIMITIVE_TYPE,
    SHORT_STRING_TYPE, STRING_ID, TRUE_ID,
};
