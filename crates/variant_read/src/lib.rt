//! Variant values (VariantEncoding.md, "Value encoding"), read in place.
//!
//! What bytes mean, and the order of the violations, is defined in `specs/Meaning.antt`. A value is judged once, as
//! a whole, when it is viewed. Its parts are then read without a test, and nothing is allocated but for a tree.
//!
//! The reader is stricter than the standard in this:
//!
//! - Floats, dates, times, binary and uuid aren't read.
//! - Arrays and objects nest 64 deep at most.
//! - The items of an object or array together have no more bytes than the last offset says. They may overlap, but the
//!   ones that are judged are no longer together than the bytes of all items, so that each of the 64 levels takes
//!   time linear in the bytes, but for comparing names that aren't sorted.
//!
//! It is laxer than the standard in this:
//!
//! - Header bits that the layout doesn't name are passed over, and so is is_large where the count would fit a byte.
//! - The items of an object or array may lie with gaps or overlap, and those of an array in any order.
//! - Bytes after the value are passed over.
//!
//! | Module | What it holds |
//! |---|---|
//! | `layout`, `widths` | where the parts of an object or array lie; ids and offsets of a known width |
//! | `primitives` | judging the values that hold no others |
//! | `ids`, `judging` | judging the ids of fields, and values with all that they hold |
//! | `scalars`, `opening` | judged bytes as a value: primitives and short strings; one level of any value |
//! | `views`, `viewing` | `ValueRef` and the views in it; `view` |
//! | `containers`, `arrays`, `objects`, `searching` | items by place, and fields by name |
//! | `owned` | `to_tree` |
#![tactic(auto)]

mod arrays;
mod containers;
mod ids;
mod judging;
mod layout;
mod objects;
mod opening;
mod owned;
mod primitives;
mod scalars;
mod searching;
mod viewing;
mod views;
mod widths;

pub use owned::to_tree;
pub use viewing::view;
pub use views::{ArrayRef, ArrayView, ObjectRef, ObjectView, ValueRef};
