//! The calls on records of shredded Variants, and the calls on the metadata of column chunks that are written: each on
//! its happy path, since no contract can say that memory was there; and rows of records, with what they mean or the
//! first rule that they violate.
//!
//! | Module | What it calls |
//! |---|---|
//! | `records` | records as text |
//! | `shredding` | documents shredded by schemas, and read again |
//! | `rules` | records that violate rules, and masks |
//! | `needed_leaves` | which leaves queries need |
//! | `chunk_metadata` | the metadata of column chunks, written, and the ranges of chunks |
#![tactic(auto)]

#[cfg(test)]
mod chunk_metadata;
#[cfg(test)]
mod needed_leaves;
#[cfg(test)]
mod records;
#[cfg(test)]
mod rules;
#[cfg(test)]
mod shredding;
