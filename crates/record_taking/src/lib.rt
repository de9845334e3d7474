//! Records taken from the entries of their leaves (the parquet-format README, "Nested Encoding").
//!
//! Each leaf has a cursor, which is passed as its entries are taken. What is taken is what `read` of record_assembly
//! gives of the entries under the full mask: a column of which not each leaf is read is projected first.
//!
//! | Module | What it holds |
//! |---|---|
//! | `levels` | `Levels`: where a record stands |
//! | `scalars` | scalars that are there, taken by the shortest way |
//! | `taking` | `take_record`: a record, and what stands in it |
#![tactic(auto)]

mod levels;
mod scalars;
mod taking;

pub use levels::Levels;
pub use taking::take_record;
