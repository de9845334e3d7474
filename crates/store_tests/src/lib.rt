//! Tests of the commands over files, by the whole program over objects in memory.
//!
//! They stand apart because a crate with tests is proved twice.
//!
//! | Module | What it shows |
//! |---|---|
//! | `queries` | files that were loaded, queried and checked, and what is refused |
//! | `records` | twenty records and what is found among them |
//! | `scans` | a query of a loaded file prints what a scan of its documents prints |
//! | `groups` | where row groups end |
//! | `footers` | footers that would be too long |
#![tactic(auto)]

#[cfg(test)]
mod footers;
#[cfg(test)]
mod groups;
#[cfg(test)]
mod queries;
#[cfg(test)]
mod records;
#[cfg(test)]
mod scans;
