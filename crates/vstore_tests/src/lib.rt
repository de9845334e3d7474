//! Tests of the whole program over objects in memory.
//!
//! They stand apart because a crate with tests is proved twice.
//!
//! | Module | What it shows |
//! |---|---|
//! | `rows` | lines, values and faults: what is printed for an input |
//! | `limits` | the depth of a line, its length, output of many pieces |
//! | `variants` | the bytes of documents as Variants |
//! | `loads` | documents loaded to a file |
//! | `devices` | each read and each write failing in turn, sources and sinks in pieces, a sink without memory |
#![tactic(auto)]

#[cfg(test)]
mod devices;
#[cfg(test)]
mod limits;
#[cfg(test)]
mod loads;
#[cfg(test)]
mod rows;
#[cfg(test)]
mod variants;
