//! Tests of the commands over files where a device fails, by the whole program over objects in memory.
//!
//! They stand apart because a crate with tests is proved twice.
//!
//! | Module | What it shows |
//! |---|---|
//! | `rows` | the rows that are loaded, and what the commands answer of them |
//! | `runs` | calls whose devices fail at some of their calls |
//! | `loads` | a load whose shelf or input fails, or whose input has a fault, leaves a part of the file |
//! | `answers` | a query and a check whose shelf or output fails, or whose output has no memory |
#![tactic(auto)]

#[cfg(test)]
mod answers;
#[cfg(test)]
mod loads;
#[cfg(test)]
mod rows;
#[cfg(test)]
mod runs;
