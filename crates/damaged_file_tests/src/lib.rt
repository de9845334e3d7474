//! Tests of files that no load wrote, by the whole program over objects in memory.
//!
//! They stand apart because a crate with tests is proved twice.
//!
//! | Module | What it shows |
//! |---|---|
//! | `changes` | files with a changed byte, and a file of another writer |
//! | `verdicts` | a query and a check of a file end with an answer or a rule, and agree |
//! | `draws` | numbers that look random |
//! | `damage` | files that were cut, changed at random, or made of random bytes |
#![tactic(auto)]

#[cfg(test)]
mod changes;
#[cfg(test)]
mod damage;
#[cfg(test)]
mod draws;
#[cfg(test)]
mod verdicts;
