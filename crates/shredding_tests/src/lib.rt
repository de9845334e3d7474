//! The calls on columns, records and schemas: each once on its happy path, since no contract can say that memory was
//! there.
//!
//! | Module | What it calls |
//! |---|---|
//! | `cells` | values that fit a kind of cells, and the values that cells stand for |
//! | `columns` | the leaf columns of a column |
//! | `schemas` | the schemas of texts, and their canonical texts |
#![tactic(auto)]

#[cfg(test)]
mod cells;
#[cfg(test)]
mod columns;
#[cfg(test)]
mod schemas;
