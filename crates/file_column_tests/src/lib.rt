//! The column of a schema, read and written: rows of schemas that are read or refused, and each call once on its happy
//! path, since no contract can say that memory was there.
//!
//! | Module | What it shows |
//! |---|---|
//! | `schemas` | schemas made of rows, and what is read of them |
//! | `shapes` | each way in which a schema isn't that of a shredded Variant |
//! | `columns` | levels, places and orders of the leaves |
//! | `limits` | how many leaves a column may have, and how deep it may nest |
//! | `written` | schemas and schema paths that are written |
#![tactic(auto)]

#[cfg(test)]
mod columns;
#[cfg(test)]
mod limits;
#[cfg(test)]
mod schemas;
#[cfg(test)]
mod shapes;
#[cfg(test)]
mod written;
