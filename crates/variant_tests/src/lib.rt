//! The calls on Variant bytes: each once on its happy path, since no contract can say that memory was there, and
//! rows of cells with what they mean.
//!
//! | Module | What it calls |
//! |---|---|
//! | `numbers` | numbers of a width, integers in two's complement, bytes in hexadecimal |
//! | `metadata` | dictionaries, and metadata read in place |
//! | `cells` | what cells of any bytes mean, and the rules that they violate |
//! | `values` | values, written |
//! | `views` | objects and arrays, viewed |
#![tactic(auto)]

#[cfg(test)]
mod cells;
#[cfg(test)]
mod metadata;
#[cfg(test)]
mod numbers;
#[cfg(test)]
mod values;
#[cfg(test)]
mod views;
