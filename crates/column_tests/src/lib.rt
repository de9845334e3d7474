//! The calls on the values of columns once, on their happy path: no contract can say that memory was there.
//!
//! | Module | What it calls |
//! |---|---|
//! | `levels` | runs and packed groups |
//! | `values` | PLAIN values |
#![tactic(auto)]

#[cfg(test)]
mod cells;
#[cfg(test)]
mod levels;
#[cfg(test)]
mod runs;
#[cfg(test)]
mod values;
