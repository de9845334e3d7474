//! JSON lines read exactly (RFC 8259): a line's tree, or the fault that it has.
//!
//! A line is read in one pass, call by call as the functions on lists of `json_grammar` read it. What
//! makes JSON no document (a lone surrogate, a name twice, a number too wide) is noted on the way. The
//! brackets are counted only where nothing was read.
//!
//! | Module | What it holds |
//! |---|---|
//! | `fault` | `DocFault`: the faults of lines |
//! | `document` | `read_line`: the tree of a line, or its first fault |
//! | `brackets` | whether too many brackets are open at once |
//! | `values` | values, arrays and objects |
//! | `numbers` | numbers |
//! | `strings` | strings |
//! | `seen` | the flaws that were noted |
//! | `scan` | white space |
//! | `laws` | what a line is, once and always; canonical texts |
//!
//! The lines of an input come from `json_lines`, whose names are passed on.
#![tactic(auto)]

mod brackets;
mod document;
mod fault;
pub mod laws;
mod numbers;
mod scan;
mod seen;
mod strings;
mod values;

pub use document::read_line;
pub use fault::DocFault;
pub use json_lines::{LineFault, Lines, Next};
