//! Pages of a column chunk (README.md of parquet-format, "Data Pages").
//!
//! What a page holds, and the order of its rules, is defined in `specs/Pages.antt`.
//!
//! | Module | What it holds |
//! |---|---|
//! | `levels` | the levels of a page |
//! | `joining` | entries of levels and values |
//! | `judging` | values that are judged, and not made |
//! | `waiting`, `ready` | entries that are made in pieces, and truth values, which are made at once |
//! | `open_pages` | `OpenPage`: a page that was judged whole, and gives its entries in pieces |
//! | `bodies` | the bodies of pages |
//! | `reading` | `open_page`: a page, judged; `read_page`: all its entries |
//! | `writing` | `write_page`: the bytes of a page |
//! | `laws` | what is written reads back |
#![tactic(auto)]

mod bodies;
mod joining;
mod judging;
mod laws;
mod levels;
mod open_pages;
mod reading;
mod ready;
mod waiting;
mod writing;

pub use laws::written_entries_read_back;
pub use open_pages::OpenPage;
pub use reading::{open_page, read_page};
pub use writing::write_page;
