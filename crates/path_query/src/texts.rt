//! Paths and filters of texts. The readers below know no name for their fault; here it gets one.

ghost use Rattle.query_tree.specs.View.{steps_of, formula_of};
ghost use Rattle.path_query.specs.Texts.{ParsesPath, ParsesFilter};

use crate::fault::TextFault;
use filter_parsing::is_suited;
use query_tree::{Filter, Path};
use std::alloc::Global;
use vs_bytes::{Absent, Refused};

/// Reads a text that is a path: at most 64 steps and 4,096 bytes.
pub fn parse_path(alloc: Global, text: &str) -> Result<Path, TextFault>
    ensures { ParsesPath steps_of text.now result }
{
    match path_parsing::parse_path(alloc, text) {
        Ok(path) => Ok(path),
        Err(Refused::Fault(Absent)) => Err(TextFault::BadPath),
        Err(Refused::NoMemory) => Err(TextFault::NoMemory),
    }
}

/// Reads a text that is a filter.
///
/// It has at most 65,536 bytes and 256 terms, and at most 64 `not`s and brackets stand round one term.
/// A text that is none is [`TextFault::BadFilter`], whatever its literals. One that is a filter, but in
/// which null stands with another relation than `=`, or a truth value with another than `=` and `!=`, is
/// [`TextFault::BadOrder`].
pub fn parse_filter(alloc: Global, text: &str) -> Result<Filter, TextFault>
    ensures parses { ParsesFilter formula_of text.now result }
{
    match filter_parsing::parse_filter(alloc, text) {
        Ok(filter) => {
            if !is_suited(&filter) {
                return Err(TextFault::BadOrder);
            }
            Ok(filter)
        }
        Err(Refused::Fault(Absent)) => Err(TextFault::BadFilter),
        Err(Refused::NoMemory) => Err(TextFault::NoMemory),
    }
}
