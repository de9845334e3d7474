//! Paths.

ghost use Rattle.std.specs.Prelude.{◌≡◌, ◌<◌, length, IfOk};
ghost use Rattle.vs_bytes.specs.Outcome.{Reads};
ghost use Rattle.byte_parsing.specs.Parse.{read_as};
ghost use Rattle.query_tree.specs.View.{steps_of};
ghost use Rattle.path_parsing.specs.Grammar.{path_of};
ghost use Rattle.path_parsing.specs.Parses.{Parses};
ghost use Rattle.path_parsing.specs.Reading.{path_at};

use crate::steps::read_steps;
use byte_parsing::after_byte;
use query_tree::Path;
use std::alloc::Global;
use vs_bytes::{Absent, Refused};

// The most bytes of a path.
const MAX_BYTES: usize = 4096;

/// Reads the path at the front of `text`, and gives the bytes after it.
///
/// It goes as far as steps stand there: where a dot or a bracket begins no step, there is no path.
#[tactic(auto, unfolding(crate::specs::Reading::path_at))]
pub fn read_path(alloc: Global, text: &[u8]) -> Result<(Path, &[u8]), Refused<Absent>>
    ensures reads { Reads (λ x. (steps_of x.0, x.1.now)) result (read_as path_of (path_at text.now)) }
    ensures shorter { IfOk result (λ x. length x.1.now < length text.now) }
{
    let Some(inside) = after_byte(text, b'$') else {
        return Err(Refused::Fault(Absent));
    };
    let (steps, rest) = read_steps(alloc, inside)?;
    if text.len() - rest.len() > MAX_BYTES {
        return Err(Refused::Fault(Absent));
    }
    Ok((Path::new(alloc, steps)?, rest))
}

/// Reads a text that is a path.
pub fn parse_path(alloc: Global, text: &str) -> Result<Path, Refused<Absent>>
    ensures { Parses steps_of text.now result }
{
    let (path, rest) = read_path(alloc, text.as_bytes())?;
    if !rest.is_empty() {
        return Err(Refused::Fault(Absent));
    }
    Ok(path)
}
