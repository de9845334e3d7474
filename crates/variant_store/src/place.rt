//! What the line of an error says of where in a file a rule is violated.

ghost use Rattle.std.specs.Prelude.{◌≡◌, IfOk, string_bytes};
ghost use Rattle.variant_store.specs.Report.{place_text};

use std::alloc::{AllocError, Global};
use store_file::Place;

fn chunk_text(alloc: Global, group: usize, leaf: usize) -> Result<String, AllocError>
    ensures { IfOk result (λ text. string_bytes text ≡ place_text (Place.Chunk group leaf)) }
{
    let mut text = format!(in alloc; " group {group}")?;
    let last = format!(in alloc; " leaf {leaf}")?;
    text.push_str(last.as_str())?;
    Ok(text)
}

fn row_text(alloc: Global, group: usize, row: u64) -> Result<String, AllocError>
    ensures { IfOk result (λ text. string_bytes text ≡ place_text (Place.Row group row)) }
{
    let mut text = format!(in alloc; " group {group}")?;
    let last = format!(in alloc; " row {row}")?;
    text.push_str(last.as_str())?;
    Ok(text)
}

/// The text of a place.
pub fn place_text(alloc: Global, place: Place) -> Result<String, AllocError>
    ensures { IfOk result (λ text. string_bytes text ≡ place_text place) }
{
    match place {
        Place::File => Ok(String::new(alloc)),
        Place::Chunk(group, leaf) => chunk_text(alloc, group, leaf),
        Place::Row(group, row) => row_text(alloc, group, row),
    }
}
