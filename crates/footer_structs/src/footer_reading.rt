//! Footers, read and judged as a whole.

ghost use Rattle.std.specs.Prelude.{◌≡◌, ◌≤◌, ◌*◌, ◌^◌, length};
ghost use Rattle.std.specs.List.{list_all};
ghost use Rattle.vs_bytes.specs.Outcome.{Gives, Makes};
ghost use Rattle.footer_structs.specs.ReadFooters.{has_chunks, fields_fit, total_rows, rows_fit, judged, footer};

use crate::file_metadata::{FileDraft, FileMeta};
use crate::row_groups::GroupMeta;
use schema_elements::{have_lengths, is_one_tree, leaf_count};
use std::alloc::Global;
use thrift_structs::read_struct;
use vs_bytes::{Refusal, Rule};

fn has_chunks(group: &GroupMeta, leaves: usize) -> bool
    ensures { result ≡ has_chunks leaves group.now }
{
    group.columns.len() == leaves
}

fn have_chunks(groups: &[GroupMeta], leaves: usize) -> bool
    ensures { result ≡ list_all (has_chunks leaves) groups.now }
{
    for group in groups {
        if !has_chunks(group, leaves) {
            return false;
        }
    }
    true
}

// Whether the schema, its leaves and the chunks go together.
#[tactic(auto, unfolding(crate::specs::ReadFooters::fields_fit))]
fn fields_fit(meta: &FileMeta) -> bool
    ensures { result ≡ fields_fit meta.now }
{
    let schema = meta.schema.as_slice();
    is_one_tree(schema)
        && have_lengths(schema)
        && have_chunks(meta.row_groups.as_slice(), leaf_count(schema))
}

#[tactic(auto, using(crate::proofs::Rows::more_rows, crate::proofs::Rows::no_rows))]
fn total_rows(groups: &[GroupMeta]) -> u128
    ensures { result ≡ total_rows groups.now }
{
    let mut total: u128 = 0;
    for group in groups {
        total += u128::from(group.num_rows.unsigned_abs());
    }
    total
}

// Whether the file has the rows of its groups.
#[tactic(auto, unfolding(crate::specs::ReadFooters::rows_fit))]
fn rows_fit(meta: &FileMeta) -> bool
    ensures { result ≡ rows_fit meta.now }
{
    total_rows(meta.row_groups.as_slice()) == u128::from(meta.num_rows.unsigned_abs())
}

fn judged(meta: Option<FileMeta>) -> Result<FileMeta, Rule>
    ensures { Gives (λ m. m) result (judged meta) }
{
    let Some(meta) = meta else {
        return Err(Rule::FooterField);
    };
    if !fields_fit(&meta) {
        return Err(Rule::FooterField);
    }
    if !rows_fit(&meta) {
        return Err(Rule::RowCount);
    }
    Ok(meta)
}

/// Reads a footer: the metadata of a file. Bytes after it are passed over.
///
/// The violations are tried in this order. `Thrift`: the bytes aren't of the compact protocol. `FooterField`: a known
/// field is missing, stands twice, or has another type or value; the schema isn't one tree; a leaf of
/// FIXED_LEN_BYTE_ARRAY has no length; a row group has more or fewer chunks than the schema has leaves. `RowCount`: the
/// rows of the groups don't add up to the file's.
#[tactic(auto, unfolding(crate::specs::ReadFooters::footer))]
pub fn read_footer(alloc: Global, bytes: &[u8]) -> Result<FileMeta, Refusal>
    ensures { Makes (λ m. m) result (footer bytes.now) }
{
    let (meta, _rest) = read_struct::<FileDraft>(alloc, bytes)?;
    Ok(judged(meta)?)
}
