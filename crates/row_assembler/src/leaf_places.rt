//! Where the leaves that are read stand among one another.

ghost use Rattle.std.specs.Prelude.{◌≡◌, ℕ, ◌+◌, ◌^◌, ◌<◌, [], Some, None, cond, length, slice_index_or, IfOk};
ghost use Rattle.shred_schema.specs.Projection.{count_read};
ghost use Rattle.shred_schema.specs.Ranges.{reads, is_any_read};
ghost use Rattle.row_assembler.specs.Assembly.{place_in};

use column_assembly::Cursor;
use std::alloc::Global;
use vs_bytes::NoMemory;

/// The place of each leaf among those that are read, if it is one of them, and how many are read.
pub(crate) fn leaf_places(
    alloc: Global,
    mask: &[bool],
) -> Result<(Vec<Option<usize>>, usize), NoMemory>
    ensures places { IfOk result (λ p. (j : ℕ) → j < length mask.now → slice_index_or p.0.items j None ≡ place_in mask.now j) }
    ensures len { IfOk result (λ p. length p.0.items ≡ length mask.now) }
    ensures count { IfOk result (λ p. p.1 ≡ count_read (reads mask.now) 0 (length mask.now)) }
{
    let mut places = Vec::with_capacity(alloc, mask.len())?;
    let mut count: usize = 0;
    for leaf in 0..mask.len() {
        places.push(place_at(mask[leaf], count))?;
        count = count_after(mask[leaf], count);
    }
    Ok((places, count))
}

fn place_at(read: bool, count: usize) -> Option<usize>
    ensures { result ≡ cond read (Some count) None }
{
    if read { Some(count) } else { None }
}

fn count_after(read: bool, count: usize) -> usize
    requires { count + 1 < 2 ^ 64 }
    ensures { result ≡ cond read (count + 1) count }
{
    if read { count + 1 } else { count }
}

/// So many leaves of which no entries came.
pub(crate) fn empty_cursors(alloc: Global, count: usize) -> Result<Vec<Cursor>, NoMemory>
    ensures leaves { IfOk result (λ v. length v.items ≡ count) }
    ensures empty { IfOk result (λ v. (j : ℕ) → slice_index_or v.items j [] ≡ []) }
{
    let mut cursors = Vec::with_capacity(alloc, count)?;
    for _leaf in 0..count {
        cursors.push(Cursor::new(alloc))?;
    }
    Ok(cursors)
}

/// Whether a mask reads some leaf.
#[tactic(auto, using(shred_schema::proofs::KeptFields::none_on, shred_schema::proofs::KeptFields::none_hit, shred_schema::proofs::KeptFields::none_end))]
pub fn reads_any(mask: &[bool]) -> bool
    ensures { result ≡ is_any_read (reads mask.now) 0 (length mask.now) }
{
    for leaf in 0..mask.len() {
        if mask[leaf] {
            return true;
        }
    }
    false
}
