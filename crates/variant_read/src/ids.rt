//! The ids of fields, judged.

ghost use Rattle.std.specs.Prelude.{◌≡◌, ◌<◌, ◌-◌, length, true, IfOk};
ghost use Rattle.variant_meta.specs.MetaRefs.{names_of};
ghost use Rattle.variant_read.specs.Judging.{allowed_id, IdsJudged};
ghost use Rattle.variant_read.specs.Layout.{field_id, id_size};

use crate::layout::Layout;
use variant_meta::MetaRef;
use vs_bytes::Rule;

// The id of field `k`, whose name comes after that of `before`, the id of the field before.
#[inline(always)]
#[tactic(auto, using(crate::proofs::Walk::id_unknown, crate::proofs::Walk::id_first, crate::proofs::Walk::id_on, crate::proofs::Walk::id_back))]
fn field_id<const IW: usize>(
    meta: &MetaRef,
    layout: Layout,
    k: usize,
    before: u32,
) -> Result<u32, Rule>
    requires object { layout.object ≡ true }
    requires width { id_size layout.bytes.now ≡ IW }
    requires inside { k < layout.len }
    requires before { 0 < k → before ≡ field_id layout.bytes.now (k - 1) }
    requires known { 0 < k → before < length (names_of meta.now) }
    ensures value { result ≡ allowed_id (names_of meta.now) layout.entry.bytes.now k }
    ensures known { IfOk result (λ id. id < length (names_of meta.now)) }
{
    let id = layout.id_of_width::<IW>(k);
    if id as usize >= meta.len() {
        return Err(Rule::FieldId);
    }
    if k == 0 {
        return Ok(id);
    }
    if meta.comes_before(before, id) {
        Ok(id)
    } else {
        Err(Rule::FieldOrder)
    }
}

// The same of an object whose ids have `IW` bytes.
#[tactic(auto, using(crate::proofs::Walk::judged_broken, crate::proofs::Walk::judged_whole, crate::proofs::Walk::one_more, crate::proofs::Walk::id_given))]
fn judge_field_ids<const IW: usize>(meta: &MetaRef, layout: Layout) -> (usize, Result<usize, Rule>)
    requires object { layout.object ≡ true }
    requires width { id_size layout.bytes.now ≡ IW }
    ensures { IdsJudged (names_of meta.now) layout.entry.bytes.now result.0 result.1 }
{
    let mut before = 0;
    for k in 0..layout.len {
        match field_id::<IW>(meta, layout, k, before) {
            Ok(id) => before = id,
            Err(rule) => return (k, Err(rule)),
        }
    }
    (layout.len, Ok(layout.size()))
}

/// Judges the ids of all fields, up to the first that violates a rule. Answers how many there are before it, and
/// what the whole is once their values are judged too: its size, or that rule. An array has no ids.
#[tactic(auto, using(crate::proofs::Walk::judged_array))]
pub(crate) fn judge_ids(meta: &MetaRef, layout: Layout) -> (usize, Result<usize, Rule>)
    ensures { IdsJudged (names_of meta.now) layout.entry.bytes.now result.0 result.1 }
{
    if !layout.object {
        return (layout.len, Ok(layout.size()));
    }
    match layout.id_width {
        1 => judge_field_ids::<1>(meta, layout),
        2 => judge_field_ids::<2>(meta, layout),
        3 => judge_field_ids::<3>(meta, layout),
        _ => judge_field_ids::<4>(meta, layout),
    }
}
