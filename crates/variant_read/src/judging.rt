//! How many bytes a value has, or the first rule that it violates.

ghost use Rattle.std.specs.Prelude.{◌≡◌, ◌<◌, ◌≤◌, length, IfOk};
ghost use Rattle.variant_meta.specs.MetaRefs.{names_of};
ghost use Rattle.variant_read.specs.Judging.{used_with, IdsJudged};
ghost use Rattle.variant_read.specs.Layout.{basic_type};
ghost use Rattle.variant_read.specs.Meaning.{container, value_within, size_in};

use crate::ids::judge_ids;
use crate::layout::{Layout, basic_type};
use crate::primitives::{primitive, short_string};
use variant_meta::{MetaRef, PRIMITIVE_TYPE, SHORT_STRING_TYPE};
use vs_bytes::{Rule, rest};

// The length of the items with one more, which begins at `at`.
#[cycle(judging)]
#[inline(always)]
#[tactic(auto, using(std::proofs::lemmas::Bool::Decides::nat_tests), unfolding(crate::specs::Judging::used_with))]
fn with_item(meta: &MetaRef, region: &[u8], at: usize, used: usize, room: u8) -> Result<usize, Rule>
    requires { used ≤ length region.now }
    ensures value { result ≡ used_with (value_within (names_of meta.now) room) region.now used at }
    ensures within { IfOk result (λ all. all ≤ length region.now) }
{
    if region.len() < at {
        return Err(Rule::Offsets);
    }
    let size = check(meta, rest(region, at), room)?;
    if region.len() - used < size {
        return Err(Rule::Offsets);
    }
    Ok(used + size)
}

// The size of an object or array, whose first `len` items are judged here. `end` is what comes of it after these.
#[cycle(judging)]
#[inline(always)]
#[tactic(auto, using(crate::proofs::Walk::size_whole, crate::proofs::Walk::item_passed, crate::proofs::Walk::item_failed))]
fn items(
    meta: &MetaRef,
    layout: Layout,
    len: usize,
    end: Result<usize, Rule>,
    room: u8,
) -> Result<usize, Rule>
    requires { IdsJudged (names_of meta.now) layout.bytes.now len end }
    ensures { result ≡ size_in (container (names_of meta.now) (value_within (names_of meta.now) room) layout.entry.bytes.now) }
{
    let region = layout.region();
    let mut used = 0;
    for k in 0..len {
        match with_item(meta, region, layout.offset(k), used, room) {
            Ok(all) => used = all,
            Err(rule) => return Err(rule),
        }
    }
    end
}

#[cycle(judging)]
#[inline(never)]
#[tactic(auto, using(crate::proofs::Walk::value_too_deep, crate::proofs::Walk::value_inside, crate::proofs::Walk::short_whole))]
fn container(meta: &MetaRef, bytes: &[u8], room: u8) -> Result<usize, Rule>
    requires there { 0 < length bytes.now }
    requires basic { 2 ≤ basic_type bytes.now }
    ensures { result ≡ size_in (value_within (names_of meta.now) room bytes.now) }
{
    if room == 0 {
        return Err(Rule::ValueTooDeep);
    }
    let Some(layout) = Layout::of(bytes) else {
        return Err(Rule::ValueShort);
    };
    let (len, end) = judge_ids(meta, layout);
    items(meta, layout, len, end, room - 1)
}

/// How many bytes the value at the front of `bytes` has, inside which arrays and objects may nest `room` deep.
#[cycle(judging)]
#[inline(always)]
#[tactic(auto, using(crate::proofs::Walk::value_empty, crate::proofs::Walk::value_primitive, crate::proofs::Walk::value_short_string))]
pub(crate) fn check(meta: &MetaRef, bytes: &[u8], room: u8) -> Result<usize, Rule>
    ensures { result ≡ size_in (value_within (names_of meta.now) room bytes.now) }
{
    if bytes.is_empty() {
        return Err(Rule::ValueShort);
    }
    match basic_type(bytes) {
        PRIMITIVE_TYPE => primitive(bytes),
        SHORT_STRING_TYPE => short_string(bytes),
        _ => container(meta, bytes, room),
    }
}
