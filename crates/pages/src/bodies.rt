//! The bodies of pages.

ghost use Rattle.vs_bytes.specs.Outcome.{Makes};
ghost use Rattle.pages.specs.Bodies.{data_body};

use crate::levels::read_levels;
use crate::open_pages::OpenPage;
use std::alloc::Global;
use vs_bytes::{Leaf, Refusal, rest};

/// The body of a data page of the first form, whose values are in PLAIN: judged whole, with the entries still to be made.
#[tactic(auto, unfolding(crate::specs::Bodies::data_body))]
pub(crate) fn open_body(
    alloc: Global,
    leaf: &Leaf,
    count: usize,
    body: &[u8],
) -> Result<OpenPage, Refusal>
    ensures { Makes (λ entries. entries) result (data_body leaf.now count body.now) }
{
    let (reps, used) = match read_levels(alloc, leaf.rep, count, body) {
        Ok(read) => read,
        Err(refusal) => return Err(refusal),
    };
    let after_reps = rest(body, used);
    let (defs, used) = match read_levels(alloc, leaf.def, count, after_reps) {
        Ok(read) => read,
        Err(refusal) => return Err(refusal),
    };
    let values = rest(after_reps, used);
    OpenPage::of(alloc, leaf, count, reps, defs, values)
}
