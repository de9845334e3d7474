//! Bytes viewed as a value.

ghost use Rattle.std.specs.Prelude.{◌≤◌, IfOk};
ghost use Rattle.vs_bytes.specs.Outcome.{Gives};
ghost use Rattle.variant_meta.specs.MetaRefs.{names_of, bytes_of};
ghost use Rattle.variant_read.specs.Meaning.{max_nesting, means, json_in};
ghost use Rattle.variant_read.specs.View.{json_of, LiesIn, HasMetadata};

use crate::judging::check;
use crate::opening::opened;
use crate::views::ValueRef;
use variant_meta::MetaRef;
use vs_bytes::Rule;

// How deep arrays and objects may nest.
const MAX_NESTING: u8 = 64;

/// Views the value at the front of `bytes`, or names the first violation. The value stands inside `above` arrays
/// and objects. Bytes after it are passed over.
#[tactic(auto, using(crate::proofs::Viewed::judged_ok, crate::proofs::Viewed::judged_err), unfolding(crate::specs::Meaning::means))]
pub fn view<'a>(meta: MetaRef<'a>, bytes: &'a [u8], above: u8) -> Result<ValueRef<'a>, Rule>
    requires { above ≤ max_nesting }
    ensures exact { Gives json_of result (json_in (means (names_of meta.entry) bytes.now above)) }
    ensures inside { IfOk result (λ value. LiesIn value bytes.now) }
    ensures metadata { IfOk result (λ value. HasMetadata value (bytes_of meta.entry)) }
{
    let room = MAX_NESTING - above;
    match check(&meta, bytes, room) {
        Ok(_) => Ok(opened(meta, bytes, room)),
        Err(rule) => Err(rule),
    }
}
