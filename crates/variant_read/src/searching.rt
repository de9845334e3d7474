//! Fields by their names.

ghost use Rattle.std.specs.Prelude.{◌≡◌, ◌<◌, ◌≤◌, IfSome, length};
ghost use Rattle.vs_bytes.specs.Outcome.{Finds};
ghost use Rattle.variant_meta.specs.Names.{name_at, place_of, AllBefore, NoneBefore};
ghost use Rattle.variant_read.specs.Items.{member_names};
ghost use Rattle.variant_read.specs.Trees.{member_named};
ghost use Rattle.variant_read.specs.View.{members_of, json_of, object_bytes, object_metadata, LiesIn, HasMetadata};

use crate::views::{ObjectRef, ValueRef};
use variant_meta::is_before;

impl<'a, const OW: usize, const IW: usize> ObjectRef<'a, OW, IW> {
    #[tactic(auto, using(crate::proofs::Members::held_members_len, crate::proofs::Members::id_known, crate::proofs::Members::member_name_at), unfolding(crate::specs::View::members_of))]
    fn name_bytes(&self, k: usize) -> &'a [u8]
        requires { k < length (members_of self.now.view) }
        ensures { result.now ≡ name_at (member_names (members_of self.now.view)) k }
    {
        let of = &self.view.of;
        of.meta.name(of.layout.id_of_width::<IW>(k)).as_bytes()
    }

    // The least place of a field whose name doesn't come before `name`, or the count of all.
    #[tactic(auto, using(crate::proofs::Members::raise_members, crate::proofs::Members::lower_members), unfolding(crate::specs::View::members_of))]
    fn lower_bound(&self, name: &[u8]) -> usize
        ensures most { result ≤ length (members_of self.now.view) }
        ensures before { AllBefore (member_names (members_of self.now.view)) name.now result }
        ensures after { NoneBefore (member_names (members_of self.now.view)) name.now result }
    {
        let mut low = 0;
        let mut high = self.len();
        while low < high {
            let middle = low + (high - low) / 2;
            if is_before(self.name_bytes(middle), name) {
                low = middle + 1;
            } else {
                high = middle;
            }
        }
        low
    }

    // The place of a name, or the count of all where it isn't among the names.
    #[tactic(auto, using(crate::proofs::Members::found_member, crate::proofs::Members::no_member_last, crate::proofs::Members::no_member_here), unfolding(crate::specs::View::members_of))]
    fn place(&self, name: &[u8]) -> usize
        ensures { result ≡ place_of (member_names (members_of self.now.view)) name.now }
    {
        let place = self.lower_bound(name);
        if place == self.len() {
            return place;
        }
        if self.name_bytes(place) == name {
            return place;
        }
        self.len()
    }

    /// The value of the field of that name, by halving. It takes time logarithmic in the number of fields.
    #[tactic(auto, using(crate::proofs::Members::named_there, crate::proofs::Members::named_nowhere, crate::proofs::Members::place_within))]
    pub fn get(&self, name: &str) -> Option<ValueRef<'a>>
        ensures value { Finds json_of result (member_named name.now (members_of self.now.view)) }
        ensures inside { IfSome result (λ value. LiesIn value (object_bytes self.now.view)) }
        ensures metadata { IfSome result (λ value. HasMetadata value (object_metadata self.now.view)) }
    {
        let place = self.place(name.as_bytes());
        if place == self.len() {
            return None;
        }
        Some(self.item(place))
    }
}
