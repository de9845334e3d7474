//! Objects and arrays that were judged: their items.

ghost use Rattle.std.specs.Prelude.{◌≡◌, ◌≤◌, true, is_ok, Ok, length, drop};
ghost use Rattle.variant_meta.specs.MetaRefs.{names_of, bytes_of};
ghost use Rattle.variant_read.specs.Layout.{region};
ghost use Rattle.variant_read.specs.Meaning.{value_within, json_in};
ghost use Rattle.variant_read.specs.View.{json_of, LiesIn, HasMetadata};

use crate::opening::opened;
use crate::views::{Container, ValueRef};
use vs_bytes::rest;

impl<'a> Container<'a> {
    /// The item that begins at an offset.
    #[tactic(auto, using(crate::proofs::Inside::item_lies))]
    pub(crate) fn item_from(&self, offset: usize) -> ValueRef<'a>
        requires inside { offset ≤ length (region self.now.layout.bytes.now) }
        requires judged { is_ok (value_within (names_of self.now.meta) self.now.room (drop offset (region self.now.layout.bytes.now))) ≡ true }
        ensures value { json_in (value_within (names_of self.now.meta) self.now.room (drop offset (region self.now.layout.bytes.now))) ≡ Ok (json_of result) }
        ensures inside { LiesIn result self.now.layout.bytes.now }
        ensures metadata { HasMetadata result (bytes_of self.now.meta) }
    {
        opened(self.meta, rest(self.layout.region(), offset), self.room)
    }
}
