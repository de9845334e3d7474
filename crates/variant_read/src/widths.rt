//! Ids and offsets whose width is known.

ghost use Rattle.std.specs.Prelude.{◌≡◌, ◌<◌, true};
ghost use Rattle.variant_read.specs.Layout.{id_size, offset_size, field_id, offset};

use crate::layout::Layout;
use vs_bytes::Le;

impl<'a> Layout<'a> {
    /// The id of field `k`.
    #[tactic(auto, using(crate::proofs::Rooms::number_room), unfolding(crate::specs::Layout::id_place, crate::specs::Layout::offset_place, crate::specs::Layout::fixed_size, crate::specs::Layout::field_id))]
    pub(crate) fn id_of_width<const IW: usize>(&self, k: usize) -> u32
        requires object { self.now.object ≡ true }
        requires width { id_size self.now.bytes.now ≡ IW }
        requires inside { k < self.now.len }
        ensures { result ≡ field_id self.now.bytes.now k }
    {
        Le::<IW>::read(self.bytes, self.ids + k * IW)
    }

    /// Where item `k` begins in the region.
    #[tactic(auto, using(crate::proofs::Rooms::number_room), unfolding(crate::specs::Layout::id_place, crate::specs::Layout::offset_place, crate::specs::Layout::fixed_size, crate::specs::Layout::offset))]
    pub(crate) fn offset_of_width<const OW: usize>(&self, k: usize) -> usize
        requires width { offset_size self.now.bytes.now ≡ OW }
        requires inside { k < self.now.len }
        ensures { result ≡ offset self.now.bytes.now k }
    {
        Le::<OW>::read(self.bytes, self.offsets + k * OW) as usize
    }
}
