//! The elements of arrays.

ghost use Rattle.std.specs.Prelude.{◌≡◌, ◌<◌, ◌↔◌, Some, IsSome, IfSome, slice_get, length};
ghost use Rattle.variant_read.specs.View.{elements_of, json_of, array_bytes, array_metadata, array_offset_size, LiesIn, HasMetadata};

use crate::views::{ArrayRef, ArrayView, ValueRef};

// A call at the instance for a width.
macro_rules! by_width {
    ($width:expr, $view:expr, $($call:tt)*) => {
        match $width {
            1 => ArrayRef::<1> { view: $view }.$($call)*,
            2 => ArrayRef::<2> { view: $view }.$($call)*,
            3 => ArrayRef::<3> { view: $view }.$($call)*,
            _ => ArrayRef::<4> { view: $view }.$($call)*,
        }
    };
}

impl<'a> ArrayView<'a> {
    /// How many elements there are.
    #[tactic(auto, using(crate::proofs::Items::held_len), unfolding(crate::specs::View::elements_of))]
    pub fn len(&self) -> usize
        ensures { result ≡ length (elements_of self.now) }
    {
        self.of.layout.len
    }

    /// The element at `k`, counted from 0.
    pub fn item(&self, k: usize) -> ValueRef<'a>
        requires { k < length (elements_of self.now) }
        ensures value { slice_get (elements_of self.now) k ≡ Some (json_of result) }
        ensures inside { LiesIn result (array_bytes self.now) }
        ensures metadata { HasMetadata result (array_metadata self.now) }
    {
        by_width!(self.of.layout.width, *self, item(k))
    }
}

impl<'a, const OW: usize> ArrayRef<'a, OW> {
    /// The array, or `None` where its offsets have another count of bytes.
    #[tactic(auto, unfolding(crate::specs::View::array_offset_size))]
    pub fn of(view: ArrayView<'a>) -> Option<ArrayRef<'a, OW>>
        ensures some { IsSome result ↔ (array_offset_size view.entry ≡ OW) }
        ensures same { IfSome result (λ array. array.view ≡ view.entry) }
    {
        if view.of.layout.width != OW {
            return None;
        }
        Some(ArrayRef { view })
    }

    /// How many elements there are.
    pub fn len(&self) -> usize
        ensures { result ≡ length (elements_of self.now.view) }
    {
        self.view.len()
    }

    /// The element at `k`, counted from 0.
    #[tactic(auto, using(crate::proofs::Items::held_len, crate::proofs::Items::item_within, crate::proofs::Items::item_ok, crate::proofs::Items::item_listed), unfolding(crate::specs::View::elements_of, crate::specs::View::array_bytes, crate::specs::View::array_metadata, crate::specs::Items::item_bytes))]
    pub fn item(&self, k: usize) -> ValueRef<'a>
        requires { k < length (elements_of self.now.view) }
        ensures value { slice_get (elements_of self.now.view) k ≡ Some (json_of result) }
        ensures inside { LiesIn result (array_bytes self.now.view) }
        ensures metadata { HasMetadata result (array_metadata self.now.view) }
    {
        let of = &self.view.of;
        of.item_from(of.layout.offset_of_width::<OW>(k))
    }
}
