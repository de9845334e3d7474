//! The fields of objects.

ghost use Rattle.std.specs.Prelude.{◌≡◌, ◌<◌, ◌↔◌, true, Some, IsSome, IfSome, slice_get, length};
ghost use Rattle.std.specs.Option.{option_map};
ghost use Rattle.vs_bytes.specs.Numbers.{IsPart};
ghost use Rattle.vs_bytes.specs.Outcome.{Finds};
ghost use Rattle.variant_meta.specs.Names.{names_rise};
ghost use Rattle.variant_read.specs.Items.{member_names};
ghost use Rattle.variant_read.specs.Trees.{member_named};
ghost use Rattle.variant_read.specs.View.{members_of, json_of, object_bytes, object_metadata, object_offset_size, object_id_size, LiesIn, HasMetadata};

use crate::views::{ObjectRef, ObjectView, ValueRef};

// A call at the instance for the widths.
macro_rules! by_width {
    ($widths:expr, $view:expr, $($call:tt)*) => {
        match $widths {
            (1, 1) => ObjectRef::<1, 1> { view: $view }.$($call)*,
            (1, 2) => ObjectRef::<1, 2> { view: $view }.$($call)*,
            (1, 3) => ObjectRef::<1, 3> { view: $view }.$($call)*,
            (1, _) => ObjectRef::<1, 4> { view: $view }.$($call)*,
            (2, 1) => ObjectRef::<2, 1> { view: $view }.$($call)*,
            (2, 2) => ObjectRef::<2, 2> { view: $view }.$($call)*,
            (2, 3) => ObjectRef::<2, 3> { view: $view }.$($call)*,
            (2, _) => ObjectRef::<2, 4> { view: $view }.$($call)*,
            (3, 1) => ObjectRef::<3, 1> { view: $view }.$($call)*,
            (3, 2) => ObjectRef::<3, 2> { view: $view }.$($call)*,
            (3, 3) => ObjectRef::<3, 3> { view: $view }.$($call)*,
            (3, _) => ObjectRef::<3, 4> { view: $view }.$($call)*,
            (_, 1) => ObjectRef::<4, 1> { view: $view }.$($call)*,
            (_, 2) => ObjectRef::<4, 2> { view: $view }.$($call)*,
            (_, 3) => ObjectRef::<4, 3> { view: $view }.$($call)*,
            (_, _) => ObjectRef::<4, 4> { view: $view }.$($call)*,
        }
    };
}

impl<'a> ObjectView<'a> {
    /// How many fields there are.
    #[tactic(auto, using(crate::proofs::Members::held_members_len), unfolding(crate::specs::View::members_of))]
    pub fn len(&self) -> usize
        ensures { result ≡ length (members_of self.now) }
    {
        self.of.layout.len
    }

    /// The names of the fields strictly rise by their bytes. The call does nothing.
    #[tactic(auto, using(crate::proofs::Members::held_names_rise), unfolding(crate::specs::View::members_of))]
    pub fn names_rise(&self)
        ensures { names_rise (member_names (members_of self.now)) ≡ true }
    {}

    /// The name of the field at `k`, counted from 0 in the order of the names.
    pub fn name(&self, k: usize) -> &'a str
        requires { k < length (members_of self.now) }
        ensures value { option_map (λ member. member.0) (slice_get (members_of self.now) k) ≡ Some result.now }
        ensures inside { IsPart result.now (object_metadata self.now) }
    {
        by_width!(
            (self.of.layout.width, self.of.layout.id_width),
            *self,
            name(k)
        )
    }

    /// The value of the field at `k`, counted from 0 in the order of the names.
    pub fn item(&self, k: usize) -> ValueRef<'a>
        requires { k < length (members_of self.now) }
        ensures value { option_map (λ member. member.1) (slice_get (members_of self.now) k) ≡ Some (json_of result) }
        ensures inside { LiesIn result (object_bytes self.now) }
        ensures metadata { HasMetadata result (object_metadata self.now) }
    {
        by_width!(
            (self.of.layout.width, self.of.layout.id_width),
            *self,
            item(k)
        )
    }

    /// The value of the field of that name. It takes time logarithmic in the number of fields.
    pub fn get(&self, name: &str) -> Option<ValueRef<'a>>
        ensures value { Finds json_of result (member_named name.now (members_of self.now)) }
        ensures inside { IfSome result (λ value. LiesIn value (object_bytes self.now)) }
        ensures metadata { IfSome result (λ value. HasMetadata value (object_metadata self.now)) }
    {
        by_width!(
            (self.of.layout.width, self.of.layout.id_width),
            *self,
            get(name)
        )
    }
}

impl<'a, const OW: usize, const IW: usize> ObjectRef<'a, OW, IW> {
    /// The object, or `None` where its offsets or ids have another count of bytes.
    #[tactic(auto, unfolding(crate::specs::View::object_offset_size, crate::specs::View::object_id_size))]
    pub fn of(view: ObjectView<'a>) -> Option<ObjectRef<'a, OW, IW>>
        ensures some { IsSome result ↔ ((object_offset_size view.entry ≡ OW) × (object_id_size view.entry ≡ IW)) }
        ensures same { IfSome result (λ object. object.view ≡ view.entry) }
    {
        if view.of.layout.width != OW || view.of.layout.id_width != IW {
            return None;
        }
        Some(ObjectRef { view })
    }

    /// How many fields there are.
    pub fn len(&self) -> usize
        ensures { result ≡ length (members_of self.now.view) }
    {
        self.view.len()
    }

    /// The name of the field at `k`, counted from 0 in the order of the names.
    #[tactic(auto, using(crate::proofs::Members::held_members_len, crate::proofs::Members::id_known, crate::proofs::Members::member_name_listed), unfolding(crate::specs::View::members_of, crate::specs::View::object_metadata))]
    pub fn name(&self, k: usize) -> &'a str
        requires { k < length (members_of self.now.view) }
        ensures value { option_map (λ member. member.0) (slice_get (members_of self.now.view) k) ≡ Some result.now }
        ensures inside { IsPart result.now (object_metadata self.now.view) }
    {
        let of = &self.view.of;
        of.meta.name(of.layout.id_of_width::<IW>(k))
    }

    /// The value of the field at `k`, counted from 0 in the order of the names.
    #[tactic(auto, using(crate::proofs::Members::held_members_len, crate::proofs::Items::item_within, crate::proofs::Items::item_ok, crate::proofs::Items::item_listed, crate::proofs::Members::member_value_listed), unfolding(crate::specs::View::members_of, crate::specs::View::object_bytes, crate::specs::View::object_metadata, crate::specs::Items::item_bytes))]
    pub fn item(&self, k: usize) -> ValueRef<'a>
        requires { k < length (members_of self.now.view) }
        ensures value { option_map (λ member. member.1) (slice_get (members_of self.now.view) k) ≡ Some (json_of result) }
        ensures inside { LiesIn result (object_bytes self.now.view) }
        ensures metadata { HasMetadata result (object_metadata self.now.view) }
    {
        let of = &self.view.of;
        of.item_from(of.layout.offset_of_width::<OW>(k))
    }
}
