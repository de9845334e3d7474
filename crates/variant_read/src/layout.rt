//! Where the parts of an object or array lie.

ghost use Rattle.std.specs.Prelude.{◌≡◌, ◌+◌, ◌*◌, ◌<◌, ◌≤◌, ◌^◌, ◌↔◌, length, true, IsSome, IfSome};
ghost use Rattle.vs_bytes.specs.Numbers.{number, IsPart};
ghost use Rattle.variant_read.specs.Layout.{basic_type, type_header, is_object, is_large, offset_size, id_size, count_size, count, id_place, field_id, offset, fixed_size, last_offset, region, container_size};

use variant_meta::OBJECT_TYPE;
use vs_bytes::{Le, number_at, part};

/// An object or array that is there in full.
#[derive(Clone, Copy)]
pub(crate) struct Layout<'a> {
    pub(crate) bytes: &'a [u8],
    // An object, and not an array.
    pub(crate) object: bool,
    // The bytes of an id, 0 in an array.
    pub(crate) id_width: usize,
    // The bytes of an offset.
    pub(crate) width: usize,
    // How many fields or elements there are.
    pub(crate) len: usize,
    // Where the ids begin, the offsets, and the items.
    pub(crate) ids: usize,
    pub(crate) offsets: usize,
    pub(crate) start: usize,
    // The bytes of all items.
    pub(crate) last: usize,
    ghost object_is: { object ≡ is_object bytes.now },
    ghost id_width_is: { id_width ≡ id_size bytes.now },
    ghost id_width_least: { object ≡ true → 1 ≤ id_width },
    ghost id_width_most: { id_width ≤ 4 },
    ghost width_is: { width ≡ offset_size bytes.now },
    ghost width_least: { 1 ≤ width },
    ghost width_most: { width ≤ 4 },
    ghost len_is: { len ≡ count bytes.now },
    ghost len_most: { len < 2 ^ 32 },
    ghost ids_is: { ids ≡ id_place bytes.now 0 },
    ghost ids_most: { ids ≤ 5 },
    ghost offsets_is: { offsets ≡ id_place bytes.now len },
    ghost start_is: { start ≡ fixed_size bytes.now },
    ghost start_most: { start < 2 ^ 36 },
    ghost last_is: { last ≡ last_offset bytes.now },
    ghost last_most: { last < 2 ^ 32 },
    ghost inside: { start + last ≤ length bytes.now },
}

// Numbers of more than 2 bytes are rare.
#[inline(never)]
fn wide_number(bytes: &[u8], from: usize, k: usize, width: usize) -> u32
    requires least { 1 ≤ width }
    requires most { width ≤ 4 }
    requires inside { from + k * width + width ≤ length bytes.now }
    ensures value { result ≡ number bytes.now (from + k * width) width }
    ensures fits { result < 256 ^ width }
{
    number_at(bytes, from + k * width, width)
}

// Number `k` of those of so many bytes each, the first of which begins at `from`.
#[inline(always)]
fn number_of(bytes: &[u8], from: usize, k: usize, width: usize) -> u32
    requires least { 1 ≤ width }
    requires most { width ≤ 4 }
    requires inside { from + k * width + width ≤ length bytes.now }
    ensures value { result ≡ number bytes.now (from + k * width) width }
    ensures fits { result < 256 ^ width }
{
    if width == 1 {
        return Le::<1>::read(bytes, from + k);
    }
    if width == 2 {
        return Le::<2>::read(bytes, from + k * 2);
    }
    wide_number(bytes, from, k, width)
}

#[tactic(auto, unfolding(crate::specs::Layout::basic_type))]
pub(crate) fn basic_type(bytes: &[u8]) -> u8
    requires { 0 < length bytes.now }
    ensures value { result ≡ basic_type bytes.now }
    ensures most { result < 4 }
{
    bytes[0] % 4
}

#[tactic(auto, unfolding(crate::specs::Layout::type_header))]
pub(crate) fn type_header(bytes: &[u8]) -> u8
    requires { 0 < length bytes.now }
    ensures value { result ≡ type_header bytes.now }
    ensures most { result < 64 }
{
    bytes[0] / 4
}

#[tactic(auto, unfolding(crate::specs::Layout::is_object))]
fn is_object(bytes: &[u8]) -> bool
    requires { 0 < length bytes.now }
    ensures { result ≡ is_object bytes.now }
{
    basic_type(bytes) == OBJECT_TYPE
}

#[tactic(auto, unfolding(crate::specs::Layout::offset_size))]
fn offset_size(bytes: &[u8]) -> usize
    requires { 0 < length bytes.now }
    ensures value { result ≡ offset_size bytes.now }
    ensures least { 1 ≤ result }
    ensures most { result ≤ 4 }
{
    usize::from(type_header(bytes) % 4) + 1
}

#[tactic(auto, unfolding(crate::specs::Layout::id_size))]
fn id_size(bytes: &[u8], object: bool) -> usize
    requires there { 0 < length bytes.now }
    requires object { object ≡ is_object bytes.now }
    ensures value { result ≡ id_size bytes.now }
    ensures least { object ≡ true → 1 ≤ result }
    ensures most { result ≤ 4 }
{
    if object {
        usize::from(type_header(bytes) / 4 % 4) + 1
    } else {
        0
    }
}

#[tactic(auto, unfolding(crate::specs::Layout::is_large))]
fn is_large(bytes: &[u8], object: bool) -> bool
    requires there { 0 < length bytes.now }
    requires object { object ≡ is_object bytes.now }
    ensures { result ≡ is_large bytes.now }
{
    if object {
        type_header(bytes) / 16 % 2 == 1
    } else {
        type_header(bytes) / 4 % 2 == 1
    }
}

#[tactic(auto, unfolding(crate::specs::Layout::count_size))]
fn count_size(bytes: &[u8], object: bool) -> usize
    requires there { 0 < length bytes.now }
    requires object { object ≡ is_object bytes.now }
    ensures value { result ≡ count_size bytes.now }
    ensures least { 1 ≤ result }
    ensures most { result ≤ 4 }
{
    if is_large(bytes, object) { 4 } else { 1 }
}

impl<'a> Layout<'a> {
    /// The layout, or `None` where the parts pass the end.
    #[tactic(auto, using(crate::proofs::Rooms::number_room, crate::proofs::Rooms::numbers_small), unfolding(crate::specs::Layout::count, crate::specs::Layout::id_place, crate::specs::Layout::offset_place, crate::specs::Layout::offset, crate::specs::Layout::fixed_size, crate::specs::Layout::last_offset, crate::specs::Layout::container_size))]
    pub(crate) fn of(bytes: &'a [u8]) -> Option<Layout<'a>>
        requires { 0 < length bytes.now }
        ensures whole { IsSome result ↔ (container_size bytes.now ≤ length bytes.now) }
        ensures same { IfSome result (λ layout. layout.bytes.now ≡ bytes.now) }
    {
        let object = is_object(bytes);
        let count_width = count_size(bytes, object);
        let ids = 1 + count_width;
        if bytes.len() < ids {
            return None;
        }
        let len = number_at(bytes, 1, count_width) as usize;
        let id_width = id_size(bytes, object);
        let width = offset_size(bytes);
        let offsets = ids + len * id_width;
        let start = offsets + (len + 1) * width;
        if bytes.len() < start {
            return None;
        }
        let last = number_of(bytes, offsets, len, width) as usize;
        if bytes.len() - start < last {
            return None;
        }
        Some(Layout {
            bytes,
            object,
            id_width,
            width,
            len,
            ids,
            offsets,
            start,
            last,
        })
    }

    /// The id of field `k`.
    #[inline(always)]
    #[tactic(auto, using(crate::proofs::Rooms::number_room), unfolding(crate::specs::Layout::id_place, crate::specs::Layout::offset_place, crate::specs::Layout::fixed_size, crate::specs::Layout::field_id))]
    pub(crate) fn field_id(&self, k: usize) -> u32
        requires object { self.now.object ≡ true }
        requires inside { k < self.now.len }
        ensures { result ≡ field_id self.now.bytes.now k }
    {
        number_of(self.bytes, self.ids, k, self.id_width)
    }

    /// Where item `k` begins in the region.
    #[inline(always)]
    #[tactic(auto, using(crate::proofs::Rooms::number_room), unfolding(crate::specs::Layout::id_place, crate::specs::Layout::offset_place, crate::specs::Layout::fixed_size, crate::specs::Layout::offset))]
    pub(crate) fn offset(&self, k: usize) -> usize
        requires { k < self.now.len }
        ensures value { result ≡ offset self.now.bytes.now k }
        ensures fits { result < 2 ^ 32 }
    {
        number_of(self.bytes, self.offsets, k, self.width) as usize
    }

    /// The bytes of the items.
    #[inline(always)]
    #[tactic(auto, unfolding(crate::specs::Layout::region))]
    pub(crate) fn region(&self) -> &'a [u8]
        ensures value { result.now ≡ region self.now.bytes.now }
        ensures inside { IsPart result.now self.now.bytes.now }
        ensures len { length result.now ≡ self.now.last }
    {
        part(self.bytes, self.start, self.last)
    }

    /// The bytes of the whole object or array.
    #[inline(always)]
    #[tactic(auto, unfolding(crate::specs::Layout::container_size))]
    pub(crate) fn size(&self) -> usize
        ensures { result ≡ container_size self.now.bytes.now }
    {
        self.start + self.last
    }
}
