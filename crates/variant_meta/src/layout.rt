//! Where the parts of metadata lie.

ghost use Rattle.std.specs.Prelude.{◌≡◌, ◌+◌, ◌<◌, ◌≤◌, ◌^◌, ◌↔◌, length, IsSome, IfSome};
ghost use Rattle.variant_meta.specs.Metadata.{version, sorted_strings, offset_size, dictionary_size, names_start, offset, falls_from, offsets_fall};

use vs_bytes::number_at;

// The version that is read and written.
pub(crate) const VERSION: u8 = 1;

/// Metadata whose size and offsets are there.
#[derive(Clone, Copy)]
pub(crate) struct Layout<'a> {
    pub(crate) bytes: &'a [u8],
    // The bytes of a number.
    pub(crate) width: usize,
    // How many names there are.
    pub(crate) count: usize,
    // Where the bytes of the names begin.
    pub(crate) start: usize,
    ghost width_is: { width ≡ offset_size bytes.now },
    ghost width_least: { 1 ≤ width },
    ghost width_most: { width ≤ 4 },
    ghost count_is: { count ≡ dictionary_size bytes.now },
    ghost count_most: { count < 2 ^ 32 },
    ghost start_is: { start ≡ names_start bytes.now },
    ghost start_most: { start < 2 ^ 35 },
    ghost inside: { start ≤ length bytes.now },
}

#[tactic(auto, unfolding(crate::specs::Metadata::header, crate::specs::Metadata::version))]
pub(crate) fn version(bytes: &[u8]) -> u8
    requires { 0 < length bytes.now }
    ensures { result ≡ version bytes.now }
{
    bytes[0] % 16
}

#[tactic(auto, unfolding(crate::specs::Metadata::header, crate::specs::Metadata::sorted_strings))]
pub(crate) fn sorted_strings(bytes: &[u8]) -> bool
    requires { 0 < length bytes.now }
    ensures { result ≡ sorted_strings bytes.now }
{
    bytes[0] / 16 % 2 == 1
}

#[tactic(auto, unfolding(crate::specs::Metadata::header, crate::specs::Metadata::offset_size))]
fn offset_size(bytes: &[u8]) -> usize
    requires { 0 < length bytes.now }
    ensures value { result ≡ offset_size bytes.now }
    ensures least { 1 ≤ result }
    ensures most { result ≤ 4 }
{
    usize::from(bytes[0] / 64) + 1
}

impl<'a> Layout<'a> {
    /// The layout, or `None` where size or offsets pass the end.
    #[tactic(auto, using(crate::proofs::Offsets::start_small), unfolding(crate::specs::Metadata::dictionary_size, crate::specs::Metadata::names_start))]
    pub(crate) fn of(bytes: &'a [u8]) -> Option<Layout<'a>>
        requires { 0 < length bytes.now }
        ensures whole { IsSome result ↔ (names_start bytes.now ≤ length bytes.now) }
        ensures same { IfSome result (λ layout. layout.bytes.now ≡ bytes.now) }
    {
        let width = offset_size(bytes);
        if bytes.len() < 1 + width {
            return None;
        }
        let count = number_at(bytes, 1, width) as usize;
        let start = 1 + (count + 2) * width;
        if bytes.len() < start {
            return None;
        }
        Some(Layout {
            bytes,
            width,
            count,
            start,
        })
    }

    /// Offset `i`, the last one being that of the count.
    #[tactic(auto, using(crate::proofs::Offsets::offset_room), unfolding(crate::specs::Metadata::offset, crate::specs::Metadata::names_start))]
    pub(crate) fn offset(&self, i: usize) -> usize
        requires { i ≤ self.now.count }
        ensures value { result ≡ offset self.now.bytes.now i }
        ensures fits { result < 2 ^ 32 }
    {
        number_at(self.bytes, 1 + (i + 1) * self.width, self.width) as usize
    }

    // Whether some offset is less than the one before.
    fn some_falls(&self) -> bool
        ensures { result ≡ falls_from self.now.bytes.now 0 self.now.count }
    {
        let mut before = self.offset(0);
        for i in 0..self.count {
            let next = self.offset(i + 1);
            if next < before {
                return true;
            }
            before = next;
        }
        false
    }

    /// Whether the first offset isn't 0, or an offset is less than the one before.
    #[tactic(auto, using(std::proofs::lemmas::Bool::Decides::nat_tests), unfolding(crate::specs::Metadata::offsets_fall))]
    pub(crate) fn offsets_fall(&self) -> bool
        ensures { result ≡ offsets_fall self.now.bytes.now }
    {
        self.offset(0) > 0 || self.some_falls()
    }
}
