//! The names of metadata whose offsets are in order.

ghost use Rattle.std.specs.Prelude.{◌≡◌, ◌+◌, ◌<◌, ◌≤◌, ◌↔◌, true, false, length, IsSome, IfSome};
ghost use Rattle.std.specs.List.{list_all};
ghost use Rattle.std.specs.Str.{is_utf8};
ghost use Rattle.vs_bytes.specs.Numbers.{IsPart};
ghost use Rattle.variant_meta.specs.Metadata.{names_start, last_offset, all_names, offsets_fall};
ghost use Rattle.variant_meta.specs.Names.{name_at, names_rise, place_of, AllBefore, NoneBefore};

use crate::layout::Layout;
use crate::name_order::is_before;
use vs_bytes::{is_utf8, part};

/// Metadata whose offsets are in order and inside the bytes.
#[derive(Clone, Copy)]
pub(crate) struct HeldNames<'a> {
    pub(crate) layout: Layout<'a>,
    ghost steady: { offsets_fall layout.bytes.now ≡ false },
    ghost inside: { names_start layout.bytes.now + last_offset layout.bytes.now ≤ length layout.bytes.now },
    ghost count_is: { layout.count ≡ length (all_names layout.bytes.now) },
}

impl<'a> HeldNames<'a> {
    /// The names, or `None` where the last offset passes the end.
    #[tactic(auto, using(crate::proofs::Offsets::all_len), unfolding(crate::specs::Metadata::last_offset))]
    pub(crate) fn of(layout: Layout<'a>) -> Option<HeldNames<'a>>
        requires { offsets_fall layout.bytes.now ≡ false }
        ensures whole { IsSome result ↔ (names_start layout.entry.bytes.now + last_offset layout.entry.bytes.now ≤ length layout.entry.bytes.now) }
        ensures same { IfSome result (λ held. held.layout.bytes.now ≡ layout.entry.bytes.now) }
    {
        if layout.bytes.len() < layout.start + layout.offset(layout.count) {
            return None;
        }
        Some(HeldNames { layout })
    }

    /// The bytes of name `i`.
    #[tactic(auto, using(crate::proofs::Offsets::name_inside, crate::proofs::Offsets::all_at, crate::proofs::Offsets::all_len), unfolding(crate::specs::Metadata::name))]
    pub(crate) fn name(&self, i: usize) -> &'a [u8]
        requires { i < self.now.layout.count }
        ensures value { result.now ≡ name_at (all_names self.now.layout.bytes.now) i }
        ensures inside { IsPart result.now self.now.layout.bytes.now }
    {
        let layout = self.layout;
        let begin = layout.offset(i);
        part(
            layout.bytes,
            layout.start + begin,
            layout.offset(i + 1) - begin,
        )
    }

    /// Whether each name is UTF-8.
    #[tactic(auto, using(crate::proofs::Places::drop_name, crate::proofs::Places::drop_all))]
    pub(crate) fn are_utf8(&self) -> bool
        ensures { result ≡ list_all is_utf8 (all_names self.now.layout.bytes.now) }
    {
        for i in 0..self.layout.count {
            if !is_utf8(self.name(i)) {
                return false;
            }
        }
        true
    }

    /// Whether each name is greater by bytes than the one before.
    #[tactic(auto, using(crate::proofs::Places::rise_stop, crate::proofs::Places::rise_on, crate::proofs::Places::drop_name, crate::proofs::Places::drop_all))]
    pub(crate) fn rise(&self) -> bool
        ensures { result ≡ names_rise (all_names self.now.layout.bytes.now) }
    {
        if self.layout.count == 0 {
            return true;
        }
        let mut before = self.name(0);
        for i in 1..self.layout.count {
            let name = self.name(i);
            if is_before(before, name) {
                before = name;
            } else {
                return false;
            }
        }
        true
    }

    /// The least place of a name, or the count of all where it isn't among them. Each name may be looked at.
    #[tactic(auto, using(crate::proofs::Places::drop_name, crate::proofs::Places::drop_all))]
    pub(crate) fn scan(&self, name: &[u8]) -> usize
        ensures { result ≡ place_of (all_names self.now.layout.bytes.now) name.now }
    {
        for id in 0..self.layout.count {
            if self.name(id) == name {
                return id;
            }
        }
        self.layout.count
    }

    // The least place of a name that doesn't come before `name`, or the count of all.
    #[tactic(auto, using(crate::proofs::Places::raise, crate::proofs::Places::lower))]
    fn lower_bound(&self, name: &[u8]) -> usize
        requires { names_rise (all_names self.now.layout.bytes.now) ≡ true }
        ensures most { result ≤ self.now.layout.count }
        ensures before { AllBefore (all_names self.now.layout.bytes.now) name.now result }
        ensures after { NoneBefore (all_names self.now.layout.bytes.now) name.now result }
    {
        let mut low = 0;
        let mut high = self.layout.count;
        while low < high {
            let middle = low + (high - low) / 2;
            if is_before(self.name(middle), name) {
                low = middle + 1;
            } else {
                high = middle;
            }
        }
        low
    }

    /// The least place of a name, or the count of all where it isn't among them, by halving.
    #[tactic(auto, using(crate::proofs::Places::found, crate::proofs::Places::absent_last, crate::proofs::Places::absent_here))]
    pub(crate) fn search(&self, name: &[u8]) -> usize
        requires { names_rise (all_names self.now.layout.bytes.now) ≡ true }
        ensures { result ≡ place_of (all_names self.now.layout.bytes.now) name.now }
    {
        let place = self.lower_bound(name);
        if place == self.layout.count {
            return place;
        }
        if self.name(place) == name {
            return place;
        }
        self.layout.count
    }
}
