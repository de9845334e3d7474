//! Metadata, read in place.

ghost use Rattle.std.specs.Prelude.{◌≡◌, ◌<◌, [], true, is_ok, length, Ok, IfOk, SomeIff};
ghost use Rattle.std.specs.List.{list_all};
ghost use Rattle.std.specs.Str.{is_utf8};
ghost use Rattle.vs_bytes.specs.Numbers.{IsPart};
ghost use Rattle.vs_bytes.specs.Outcome.{Gives};
ghost use Rattle.variant_meta.specs.Metadata.{sorted_strings, all_names, names};
ghost use Rattle.variant_meta.specs.Names.{names_rise, name_at, place_of, is_before};

use crate::held_names::HeldNames;
use crate::layout::{Layout, VERSION, sorted_strings, version};
use crate::name_order::is_before;
use vs_bytes::Rule;

/// The metadata of a Variant, read in place. Bytes after the last name are passed over.
#[derive(Clone, Copy)]
pub struct MetaRef<'a> {
    held: HeldNames<'a>,
    // Whether the names are known to rise.
    sorted: bool,
    ghost utf8: { list_all is_utf8 (all_names held.layout.bytes.now) ≡ true },
    ghost rising: { sorted ≡ true → names_rise (all_names held.layout.bytes.now) ≡ true },
}

// Metadata of no names: a version with sorted_strings set, their number, and the one offset.
const NO_NAMES: &[u8] = &[0x11, 0, 0];

impl<'a> MetaRef<'a> {
    ghost use Rattle.variant_meta.specs.MetaRefs.{names_of, bytes_of};

    /// Metadata of no names, for values that cite none.
    #[tactic(auto, using(crate::proofs::NoNames::width, crate::proofs::NoNames::count, crate::proofs::NoNames::start, crate::proofs::NoNames::steady, crate::proofs::NoNames::none, crate::proofs::NoNames::inside), unfolding(crate::specs::MetaRefs::names_of))]
    pub fn without_names() -> MetaRef<'a>
        ensures { names_of result ≡ [] }
    {
        let layout = Layout {
            bytes: NO_NAMES,
            width: 1,
            count: 0,
            start: 3,
        };
        MetaRef {
            held: HeldNames { layout },
            sorted: true,
        }
    }

    /// Views `bytes` as metadata, or names the first violation.
    #[tactic(auto, using(std::proofs::lemmas::Bool::Decides::nat_tests), unfolding(crate::specs::Metadata::names, crate::specs::MetaRefs::names_of, crate::specs::MetaRefs::bytes_of))]
    pub fn view(bytes: &'a [u8]) -> Result<MetaRef<'a>, Rule>
        ensures exact { Gives names_of result (names bytes.now) }
        ensures bytes { IfOk result (λ meta. bytes_of meta ≡ bytes.now) }
    {
        if bytes.is_empty() {
            return Err(Rule::MetaShort);
        }
        if version(bytes) != VERSION {
            return Err(Rule::MetaVersion);
        }
        let Some(layout) = Layout::of(bytes) else {
            return Err(Rule::MetaShort);
        };
        if layout.offsets_fall() {
            return Err(Rule::MetaOffsets);
        }
        let Some(held) = HeldNames::of(layout) else {
            return Err(Rule::MetaShort);
        };
        if !held.are_utf8() {
            return Err(Rule::MetaUtf8);
        }
        let sorted = sorted_strings(bytes);
        if sorted && !held.rise() {
            return Err(Rule::MetaOrder);
        }
        Ok(MetaRef { held, sorted })
    }

    /// Views metadata that was judged, and doesn't judge it again.
    #[tactic(auto, using(std::proofs::lemmas::Bool::Decides::nat_tests), unfolding(crate::specs::Metadata::names, crate::specs::MetaRefs::names_of))]
    pub(crate) fn of_judged(bytes: &'a [u8]) -> MetaRef<'a>
        requires { is_ok (names bytes.now) ≡ true }
        ensures { names bytes.now ≡ Ok (names_of result) }
    {
        let Some(layout) = Layout::of(bytes) else {
            unreachable!()
        };
        let Some(held) = HeldNames::of(layout) else {
            unreachable!()
        };
        MetaRef {
            held,
            sorted: sorted_strings(bytes),
        }
    }

    /// How many names there are.
    #[tactic(auto, unfolding(crate::specs::MetaRefs::names_of))]
    pub fn len(&self) -> usize
        ensures { result ≡ length (names_of self.now) }
    {
        self.held.layout.count
    }

    /// The name of an id.
    #[tactic(auto, using(crate::proofs::Places::name_utf8), unfolding(crate::specs::MetaRefs::names_of, crate::specs::MetaRefs::bytes_of))]
    pub fn name(&self, id: u32) -> &'a str
        requires { id < length (names_of self.now) }
        ensures value { result.now ≡ name_at (names_of self.now) id }
        ensures inside { IsPart result.now (bytes_of self.now) }
    {
        let name = self.held.name(id as usize);
        unsafe { std::str::from_utf8_unchecked(name) }
    }

    /// Whether the name of an id comes before that of another by bytes.
    #[tactic(auto, using(crate::proofs::Places::places_order), unfolding(crate::specs::MetaRefs::names_of))]
    pub fn comes_before(&self, id: u32, other: u32) -> bool
        requires id { id < length (names_of self.now) }
        requires other { other < length (names_of self.now) }
        ensures { result ≡ is_before (name_at (names_of self.now) id) (name_at (names_of self.now) other) }
    {
        if self.sorted {
            return id < other;
        }
        is_before(self.held.name(id as usize), self.held.name(other as usize))
    }

    // The least place of a name, or the count of all where it isn't among them.
    #[tactic(auto, unfolding(crate::specs::MetaRefs::names_of))]
    fn place(&self, name: &[u8]) -> usize
        ensures { result ≡ place_of (names_of self.now) name.now }
    {
        if self.sorted {
            return self.held.search(name);
        }
        self.held.scan(name)
    }

    /// The least id of a name, or `None` where the name isn't there.
    #[tactic(auto, using(crate::proofs::Places::place_most), unfolding(crate::specs::MetaRefs::names_of))]
    pub fn find(&self, name: &str) -> Option<u32>
        ensures { SomeIff result (place_of (names_of self.now) name.now < length (names_of self.now)) (place_of (names_of self.now) name.now) }
    {
        let place = self.place(name.as_bytes());
        if place == self.held.layout.count {
            return None;
        }
        Some(place as u32)
    }
}
