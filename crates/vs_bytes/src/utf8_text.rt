//! UTF-8 text.

ghost use Rattle.std.specs.Prelude.{◌≡◌, ◌==◌, IfOk, SomeIff, string_bytes};
ghost use Rattle.std.proofs.Common.{rules};
ghost use Rattle.std.specs.Cmp.{partial_order_from_own_ties};
ghost use Rattle.std.specs.Cmp.Rules.{comparing};
ghost use Rattle.std.specs.Cmp.Lexicographic.{slice_cmp, pointwise};
ghost use Rattle.std.specs.Ordering.{nat_cmp, as_partial_cmp};
ghost use Rattle.std.specs.Str.{IsUtf8, is_utf8};

use crate::memory::NoMemory;
use arrayvec::ArrayString;
use std::alloc::Global;
use std::cmp::Ordering;
use std::marker::Model;

/// How many bytes a text may have that needs no allocation.
const SHORT_TEXT: usize = 16;

// Most names and many values are short.
#[derive(Debug, Drop)]
pub(crate) enum HeldText {
    Short(ArrayString<SHORT_TEXT>),
    Long(String),
}

/// UTF-8 text, which contracts see as its bytes. Texts are ordered by their bytes.
///
/// One of at most 16 bytes takes no allocation.
#[derive(Debug, Drop)]
pub struct Text {
    held: HeldText,
}

impl Model for Text {
    ghost use Rattle.std.specs.Prelude.{List, ℕ};
    ghost use Rattle.vs_bytes.specs.HeldText.{held_bytes};

    ghost Value = { List ℕ };

    ghost view = { λ t. held_bytes t.held };
}

impl Text {
    /// A copy of `text`.
    pub fn from_str(alloc: Global, text: &str) -> Result<Text, NoMemory>
        ensures { IfOk result (λ t. t ≡ text.now) }
    {
        let held = match ArrayString::from(text) {
            Ok(short) => HeldText::Short(short),
            Err(_) => HeldText::Long(String::from_str(alloc, text)?),
        };
        Ok(Text { held })
    }

    /// A copy of bytes that are UTF-8.
    #[inline(always)]
    pub fn from_utf8_slice(alloc: Global, bytes: &[u8]) -> Result<Text, NoMemory>
        requires { IsUtf8 bytes.now }
        ensures { IfOk result (λ t. t ≡ bytes.now) }
    {
        Text::from_str(alloc, unsafe { std::str::from_utf8_unchecked(bytes) })
    }

    /// The text of a string, which it takes over.
    pub fn from_string(text: String) -> Text
        ensures { result ≡ string_bytes text }
    {
        Text {
            held: HeldText::Long(text),
        }
    }

    /// The text of bytes, which it takes over, or `None` where they aren't UTF-8.
    pub fn from_utf8(bytes: Vec<u8>) -> Option<Text>
        ensures { SomeIff result (IsUtf8 bytes.items) bytes.items }
    {
        match String::from_utf8(bytes) {
            Ok(text) => Some(Text {
                held: HeldText::Long(text),
            }),
            Err(_) => None,
        }
    }

    /// The text in place.
    pub fn as_str(&self) -> &str
        ensures { result.now ≡ self.now }
    {
        match &self.held {
            HeldText::Short(text) => text.as_str(),
            HeldText::Long(text) => text.as_str(),
        }
    }

    /// Its bytes in place.
    pub fn as_bytes(&self) -> &[u8]
        ensures { result.now ≡ self.now }
    {
        self.as_str().as_bytes()
    }
}

/// Whether bytes are UTF-8.
#[tactic(auto, using(crate::proofs::Utf8::ascii_is_text, crate::proofs::Utf8::is_text, crate::proofs::Utf8::no_text))]
pub fn is_utf8(bytes: &[u8]) -> bool
    ensures { result ≡ is_utf8 bytes.now }
{
    // Most texts are ASCII, which is told sooner.
    if bytes.is_ascii() {
        return true;
    }
    match std::str::from_utf8(bytes) {
        Ok(_) => true,
        Err(_) => false,
    }
}

impl PartialEq for Text {
    ghost eq = { pointwise ◌==◌ };

    ghost laws = { Prim.search (comparing, rules) };

    fn eq(&self, other: &Text) -> bool {
        self.as_str() == other.as_str()
    }
}

impl Eq for Text {
    ghost laws = { Prim.search (comparing, rules) };
}

impl Ord for Text {
    ghost cmp = { slice_cmp nat_cmp };

    ghost total = { Prim.search (comparing, rules) };

    ghost matches_partial_cmp = { Prim.search (comparing, rules) };

    ghost matches_eq = { Prim.search (comparing, rules) };

    fn cmp(&self, other: &Text) -> Ordering {
        self.as_str().cmp(other.as_str())
    }
}

impl PartialOrd for Text {
    ghost partial_cmp = { as_partial_cmp (slice_cmp nat_cmp) };

    ghost laws = { partial_order_from_own_ties (Prim.search (comparing, rules)) (Prim.search (comparing, rules)) };

    fn partial_cmp(&self, other: &Text) -> Option<Ordering> {
        Some(self.cmp(other))
    }
}
