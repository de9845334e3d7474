//! Metadata that comes again.

ghost use Rattle.std.specs.Prelude.{◌≡◌, [], true, is_ok};
ghost use Rattle.vs_bytes.specs.Outcome.{Gives};
ghost use Rattle.variant_meta.specs.Metadata.{names};
ghost use Rattle.variant_meta.specs.MetaRefs.{names_of};

use crate::meta_ref::MetaRef;
use std::alloc::Global;
use std::marker::Model;
use vs_bytes::Rule;

/// The metadata that was judged last: where the same bytes come again, they aren't judged again. Rows of a file mostly
/// have the names of the row before.
///
/// Contracts see the bytes.
#[derive(Drop)]
pub struct KnownMeta {
    bytes: Vec<u8>,
    is_judged: bool,
}

impl Model for KnownMeta {
    ghost use Rattle.std.specs.Prelude.{List, ℕ, ◌≡◌, true, is_ok};
    ghost use Rattle.variant_meta.specs.Metadata.{names};

    ghost Value = { List ℕ };

    ghost view = { λ k. k.bytes.items };

    ghost invariant = { λ k. k.is_judged ≡ true → is_ok (names k.bytes.items) ≡ true };
}

impl KnownMeta {
    /// None yet.
    pub fn new(alloc: Global) -> KnownMeta
        ensures { result ≡ [] }
    {
        KnownMeta {
            bytes: Vec::new(alloc),
            is_judged: false,
        }
    }

    /// Views `bytes` as metadata, or names the first violation, as `MetaRef::view` does.
    pub fn view<'a>(&mut self, bytes: &'a [u8]) -> Result<MetaRef<'a>, Rule>
        ensures exact { Gives names_of result (names bytes.now) }
    {
        if self.is_judged && self.bytes.as_slice() == bytes {
            return Ok(MetaRef::of_judged(bytes));
        }
        let meta = MetaRef::view(bytes)?;
        self.keep(bytes);
        Ok(meta)
    }

    // Keeps metadata that was judged. Without memory for it none is kept, and what comes next is judged.
    fn keep(&mut self, bytes: &[u8])
        requires { is_ok (names bytes.now) ≡ true }
    {
        self.is_judged = false;
        self.bytes.clear();
        if let Ok(()) = self.bytes.extend_from_slice(bytes) {
            self.is_judged = true;
        }
    }
}
