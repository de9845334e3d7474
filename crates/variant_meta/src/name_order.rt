//! The order of names.

ghost use Rattle.std.specs.Prelude.{◌≡◌};
ghost use Rattle.variant_meta.specs.Names.{is_before};

/// Whether a name comes before another by bytes.
pub fn is_before(name: &[u8], other: &[u8]) -> bool
    ensures { result ≡ is_before name.now other.now }
{
    name.cmp(other).is_lt()
}
