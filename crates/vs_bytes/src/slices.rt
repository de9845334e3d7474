//! Parts of a byte slice.

ghost use Rattle.std.specs.Prelude.{◌≡◌, ◌+◌, ◌≤◌, ◌↔◌, IsSome, IfSome, drop, length};
ghost use Rattle.vs_bytes.specs.Numbers.{part, IsPart};

/// The `len` bytes from `at` on, or `None` where they pass the end of `bytes`.
pub fn cut(bytes: &[u8], at: usize, len: usize) -> Option<&[u8]>
    ensures inside { IsSome result ↔ (at + len ≤ length bytes.now) }
    ensures part { IfSome result (λ cut. cut.now ≡ part bytes.now at len) }
{
    let end = at.checked_add(len)?;
    bytes.get(at..end)
}

/// The `len` bytes from `at` on.
#[tactic(auto, using(crate::proofs::Parts::part_is))]
pub fn part(bytes: &[u8], at: usize, len: usize) -> &[u8]
    requires { at + len ≤ length bytes.now }
    ensures value { result.now ≡ part bytes.now at len }
    ensures inside { IsPart result.now bytes.now }
{
    &bytes[at..at + len]
}

/// The bytes from `at` on.
pub fn rest(bytes: &[u8], at: usize) -> &[u8]
    requires { at ≤ length bytes.now }
    ensures { result.now ≡ drop at bytes.now }
{
    &bytes[at..]
}
