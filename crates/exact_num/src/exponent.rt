//! Exponents.

ghost use Rattle.std.specs.Prelude.{◌^◌, ◌≤◌};

/// An exponent: 10 to the power of `size`, to multiply by, or to divide by where `down`. A size from
/// 10 ^ 24 on is cut to that, which no text is long enough to make up for.
#[derive(Clone, Copy)]
pub(crate) struct CutExponent {
    pub(crate) down: bool,
    pub(crate) size: u128,
    ghost cut: { size ≤ 10 ^ 24 },
}
