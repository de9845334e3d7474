//! Bytes that lie in the value itself.

ghost use Rattle.std.specs.Prelude.{◌≡◌, ◌≤◌, length};

use std::marker::Model;

/// How many bytes take no allocation.
pub(crate) const SHORT_BYTES: usize = 22;

/// At most `SHORT_BYTES` bytes, which contracts see as their list.
#[derive(Debug, Drop)]
pub(crate) struct ShortBytes {
    // Bytes, so that the value has no gap and needs no alignment.
    len: u8,
    bytes: [u8; SHORT_BYTES],
}

impl Model for ShortBytes {
    ghost use Rattle.std.specs.Prelude.{◌≤◌, List, ℕ, take};

    ghost Value = { List ℕ };

    ghost view = { λ s. take s.len s.bytes };

    ghost invariant = { λ s. s.len ≤ 22 };
}

impl ShortBytes {
    /// A copy of `bytes`.
    pub(crate) fn from_slice(bytes: &[u8]) -> ShortBytes
        requires { length bytes.now ≤ 22 }
        ensures { result ≡ bytes.now }
    {
        let mut room = [0; SHORT_BYTES];
        room[..bytes.len()].copy_from_slice(bytes);
        ShortBytes {
            len: bytes.len() as u8,
            bytes: room,
        }
    }

    /// The bytes in place.
    pub(crate) fn as_slice(&self) -> &[u8]
        ensures { result.now ≡ self.now }
    {
        &self.bytes[..usize::from(self.len)]
    }
}
