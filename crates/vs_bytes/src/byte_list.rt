//! Owned bytes.

ghost use Rattle.std.specs.Prelude.{◌≡◌, ◌≤◌, [], length, IfOk};

use crate::memory::NoMemory;
use crate::short_bytes::{SHORT_BYTES, ShortBytes};
use std::alloc::Global;
use std::marker::Model;

// Most cells are short. The vector lies in a box, so that the cells of short bytes stay small.
#[derive(Debug, Drop)]
pub(crate) enum HeldBytes {
    Short(ShortBytes),
    Long(Box<Vec<u8>>),
}

/// Owned bytes, which contracts see as their list.
///
/// At most 22 of them take no allocation.
#[derive(Debug, Drop)]
pub struct Bytes {
    held: HeldBytes,
}

// Entries and records hold one of these for each cell.
const _: () = prove!(size_of::<Bytes>() == 24);

impl Model for Bytes {
    ghost use Rattle.std.specs.Prelude.{List, ℕ};
    ghost use Rattle.vs_bytes.specs.HeldBytes.{bytes_of};

    ghost Value = { List ℕ };

    ghost view = { λ b. bytes_of b.held };
}

impl Bytes {
    /// No bytes.
    pub fn new() -> Bytes
        ensures { result ≡ [] }
    {
        Bytes::short(&[])
    }

    /// A copy of `bytes`.
    pub fn from_slice(alloc: Global, bytes: &[u8]) -> Result<Bytes, NoMemory>
        ensures { IfOk result (λ b. b ≡ bytes.now) }
    {
        if bytes.len() <= SHORT_BYTES {
            return Ok(Bytes::short(bytes));
        }
        Bytes::long(Vec::from_slice(alloc, bytes)?)
    }

    /// The bytes of a vector, which it takes over. More than 22 need memory for the box of the vector: where there is
    /// none, the vector is gone.
    pub fn from_vec(bytes: Vec<u8>) -> Result<Bytes, NoMemory>
        ensures { IfOk result (λ b. b ≡ bytes.items) }
    {
        if bytes.len() <= SHORT_BYTES {
            return Ok(Bytes::short(bytes.as_slice()));
        }
        Bytes::long(bytes)
    }

    fn short(bytes: &[u8]) -> Bytes
        requires { length bytes.now ≤ 22 }
        ensures { result ≡ bytes.now }
    {
        Bytes {
            held: HeldBytes::Short(ShortBytes::from_slice(bytes)),
        }
    }

    fn long(bytes: Vec<u8>) -> Result<Bytes, NoMemory>
        ensures { IfOk result (λ b. b ≡ bytes.items) }
    {
        let alloc = *bytes.allocator();
        Ok(Bytes {
            held: HeldBytes::Long(Box::new(alloc, bytes)?),
        })
    }

    /// The bytes in place.
    pub fn as_slice(&self) -> &[u8]
        ensures { result.now ≡ self.now }
    {
        match &self.held {
            HeldBytes::Short(bytes) => bytes.as_slice(),
            HeldBytes::Long(bytes) => bytes.as_slice(),
        }
    }
}
