//! Unsigned numbers of 1 to 4 bytes, the lowest byte first.

ghost use Rattle.std.specs.Prelude.{◌≡◌, ◌+◌, ◌<◌, ◌≤◌, ◌^◌, ◌++◌, ℕ, length, OnOk, OnErr};
ghost use Rattle.vs_bytes.specs.Numbers.{number, number_bytes, width_of};

use crate::memory::NoMemory;
use crate::slices::rest;
use byteorder::{ByteOrder, LittleEndian};

/// Numbers of `W` bytes, the lowest byte first.
pub struct Le<const W: usize>;

impl<const W: usize> Le<W> {
    /// The number in the `W` bytes from `at` on.
    pub fn read(bytes: &[u8], at: usize) -> u32
        requires least { 1 ≤ W }
        requires most { W ≤ 4 }
        requires inside { at + W ≤ length bytes.now }
        ensures value { result ≡ number bytes.now at W }
        ensures fits { result < 256 ^ W }
    {
        LittleEndian::read_uint(rest(bytes, at), W) as u32
    }

    /// Appends the `W` bytes of a number. After an `Err` the bytes are as before.
    pub fn write(into: &mut Vec<u8>, number: u32) -> Result<(), NoMemory>
        requires least { 1 ≤ W }
        requires most { W ≤ 4 }
        requires fits { number < 256 ^ W }
        ensures ok { OnOk result (into.new.items ≡ into.old.items ++ number_bytes W number) }
        ensures err { OnErr result (into.new.items ≡ into.old.items) }
    {
        let mut bytes = [0u8; 4];
        LittleEndian::write_uint(&mut bytes, u64::from(number), W);
        into.extend_from_slice(&bytes[..W])?;
        Ok(())
    }
}

/// The number in the `width` bytes from `at` on, for a width that only the run knows.
pub fn number_at(bytes: &[u8], at: usize, width: usize) -> u32
    requires least { 1 ≤ width }
    requires most { width ≤ 4 }
    requires inside { at + width ≤ length bytes.now }
    ensures value { result ≡ number bytes.now at width }
    ensures fits { result < 256 ^ width }
{
    match width {
        1 => Le::<1>::read(bytes, at),
        2 => Le::<2>::read(bytes, at),
        3 => Le::<3>::read(bytes, at),
        _ => Le::<4>::read(bytes, at),
    }
}

/// Appends the `width` bytes of a number, for a width that only the run knows. After an `Err` the bytes are as
/// before.
pub fn append_number(into: &mut Vec<u8>, width: usize, number: u32) -> Result<(), NoMemory>
    requires least { 1 ≤ width }
    requires most { width ≤ 4 }
    requires fits { number < 256 ^ width }
    ensures ok { OnOk result (into.new.items ≡ into.old.items ++ number_bytes width number) }
    ensures err { OnErr result (into.new.items ≡ into.old.items) }
{
    match width {
        1 => Le::<1>::write(into, number),
        2 => Le::<2>::write(into, number),
        3 => Le::<3>::write(into, number),
        _ => Le::<4>::write(into, number),
    }
}

/// The least count of bytes, from 1 to 4, that holds a number.
#[tactic(auto, unfolding(crate::specs::Numbers::width_of))]
pub fn width_of(number: u32) -> usize
    ensures exact { result ≡ width_of number }
    ensures holds { number < 256 ^ result }
    ensures least { (width : ℕ) → 1 ≤ width → number < 256 ^ width → result ≤ width }
    ensures range { (1 ≤ result) × (result ≤ 4) }
{
    if number < 256 {
        1
    } else if number < 65_536 {
        2
    } else if number < 16_777_216 {
        3
    } else {
        4
    }
}
