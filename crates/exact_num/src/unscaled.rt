//! Integers of a fixed count of bytes: two's complement, in either order of the bytes. Decimals of file formats
//! have their unscaled integers in this form.

ghost use Rattle.std.specs.Prelude.{◌≡◌, ◌+◌, ◌≤◌, ◌++◌, ℕ, ℤ, List, length, OnOk, OnErr};
ghost use Rattle.exact_num.specs.Unscaled.{FitsBytes, little_integer, big_integer, little_integer_bytes, big_integer_bytes};

use byteorder::{BigEndian, ByteOrder, LittleEndian};
use vs_bytes::{NoMemory, rest};

/// Integers of `W` bytes, from 1 to 16.
pub struct Unscaled<const W: usize>;

impl<const W: usize> Unscaled<W> {
    /// The integer in the `W` bytes from `at` on, the lowest byte first.
    pub fn little(bytes: &[u8], at: usize) -> i128
        requires least { 1 ≤ W }
        requires most { W ≤ 16 }
        requires inside { at + W ≤ length bytes.now }
        ensures { result ≡ little_integer bytes.now at W }
    {
        LittleEndian::read_int128(rest(bytes, at), W)
    }

    /// The integer in the `W` bytes from `at` on, the highest byte first.
    pub fn big(bytes: &[u8], at: usize) -> i128
        requires least { 1 ≤ W }
        requires most { W ≤ 16 }
        requires inside { at + W ≤ length bytes.now }
        ensures { result ≡ big_integer bytes.now at W }
    {
        BigEndian::read_int128(rest(bytes, at), W)
    }

    /// Appends the `W` bytes of an integer, the lowest first. After an `Err` the bytes are as before.
    pub fn write_little(into: &mut Vec<u8>, number: i128) -> Result<(), NoMemory>
        requires least { 1 ≤ W }
        requires most { W ≤ 16 }
        requires fits { FitsBytes W number }
        ensures ok { OnOk result (into.new.items ≡ into.old.items ++ little_integer_bytes W number) }
        ensures err { OnErr result (into.new.items ≡ into.old.items) }
    {
        let mut bytes = [0u8; 16];
        LittleEndian::write_int128(&mut bytes, number, W);
        into.extend_from_slice(&bytes[..W])?;
        Ok(())
    }

    /// Appends the `W` bytes of an integer, the highest first. After an `Err` the bytes are as before.
    pub fn write_big(into: &mut Vec<u8>, number: i128) -> Result<(), NoMemory>
        requires least { 1 ≤ W }
        requires most { W ≤ 16 }
        requires fits { FitsBytes W number }
        ensures ok { OnOk result (into.new.items ≡ into.old.items ++ big_integer_bytes W number) }
        ensures err { OnErr result (into.new.items ≡ into.old.items) }
    {
        let mut bytes = [0u8; 16];
        BigEndian::write_int128(&mut bytes, number, W);
        into.extend_from_slice(&bytes[..W])?;
        Ok(())
    }
}

/// The integer of 1 to 16 bytes, the highest byte first.
pub fn big_of(bytes: &[u8]) -> i128
    requires least { 1 ≤ length bytes.now }
    requires most { length bytes.now ≤ 16 }
    ensures { result ≡ big_integer bytes.now 0 (length bytes.now) }
{
    BigEndian::read_int128(bytes, bytes.len())
}

/// The bytes of an integer mean the integer, whatever bytes follow them. A law: the function does nothing.
pub fn integers_read_back()
    ensures { (width : ℕ) (z : ℤ) (rest : List ℕ) → 1 ≤ width → FitsBytes width z → little_integer (little_integer_bytes width z ++ rest) 0 width ≡ z }
{}
