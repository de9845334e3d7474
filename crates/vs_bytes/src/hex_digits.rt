//! Bytes in hex digits.

ghost use Rattle.std.specs.Prelude.{◌≡◌, ◌++◌, OnOk, OnErr};
ghost use Rattle.vs_bytes.specs.Hex.{hex_of};

use crate::memory::NoMemory;
use hex::encode_to_slice;

/// Appends the bytes in lower-case hex digits, two a byte. After an `Err` the output is as before.
pub fn hex(into: &mut Vec<u8>, bytes: &[u8]) -> Result<(), NoMemory>
    ensures ok { OnOk result (into.new.items ≡ into.old.items ++ hex_of bytes.now) }
    ensures err { OnErr result (into.new.items ≡ into.old.items) }
{
    let before = into.len();
    let Some(len) = bytes.len().checked_mul(2) else {
        return Err(NoMemory);
    };
    let Some(end) = before.checked_add(len) else {
        return Err(NoMemory);
    };
    into.resize(end, 0)?;
    match encode_to_slice(bytes, &mut into[before..]) {
        Ok(()) => Ok(()),
        Err(_) => unreachable!(),
    }
}
