//! Bytes, numbers and parts of rows.

use crate::tables::Wrong;
use std::alloc::{AllocError, Global};
use vs_bytes::NoMemory;

// The value of a hex digit.
fn digit(byte: u8) -> u8 {
    match byte {
        b'0'..=b'9' => byte - b'0',
        b'a'..=b'f' => byte - b'a' + 10,
        _ => 0,
    }
}

/// The bytes that hex digits stand for. Spaces are passed over.
pub fn bytes_of(alloc: Global, digits: &str) -> Result<Vec<u8>, NoMemory> {
    let mut bytes = Vec::new(alloc);
    let mut high = None;
    for byte in digits.as_bytes() {
        if *byte != b' ' {
            match high {
                Some(first) => {
                    bytes.push(first << 4 | digit(*byte))?;
                    high = None;
                }
                None => high = Some(digit(*byte)),
            }
        }
    }
    Ok(bytes)
}

/// The number that decimal digits stand for.
pub fn number_of(alloc: Global, digits: &str) -> Result<u32, Wrong> {
    match digits.parse::<u32>() {
        Ok(number) => Ok(number),
        Err(_) => Err(Wrong::Parts(digits.to_string(alloc)?)),
    }
}

/// The first part of a row, and the others.
pub fn split_row<'a>(alloc: Global, row: &'a str) -> Result<(&'a str, &'a str), Wrong> {
    match row.split_once(" | ") {
        Some(parts) => Ok(parts),
        None => Err(Wrong::Parts(row.to_string(alloc)?)),
    }
}

/// The hex digits of bytes.
pub fn hex_text(alloc: Global, bytes: &[u8]) -> Result<String, AllocError> {
    let mut text = String::new(alloc);
    for byte in bytes {
        let digits = format!(in alloc; "{byte:02x}")?;
        text.push_str(digits.as_str())?;
    }
    Ok(text)
}
