//! Numbers of a width, integers in two's complement, bytes in hexadecimal.

use exact_num::{Unscaled, big_of};
use std::process::Abort;
use std::test::Fail;
use vs_bytes::{Le, hex};

// 258 is 1 * 256 + 2; the lowest byte comes first.
#[test]
fn a_number_of_two_bytes_is_written(rt: HostRuntime) -> Result<(), Fail> {
    let mut bytes = Vec::new(rt.alloc());
    Le::<2>::write(&mut bytes, 258)?;
    assert_eq!(&rt; bytes.as_slice(), [2, 1].as_slice());
    Ok(())
}

// -2 is 2^16 - 2 in two bytes.
#[test]
#[tactic(auto, unfolding(exact_num::specs::Unscaled::half))]
fn a_negative_integer_is_written_from_either_end(rt: HostRuntime) -> Result<(), Fail> {
    let mut bytes = Vec::new(rt.alloc());
    Unscaled::<2>::write_little(&mut bytes, -2)?;
    Unscaled::<2>::write_big(&mut bytes, -2)?;
    assert_eq!(&rt; bytes.as_slice(), [254, 255, 255, 254].as_slice());
    Ok(())
}

#[test]
fn bytes_are_shown_in_lower_case(rt: HostRuntime) -> Result<(), Fail> {
    let mut text = Vec::new(rt.alloc());
    hex(&mut text, b"\x0f\xa0")?;
    assert_eq!(&rt; text.as_slice(), b"0fa0".as_slice());
    assert_eq!(&rt; big_of(b"\xff\xfe"), -2);
    Ok(())
}
