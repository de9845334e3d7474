//! Runs and packed groups.

use hybrid_levels::{decode, encode, measure};
use std::process::Abort;
use std::test::Fail;

// Ten ones in one bit each: the header 2 * 10, then the number.
#[test]
#[tactic(auto, using(crate::proofs::Given::ones_fit))]
fn ten_ones_are_a_run(rt: HostRuntime) -> Result<(), Fail> {
    let mut bytes = Vec::new(rt.alloc());
    encode(&mut bytes, 1, &[1, 1, 1, 1, 1, 1, 1, 1, 1, 1])?;
    assert_eq!(&rt; bytes.as_slice(), b"\x14\x01".as_slice());
    Ok(())
}

// The numbers 0 to 7 in three bits each, from the low end: 11 111 010 110 001 101 000 100 0.
#[test]
fn a_group_is_read(rt: HostRuntime) -> Result<(), Fail> {
    let mut numbers = [9u32; 8];
    assert!(&rt; decode(3, b"\x03\x88\xc6\xfa", &mut numbers) == Ok(4));
    assert_eq!(&rt; numbers.as_slice(), [0, 1, 2, 3, 4, 5, 6, 7].as_slice());
    assert!(&rt; measure(3, 8, b"\x03\x88\xc6\xfa") == Ok(4));
    Ok(())
}
