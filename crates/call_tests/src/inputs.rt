//! Sources, sinks, and the lines of an input.

use exact_json::{Lines, Next};
use json_lines::LineFault;
use outside::{MemSink, MemSource, Sink, Source, StdSink, StdSource, write_all};
use std::alloc::Global;
use std::process::Abort;
use std::test::Fail;

#[test]
fn all_bytes_reach_a_sink_that_takes_few(rt: HostRuntime) -> Result<(), Fail> {
    let alloc = rt.alloc();
    let mut sink = MemSink::in_pieces(alloc, 3, Vec::new(alloc));
    write_all(&mut sink, b"eleven byte")?;
    assert_eq!(&rt; sink.bytes(), b"eleven byte".as_slice());
    Ok(())
}

// The readers and writers of std, over bytes in memory.
#[test]
fn std_streams_pass_bytes_on(rt: HostRuntime) -> Result<(), Fail> {
    let mut source = StdSource::new(b"abc".as_slice());
    let mut into = [0u8; 2];
    assert_eq!(&rt; source.read(&mut into)?, 2);
    assert_eq!(&rt; into.as_slice(), b"ab".as_slice());
    let mut sink = StdSink::new(Vec::new(rt.alloc()));
    assert_eq!(&rt; sink.write(b"xyz")?, 3);
    Ok(())
}

// An input, and its lines.
#[derive(Drop)]
struct Reading {
    source: MemSource,
    lines: Lines,
}

// An input of which 3 bytes count.
fn opened(alloc: Global, input: &[u8]) -> Result<Reading, Fail> {
    let source = MemSource::new(Vec::from_slice(alloc, input)?, 64, Vec::new(alloc));
    let lines = Lines::new(alloc, 3)?;
    Ok(Reading { source, lines })
}

// Asserts which line comes next.
fn check_line(rt: &impl Abort, reading: &mut Reading, wanted: u64, text: &[u8]) {
    match reading.lines.next(&mut reading.source) {
        Ok(Next::Line { number, bytes }) => {
            assert_eq!(rt; number, wanted);
            assert_eq!(rt; bytes.as_slice(), text);
        }
        _ => assert!(rt; false, "line {wanted} is given"),
    }
}

// The line that the limit falls into is refused, and again.
#[test]
fn lines_end_at_the_limit(rt: HostRuntime) -> Result<(), Fail> {
    let mut reading = opened(rt.alloc(), b"1\n2\n3")?;
    check_line(&rt, &mut reading, 1, b"1");
    for _turn in 0..2 {
        let next = reading.lines.next(&mut reading.source);
        assert!(&rt; matches!(next, Err(LineFault::InputTooLong)));
    }
    Ok(())
}

// The whole input is as long as the limit.
#[test]
fn the_end_is_told_again(rt: HostRuntime) -> Result<(), Fail> {
    let mut reading = opened(rt.alloc(), b"1\n2")?;
    check_line(&rt, &mut reading, 1, b"1");
    check_line(&rt, &mut reading, 2, b"2");
    for _turn in 0..2 {
        let next = reading.lines.next(&mut reading.source);
        assert!(&rt; matches!(next, Ok(Next::End)));
    }
    Ok(())
}
