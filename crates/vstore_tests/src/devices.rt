//! Each read and each write failing in turn, sources and sinks in pieces, and a sink without memory.

ghost use Rattle.std.specs.Prelude.{◌<◌};

use outside::{MemSink, MemSource};
use std::alloc::Global;
use std::process::Abort;
use std::test::Fail;
use test_runs::{Outcome, call, call_full, words_of};
use vs_bytes::NoMemory;

const INPUT: &[u8] = b"{\"a\":1}\n\n{\"a\":22}\n{\"b\":3}\n{\"a\":[4]}";

const OUT: &[u8] = b"{\"$.a\":1}\n{\"$.a\":22}\n{}\n{\"$.a\":[4]}\n";

// How many lines some bytes end.
fn lf_count(bytes: &[u8]) -> usize {
    bytes.iter().filter(|byte| **byte == b'\n').count()
}

// The second line of the input is blank.
fn without_blank(lines: usize) -> usize {
    if lines < 2 { lines } else { lines - 1 }
}

// A source of which one call fails.
fn failing_source(alloc: Global, piece: usize, k: u64) -> Result<MemSource, NoMemory>
    requires { 0 < piece }
{
    let bytes = Vec::from_slice(alloc, INPUT)?;
    Ok(MemSource::new(bytes, piece, Vec::from_slice(alloc, &[k])?))
}

// A sink of which one call fails.
fn failing_sink(alloc: Global, piece: usize, k: u64) -> Result<MemSink, NoMemory>
    requires { 0 < piece }
{
    Ok(MemSink::in_pieces(alloc, piece, Vec::from_slice(alloc, &[k])?))
}

// A sink that never fails.
fn sink(alloc: Global) -> MemSink {
    MemSink::new(alloc, Vec::new(alloc))
}

// A scan of the input, of which read k fails.
fn run_failing_read(alloc: Global, piece: usize, k: u64) -> Result<Outcome, NoMemory>
    requires { 0 < piece }
{
    let words = words_of(alloc, &["scan", "$.a"])?;
    let source = failing_source(alloc, piece, k)?;
    Ok(call(alloc, words.as_slice(), source, sink(alloc), sink(alloc)))
}

// Asserts what is answered where read k failed.
fn check_failed_read(rt: &impl Abort, run: &Outcome, piece: usize, k: u64) {
    assert_eq!(rt; run.status, 5, "read {k} in pieces of {piece}");
    assert_eq!(rt; run.err.bytes(), b"vstore: read fault\n".as_slice());
    assert!(rt;
        OUT.starts_with(run.out.bytes()),
        "read {k} in pieces of {piece}"
    );
    // The lines whose LF was read, less the blank one.
    let taken = INPUT.len().min((k as usize).saturating_mul(piece));
    let lines = lf_count(&INPUT[..taken]);
    assert_eq!(rt;
        lf_count(run.out.bytes()),
        without_blank(lines),
        "read {k} in pieces of {piece}"
    );
}

// Asserts that all was answered.
fn check_whole(rt: &impl Abort, run: &Outcome) {
    assert_eq!(rt; run.status, 0);
    assert_eq!(rt; run.out.bytes(), OUT);
}

// The k-th read fails, in turn, until the input ends before it: the answered lines are whole ones.
#[test]
fn each_failed_read_is_answered_with_the_lines_before_it(rt: HostRuntime) -> Result<(), Fail> {
    for piece in [1usize, 5, 16] {
        let mut ended = false;
        for k in 0..60u64 {
            let run = run_failing_read(rt.alloc(), piece, k)?;
            if run.source.faults() == 0 {
                check_whole(&rt, &run);
                ended = true;
            } else {
                check_failed_read(&rt, &run, piece, k);
            }
        }
        assert!(&rt; ended);
    }
    Ok(())
}

// A scan of the input, of which write k fails.
fn run_failing_write(alloc: Global, k: u64) -> Result<Outcome, NoMemory> {
    let words = words_of(alloc, &["scan", "$.a"])?;
    let source = MemSource::new(Vec::from_slice(alloc, INPUT)?, 7, Vec::new(alloc));
    let out = failing_sink(alloc, 4, k)?;
    Ok(call(alloc, words.as_slice(), source, out, sink(alloc)))
}

// Asserts what is answered where write k failed.
fn check_failed_write(rt: &impl Abort, run: &Outcome, k: u64) {
    assert_eq!(rt; run.status, 6, "write {k}");
    assert_eq!(rt; run.err.bytes(), b"vstore: write fault\n".as_slice());
    assert!(rt; OUT.starts_with(run.out.bytes()), "write {k}");
}

// The k-th write fails, in turn, until all is written before it.
#[test]
fn each_failed_write_leaves_a_prefix_of_the_answer(rt: HostRuntime) -> Result<(), Fail> {
    let mut ended = false;
    for k in 0..20u64 {
        let run = run_failing_write(rt.alloc(), k)?;
        if run.out.faults() == 0 {
            check_whole(&rt, &run);
            ended = true;
        } else {
            check_failed_write(&rt, &run, k);
        }
    }
    assert!(&rt; ended);
    Ok(())
}

// A scan whose error output takes 8 bytes, and fails then.
fn run_failing_err(alloc: Global, path: &str, input: &[u8]) -> Result<Outcome, NoMemory> {
    let words = words_of(alloc, &["scan", path])?;
    let source = MemSource::new(Vec::from_slice(alloc, input)?, 64, Vec::new(alloc));
    let err = failing_sink(alloc, 8, 1)?;
    Ok(call(alloc, words.as_slice(), source, sink(alloc), err))
}

// A fault of the error output changes no status.
#[test]
fn a_failed_error_output_keeps_the_status(rt: HostRuntime) -> Result<(), Fail> {
    let refused: [(&str, &[u8], u8); 2] = [("$.a", b"01", 3), ("$.", b"", 2)];
    for (path, input, status) in refused {
        let run = run_failing_err(rt.alloc(), path, input)?;
        assert_eq!(&rt; run.status, status);
        assert_eq!(&rt; run.err.bytes(), b"vstore: ".as_slice());
        assert_eq!(&rt; run.err.faults(), 1);
    }
    let run = run_failing_err(rt.alloc(), "$.a", b"{}")?;
    assert_eq!(&rt; run.status, 0);
    assert!(&rt; run.err.bytes().is_empty());
    Ok(())
}

// An output that has no memory for a byte: status 7, and its line.
#[test]
fn want_of_memory_is_named(rt: HostRuntime) -> Result<(), Fail> {
    let words = words_of(rt.alloc(), &["scan", "$"])?;
    let (status, err) = call_full(rt.alloc(), words.as_slice(), b"1\n")?;
    assert_eq!(&rt; status, 7);
    assert_eq!(&rt; err.bytes(), b"vstore: no memory\n".as_slice());
    Ok(())
}
