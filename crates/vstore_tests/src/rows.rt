//! Lines, values and faults: what is printed for an input.

use std::alloc::Global;
use std::test::Fail;
use test_runs::{Wrong, check, check_fault, check_rows, split_row};

// A row: path, input, output. Among them: names in the order of their bytes, a name that is a prefix of
// another one, a member whose name has dots (no step of a path), and inputs without a document.
const SCANS: &str = r#"$.a | {"a":1}¶{"b":2}¶{"a":null}¶ | {"$.a":1}¶{}¶{"$.a":null}¶
$.b | {"b":null}¶{}¶ | {"$.b":null}¶{}¶
$ | -9223372036854775808¶ | {"$":-9223372036854775808}¶
$ | 9223372036854775807¶ | {"$":9223372036854775807}¶
$ | 0 | {"$":0}¶
$.a.b | {"a":{"b":7}}¶{"a":[{"b":7}]}¶{"a":7}¶ | {"$.a.b":7}¶{}¶{}¶
$ | {"b":1,"a":{"d":[],"c":{}}}¶ | {"$":{"a":{"c":{},"d":[]},"b":1}}¶
$ | [ 1 , [ 2 ,3 ] , "x" ]¶ | {"$":[1,[2,3],"x"]}¶
$ | ["é","😀"]¶ | {"$":["é","😀"]}¶
$.a_1.B | {"a_1":{"B":""}} | {"$.a_1.B":""}¶
$._ | {"_":[]} | {"$._":[]}¶
$.ab | {"a":1,"abc":2}¶ | {}¶
$.a.b | {"a.b":1}¶ | {}¶
$.a |  | 
$.a | ¶¶¶ | 
$.e | {"a":1,"b":2,"c":3,"d":4,"e":5,"f":6,"g":7} | {"$.e":5}¶
$.e | {"g":1,"f":2,"e":5,"d":4,"c":3,"b":6,"a":7} | {"$.e":5}¶"#;

#[test]
fn scan_prints_the_match_of_each_document(rt: HostRuntime) -> Result<(), Fail> {
    check_rows(rt.alloc(), SCANS)?;
    Ok(())
}

// The same with white space that no table shows.
#[test]
fn white_space_stands_round_a_value_and_in_blank_lines(rt: HostRuntime) -> Result<(), Fail> {
    let rows: [(&str, &[u8], &[u8]); 5] = [
        (
            "$",
            b" true\n\tfalse\r\nnull",
            b"{\"$\":true}\n{\"$\":false}\n{\"$\":null}\n",
        ),
        ("$", b"\"\x7f/\"\n", b"{\"$\":\"\x7f/\"}\n"),
        ("$.a", b" \t\r\n\t\n   ", b""),
        ("$", b"\n 1 \n\r\n2", b"{\"$\":1}\n{\"$\":2}\n"),
        ("$.x", b"{\"x\":1,\"y\":{\"x\":1}}\r\n", b"{\"$.x\":1}\n"),
    ];
    for (path, input, out) in rows {
        check(rt.alloc(), &["scan", path], input, 0, out, b"")?;
    }
    Ok(())
}

// A row: a line, and its value as it is printed.
const VALUES: &str = r#"1.50 | 1.5
1e2 | 100
-0 | 0
-0.0e5 | 0
0.05e1 | 0.5
1E+2 | 100
12.5e-1 | 1.25
0e99999999999999999999 | 0
0.0e-99999999999999999999 | 0
1e00000000000000000002 | 100
1e-38 | 0.00000000000000000000000000000000000001
1e37 | 10000000000000000000000000000000000000
99999999999999999999999999999999999999 | 99999999999999999999999999999999999999
-99999999999999999999999999999999999999 | -99999999999999999999999999999999999999
0.99999999999999999999999999999999999999 | 0.99999999999999999999999999999999999999
999999999999999999999999999999999999990e-1 | 99999999999999999999999999999999999999
100000000000000000000000000000000000000000000000000e-45 | 100000
0.00000000000000000000000000000000000000000000000001e45 | 0.00001
1.000000000000000000000000000000000000000000000000000 | 1
9007199254740993 | 9007199254740993
0.1 | 0.1
3.141592653589793238462643383279 | 3.141592653589793238462643383279
-9223372036854775809 | -9223372036854775809
"\"\\\/\b\f\n\r\t" | "\"\\/\b\f\n\r\t"
"\u0000" | "\u0000"
"\u001F\u0020" | "\u001f "
"\u00e9\u20AC" | "é€"
"\ud83d\ude00" | "😀"
"\uD83D\uDE00!" | "😀!"
"a\u0062c" | "abc"
{"b":1,"\u0061":2} | {"a":2,"b":1}
{"":0} | {"":0}
[1.0,1e0,10e-1] | [1,1,1]
"[[[[{{{{" | "[[[[{{{{""#;

// Checks how the value of a line is printed.
fn check_value(alloc: Global, line: &str, text: &str) -> Result<(), Wrong> {
    let out = format!(in alloc; "{{\"$\":{text}}}\n")?;
    check(
        alloc,
        &["scan", "$"],
        line.as_bytes(),
        0,
        out.as_bytes(),
        b"",
    )
}

#[test]
fn numbers_and_strings_are_read_by_their_value(rt: HostRuntime) -> Result<(), Fail> {
    for row in VALUES.split('\n') {
        let (line, text) = split_row(rt.alloc(), row)?;
        check_value(rt.alloc(), line, text)?;
    }
    check_value(rt.alloc(), "\"\u{7f}\"", "\"\u{7f}\"")?;
    check_value(rt.alloc(), " \t[ ]\r", "[]")?;
    Ok(())
}

const NO_JSON: &str = r#"01
-01
+1
.5
1.
1.e1
1e
1e+
-
--1
NaN
Infinity
1 2
0x1
1_000
1e1.5
"a
"
"\"
"\
"\x41"
"\u12"
"\u12g4"
"\U0041"
"\'"
'a'
"a""b"
{"a":1,}
{,}
{"a"}
{"a":}
{a:1}
{1:2}
{"a":1
{"a":1]
{"a" 1}
{"a":1 "b":2}
[1,]
[,1]
[1 2]
[
]
[1}
[1]]
[1],
nul
nulll
True
undefined
/*c*/1"#;

#[test]
fn a_line_that_is_no_json_is_refused(rt: HostRuntime) -> Result<(), Fail> {
    for line in NO_JSON.split('\n') {
        check_fault(rt.alloc(), line.as_bytes(), "NotJson")?;
    }
    let others: [&[u8]; 5] = [b"1\r2", b"\xef\xbb\xbf1", b"\x00", b"\x0b1", b"1\x0c"];
    for line in others {
        check_fault(rt.alloc(), line, "NotJson")?;
    }
    Ok(())
}

// Each control byte in a string, LF aside.
#[test]
fn a_control_byte_in_a_string_is_no_json(rt: HostRuntime) -> Result<(), Fail> {
    for byte in 0..32u8 {
        if byte != b'\n' {
            check_fault(rt.alloc(), &[b'"', byte, b'"'], "NotJson")?;
        }
    }
    Ok(())
}

// A row: a line and its first fault, each a property of the whole line; a fault of the grammar after
// them comes first.
const FAULTS: &str = r#""\ud800" | LoneSurrogate
"\udc00" | LoneSurrogate
"\ude00\ud83d" | LoneSurrogate
"\ud83d \ude00" | LoneSurrogate
"\ud83d\ud83d\ude00" | LoneSurrogate
"a\ud83d" | LoneSurrogate
"\ud83d\n" | LoneSurrogate
{"\udead":1} | LoneSurrogate
{"a":1e99,"a":"\ud800"} | LoneSurrogate
[1e99,{"a":1,"a":1},"\ud800"] | LoneSurrogate
{"a":1,"a":2} | DuplicateKey
{"b":1,"a":2,"b":3} | DuplicateKey
{"\u0061":1,"a":2} | DuplicateKey
[{"x":{"y":0,"y":0}}] | DuplicateKey
{"a":1e99,"a":1} | DuplicateKey
{"":1,"":1} | DuplicateKey
999999999999999999999999999999999999999 | NumberTooWide
1e38 | NumberTooWide
1e-39 | NumberTooWide
-1e99999999999999999999 | NumberTooWide
1e-99999999999999999999 | NumberTooWide
0.000000000000000000000000000000000000001 | NumberTooWide
1.00000000000000000000000000000000000001 | NumberTooWide
[0,[1e400]] | NumberTooWide
["\ud800",1e99,{"a":1,"a":1} | NotJson"#;

#[test]
fn the_first_fault_of_a_line_is_named(rt: HostRuntime) -> Result<(), Fail> {
    for row in FAULTS.split('\n') {
        let (line, fault) = split_row(rt.alloc(), row)?;
        check_fault(rt.alloc(), line.as_bytes(), fault)?;
    }
    let others: [&[u8]; 5] = [
        b"\xff",
        b"\"\xc3\"",
        b"\"\xed\xa0\x80\"",
        b"\xc0\x80",
        b"01 \xff",
    ];
    for line in others {
        check_fault(rt.alloc(), line, "NotUtf8")?;
    }
    Ok(())
}

// A row: input, output, error line.
#[test]
fn the_lines_before_a_refused_one_are_answered(rt: HostRuntime) -> Result<(), Fail> {
    let rows: [(&[u8], &[u8], &[u8]); 4] = [
        (b"\n01\n", b"", b"vstore: line 2: NotJson\n"),
        (
            b"{\"a\":1}\n\n{}\r\n{\"a\":01}\n{\"a\":5}\n",
            b"{\"$.a\":1}\n{}\n",
            b"vstore: line 4: NotJson\n",
        ),
        (b"1\n\x00\x01\x02\n", b"{}\n", b"vstore: line 2: NotJson\n"),
        (
            b"1\n2\n{\"a\":1e99}",
            b"{}\n{}\n",
            b"vstore: line 3: NumberTooWide\n",
        ),
    ];
    for (input, out, err) in rows {
        check(rt.alloc(), &["scan", "$.a"], input, 3, out, err)?;
    }
    Ok(())
}

// A check that found no difference would hide all of them.
#[test]
fn a_check_finds_what_differs(rt: HostRuntime) {
    let rows: [(u8, &[u8], &[u8]); 3] = [
        (3, b"{\"$\":1}\n", b""),
        (0, b"{\"$\":2}\n", b""),
        (0, b"{\"$\":1}\n", b"x"),
    ];
    for (status, out, err) in rows {
        let found = check(rt.alloc(), &["scan", "$"], b"1", status, out, err);
        assert!(&rt; matches!(found, Err(Wrong::Call(_))));
    }
    assert!(&rt; matches!(check_rows(rt.alloc(), "$ | 1"), Err(Wrong::Row(_))));
}
