//! Paths: what a query answers, and which words are no paths.

use std::alloc::Global;
use std::process::Abort;
use std::test::Fail;
use test_runs::{Wrong, check, check_piece, check_rows, repeated, run, words_of};
use vs_bytes::{NoMemory, Text};

// A row: path, input, output. A path with a star always shows its matches, which may be none.
const PATHS: &str = r#"$[0] | [1,2] | {"$[0]":1}¶
$[1] | [1,2] | {"$[1]":2}¶
$[2] | [1,2] | {}¶
$[0] | []¶{"0":1}¶"a"¶7 | {}¶{}¶{}¶{}¶
$[0] | [null] | {"$[0]":null}¶
$[999999999] | [1] | {}¶
$[10] | [0,1,2,3,4,5,6,7,8,9,10] | {"$[10]":10}¶
$[0][1] | [[5,6]] | {"$[0][1]":6}¶
$.a[0].b | {"a":[{"b":true}]} | {"$.a[0].b":true}¶
$[*] | [1,null,[2]] | {"$[*]":[1,null,[2]]}¶
$[*] | []¶{"a":1}¶null | {"$[*]":[]}¶{"$[*]":[]}¶{"$[*]":[]}¶
$.t[*].x | {"t":[{"x":1},{"y":2},3,{"x":null}]} | {"$.t[*].x":[1,null]}¶
$[*][*] | [[1,2],3,[],[4]] | {"$[*][*]":[1,2,4]}¶
$[*][0] | [[1,2],3,[],[4]] | {"$[*][0]":[1,4]}¶
$[1][*] | [[1,2],[3,4]] | {"$[1][*]":[3,4]}¶
$.a[*].b[*] | {"a":[{"b":[1]},{"b":[2,3]}]} | {"$.a[*].b[*]":[1,2,3]}¶
$["a"] | {"a":1} | {"$.a":1}¶
$["\u0061"] | {"a":1} | {"$.a":1}¶
$["a b"] | {"a b":1} | {"$[\"a b\"]":1}¶
$[""] | {"":1} | {"$[\"\"]":1}¶
$["1"] | {"1":2}¶[1,2] | {"$[\"1\"]":2}¶{}¶
$["*"] | {"*":2}¶[1,2] | {"$[\"*\"]":2}¶{}¶
$["a.b"].c | {"a.b":{"c":1}} | {"$[\"a.b\"].c":1}¶
$["]"] | {"]":1} | {"$[\"]\"]":1}¶
$["\""] | {"\"":1} | {"$[\"\\\"\"]":1}¶
$["\n"] | {"\n":1} | {"$[\"\\n\"]":1}¶
$["\ud83d\ude00"] | {"😀":1} | {"$[\"😀\"]":1}¶
$["é"] | {"é":1} | {"$[\"é\"]":1}¶
$["a_1"][0] | {"a_1":[1]} | {"$.a_1[0]":1}¶"#;

#[test]
fn a_path_gives_members_elements_and_stars(rt: HostRuntime) -> Result<(), Fail> {
    check_rows(rt.alloc(), PATHS)?;
    Ok(())
}

#[test]
fn paths_are_printed_in_the_asked_order(rt: HostRuntime) -> Result<(), Fail> {
    let input = b"{\"a\":1,\"b\":[2,3]}\n{\"b\":null}\n{\"a\":{}}\n7\n";
    let rows: [(&[&str], &[u8]); 2] = [
        (
            &["scan", "$.b", "$.a"],
            b"{\"$.b\":[2,3],\"$.a\":1}\n{\"$.b\":null}\n{\"$.a\":{}}\n{}\n",
        ),
        (
            &["scan", "$.a", "$.b[*]", "$.b"],
            b"{\"$.a\":1,\"$.b[*]\":[2,3],\"$.b\":[2,3]}\n{\"$.b[*]\":[],\"$.b\":null}\n{\"$.a\":{},\"$.b[*]\":[]}\n{\"$.b[*]\":[]}\n",
        ),
    ];
    for (words, out) in rows {
        check(rt.alloc(), words, input, 0, out, b"")?;
    }
    Ok(())
}

// Words that are no paths, one a line; the first is empty.
const NO_PATHS: &str = "
a
$.
$..a
$.a.
$a
.a
$.1
$.a-b
$.a b
$.a 
 $.a
$$
$.\u{e9}
$[
$[]
$[0
$0]
$[01]
$[00]
$[-1]
$[+1]
$[1.0]
$[1e0]
$[ 0]
$[0 ]
$ [0]
$[0] 
$[1000000000]
$[0000000001]
$[18446744073709551616]
$[0x1]
$[*
$[**]
$[ *]
$[* ]
$.*
$*
$[a]
$['a']
$[\"a]
$[\"a\"
$[\"a\" ]
$[ \"a\"]
$[\"\\ud800\"]
$[\"\\udc00\\ud800\"]
$[\"\\x\"]
$[\"a\"]b
$[\"a\"].
$.a[
$.a]
$,a
$.a,$.b
$(0)";

// Checks that a word is refused as a path.
fn check_bad_path(alloc: Global, word: &str) -> Result<(), Wrong> {
    check(alloc, &["scan", word], b"01", 2, b"", b"vstore: bad path\n")
}

#[test]
fn a_word_that_is_no_path_is_refused_before_the_input_is_read(rt: HostRuntime) -> Result<(), Fail> {
    for word in NO_PATHS.split('\n') {
        check_bad_path(rt.alloc(), word)?;
    }
    check_bad_path(rt.alloc(), "$.a\n")?;
    check_bad_path(rt.alloc(), "$[\"\n\"]")?;
    Ok(())
}

// `$` and so many steps, each with a name of so many letters.
fn long_path(alloc: Global, steps: usize, letters: usize) -> Result<String, NoMemory> {
    let name = repeated(alloc, "a", "", letters)?;
    let step = format!(in alloc; ".{name}")?;
    let mut path = repeated(alloc, step.as_str(), "", steps)?;
    path.insert(0, '$')?;
    Ok(path)
}

// The status of a call on one document.
fn status_of(alloc: Global, texts: &[&str]) -> Result<u8, NoMemory> {
    let words = words_of(alloc, texts)?;
    Ok(run(alloc, words.as_slice(), b"1\n", 64)?.status)
}

// Asserts that a word is a path, by itself and in a filter, or that it is none.
fn check_path(rt: &impl Abort, alloc: Global, path: &str, is_path: bool) -> Result<(), Fail> {
    let wanted = if is_path { 0 } else { 2 };
    assert_eq!(rt; status_of(alloc, &["scan", path])?, wanted);
    let filter = format!(in alloc; "{path} exists")?;
    assert_eq!(rt;
        status_of(alloc, &["scan", "--where", filter.as_str(), "$"])?,
        wanted
    );
    Ok(())
}

#[test]
fn a_path_has_at_most_64_steps(rt: HostRuntime) -> Result<(), Fail> {
    let alloc = rt.alloc();
    check_path(&rt, alloc, long_path(alloc, 64, 1)?.as_str(), true)?;
    check_path(&rt, alloc, long_path(alloc, 65, 1)?.as_str(), false)?;
    let stars = repeated(alloc, "[*]", "", 64)?;
    check_path(&rt, alloc, format!(in alloc; "${stars}")?.as_str(), true)?;
    check_path(
        &rt,
        alloc,
        format!(in alloc; "${stars}[*]")?.as_str(),
        false,
    )
}

// 1 + 1 + 4094 bytes, and one letter more
#[test]
fn a_path_has_at_most_4096_bytes(rt: HostRuntime) -> Result<(), Fail> {
    let alloc = rt.alloc();
    check_path(&rt, alloc, long_path(alloc, 1, 4094)?.as_str(), true)?;
    check_path(&rt, alloc, long_path(alloc, 1, 4095)?.as_str(), false)
}

// `scan` and so many paths, `$[0]` first.
fn many_paths(alloc: Global, count: usize) -> Result<Vec<Text>, NoMemory> {
    let mut words = words_of(alloc, &["scan"])?;
    for path in 0..count {
        words.push(Text::from_string(format!(in alloc; "$[{path}]")?))?;
    }
    Ok(words)
}

#[test]
fn a_query_has_at_most_64_paths(rt: HostRuntime) -> Result<(), Fail> {
    let most = many_paths(rt.alloc(), 64)?;
    check_piece(
        rt.alloc(),
        most.as_slice(),
        b"[5]",
        64,
        0,
        b"{\"$[0]\":5}\n",
        b"",
    )?;
    let more = many_paths(rt.alloc(), 65)?;
    check_piece(
        rt.alloc(),
        more.as_slice(),
        b"[5]",
        64,
        2,
        b"",
        b"vstore: usage\n",
    )?;
    Ok(())
}
