//! Filters: which texts are filters, and where they hold.

use std::alloc::Global;
use std::test::Fail;
use test_runs::{Wrong, check, check_piece, repeated, split_row, words_of};
use vs_bytes::NoMemory;

// Checks what a filter prints on one document, for a path without a match.
fn check_filtered(
    alloc: Global,
    filter: &str,
    document: &str,
    status: u8,
    out: &str,
    err: &str,
) -> Result<(), Wrong> {
    let words = words_of(alloc, &["scan", "--where", filter, "$.none"])?;
    check_piece(
        alloc,
        words.as_slice(),
        document.as_bytes(),
        64,
        status,
        out.as_bytes(),
        err.as_bytes(),
    )
}

// Checks that a filter is refused.
fn check_refused(alloc: Global, filter: &str, err: &str) -> Result<(), Wrong> {
    check_filtered(alloc, filter, "1\n", 2, "", err)
}

// Texts that are no filters, one a line.
const NO_FILTERS: &str = " 
 $ exists
$ exists 
$
$ 
$.aexists
$.a.exists
$.a exist
$ existsx
$ exists1
$ exists_
$ Exists
$ missing_
$ exists missing
exists
$ =
$ = 
= 1
$ == 1
$ = = 1
$ < = 1
$ > = 1
$ ! = 1
$ ! 1
$ =! 1
$ <> 1
$ => 1
$ =< 1
$ = tru
$ = truex
$ = false1
$ = null_
$ = True
$ = NULL
$ = nul
$ = 1x
$ = 01
$ = -01
$ = +1
$ = .5
$ = 1.
$ = 1e
$ = - 1
$ = 1e38
$ = 1e-39
$ = 1 2
$ = \"a
$ = 'a'
$ = a
$ = \"\\ud800\"
$ = \"\\x\"
$ = \"a\"b\"
$ = [1]
$ = {}
$ = $.a
1 = $
$.a $.b
($ exists
$ exists)
( $ exists
()
(
)
$ exists()
(($ exists)
not
not 
not not
no $ exists
notnot $ exists
not1
not()
NOT $ exists
! $ exists
or $ exists
and $ exists
$ exists or
$ exists or 
$ exists and
$ exists and or $ exists
$ exists or or $ exists
$ exists $ exists
$ existsor $ exists
$ existsand $ exists
$ exists or1
$ exists OR $ exists
$ exists || $ exists
$ exists, $ exists
$ exists)or($ exists
$ = nullor $ exists
$ = trueand $ exists
$ exists andnot $ exists
$ exists ornot $ exists
$.a. exists
$ .a exists
$. a exists
$[ 0] exists
$[0 ] exists
$[01] exists
$[\"\\ud800\"] exists
$\texists
$ = 1\t
$\u{a0}exists
$ < null or
$ exists or $ < null and
$ exists or$
$ exists and($ exists
not ($ exists
$ exists --
$.a exists;";

#[test]
fn a_text_that_is_no_filter_is_refused(rt: HostRuntime) -> Result<(), Fail> {
    for filter in NO_FILTERS.split('\n') {
        check_refused(rt.alloc(), filter, "vstore: bad filter\n")?;
    }
    check_refused(rt.alloc(), "$\nexists", "vstore: bad filter\n")?;
    Ok(())
}

#[test]
fn a_relation_that_does_not_suit_its_literal_is_refused(rt: HostRuntime) -> Result<(), Fail> {
    let rows = [
        "$ != null",
        "$ < null",
        "$ <= null",
        "$ > null",
        "$ >= null",
        "$.n < true",
        "$ <= true",
        "$ > false",
        "$ >= false",
        "not ($ < null)",
        "$ exists or $ > true",
        "$ < true and $ exists",
        "(($ != null))",
        "$ = 1 or not not $.a.b[*] >= false or $ exists",
    ];
    for filter in rows {
        check_refused(rt.alloc(), filter, "vstore: bad order\n")?;
    }
    Ok(())
}

// Checks whether a filter holds on a document.
fn check_truth(alloc: Global, filter: &str, document: &str, holds: bool) -> Result<(), Wrong> {
    check_filtered(
        alloc,
        filter,
        document,
        0,
        if holds { "{}\n" } else { "" },
        "",
    )
}

// Tables of filters: a filter, a document, and whether the filter holds on it, parted by ` | `.

// what a path finds, and its kind
const BY_KIND: &str = "$.a exists | {\"a\":null} | yes
$.a exists | {\"b\":1} | no
$.a missing | {\"a\":null} | no
$.a missing | 7 | yes
$.a[*] exists | {\"a\":[]} | no
$.a[*] missing | {\"a\":[]} | yes
$.a[*] exists | {\"a\":[null]} | yes
$ = null | null | yes
$ = null | 0 | no
$ = null | false | no
$.a = null | {} | no
$ = true | true | yes
$ = true | false | no
$ != true | false | yes
$ != true | true | no
$ = false | false | yes
$ = false | null | no
$ != false | true | yes
$ != false | false | no
$ != true | null | no
$ != true | \"true\" | no
$ = 1 | 1.0 | yes
$ = 1 | 10e-1 | yes
$ = 1 | \"1\" | no
$ = 1 | [1] | no
$ = 1 | true | no
$ != 1 | 2 | yes
$ != 1 | \"2\" | no
$ != 1 | null | no
$.a != 1 | {} | no
not $.a = 1 | {} | yes
not $.a = 1 | {\"a\":1} | no";

// numbers by value, not by their text, their digits or their scale
const BY_VALUE: &str = "$ < 10 | 9 | yes
$ < 10 | 9.5 | yes
$ < 10 | 10 | no
$ > 9.5 | 10 | yes
$ > 0.75 | 0.8 | yes
$ < -1 | -2 | yes
$ < -1 | -0.5 | no
$ >= -0 | 0 | yes
$ = 9007199254740993 | 9007199254740992 | no
$ = 9007199254740993 | 9007199254740993 | yes
$ > 0.1 | 0.10000000000000000000000000000000000001 | yes
$ = 1e2 | 100 | yes
$ <= 100 | 1e2 | yes
$ <= 100 | 100.01 | no
$ >= 100 | 1e2 | yes
$ >= 100 | 99.99 | no
$ < 1 | \"0\" | no";

// texts by their bytes, not by their length
const BY_BYTES: &str = "$ = \"a\" | \"\\u0061\" | yes
$ = \"\\u0061\" | \"a\" | yes
$ = \"a\" | \"A\" | no
$ < \"b\" | \"aa\" | yes
$ < \"aa\" | \"b\" | no
$ > \"a\" | \"aa\" | yes
$ < \"a\" | \"\" | yes
$ > \"Z\" | \"a\" | yes
$ > \"z\" | \"\u{e9}\" | yes
$ < \"\u{10000}\" | \"\u{ffff}\" | yes
$ != \"a\" | \"b\" | yes
$ != \"a\" | 1 | no
$ <= \"a\" | \"a\" | yes
$ >= \"a\" | \"a\" | yes";

// some match serves, and not the first alone
const BY_SOME_MATCH: &str = "$[*] = 2 | [1,2] | yes
$[*] = 3 | [1,2] | no
$[*] > 1 | [\"5\",null,2] | yes
$[*] != 1 | [1,1,2] | yes
$[*] != 1 | [1,1] | no
not $[*] = 1 | [2,1] | no
$.t[*].x = null | {\"t\":[{},{\"x\":null}]} | yes
$[*][*] = \"x\" | [[],[\"y\",\"x\"]] | yes";

// and binds more tightly than or, and not more tightly than both
const BY_BINDING: &str = "$ = 1 or $ = 2 and $ = 3 | 1 | yes
$ = 3 and $ = 2 or $ = 1 | 1 | yes
($ = 1 or $ = 2) and $ = 3 | 1 | no
$ = 3 and ($ = 2 or $ = 1) | 1 | no
not $ = 1 or $ = 1 | 1 | yes
not $ = 2 and $ = 1 | 1 | yes
not ($ = 2 or $ = 1) | 1 | no
not not $ = 1 | 1 | yes
not not not $ = 1 | 1 | no
$ exists and $ exists and $ missing | 1 | no
$ missing or $ missing or $ exists | 1 | yes";

// where spaces needn't stand
const WITHOUT_SPACES: &str = "$exists | 1 | yes
$=1 | 1 | yes
$<2and$>0 | 1 | yes
$=1or$=2 | 1 | yes
$ = 1or $ = 2 | 2 | yes
$=\"a\"or$=1 | 1 | yes
not($=2)and($=1) | 1 | yes
not$=2 | 1 | yes
$[0]exists | [1] | yes
$[\"a\"]exists | {\"a\":1} | yes
$[*]>=2 | [2] | yes
$ exists or$ missing | 1 | yes
(not(not($ exists))) | 1 | yes";

// and where they may
const WITH_SPACES: &str = "not   (  $.a   =   1   )  or   $   exists | 1 | yes
$<=   1 | 1 | yes
$   <=1 | 1 | yes
not   not   $   missing | 1 | no
$.a   missing | 1 | yes
$[\" or \"] missing | 1 | yes
$ = \" and $ = 1\" | \" and $ = 1\" | yes";

// Checks what a table of filters says.
fn check_truths(alloc: Global, table: &str) -> Result<(), Wrong> {
    for row in table.split('\n') {
        let (filter, others) = split_row(alloc, row)?;
        let (document, holds) = split_row(alloc, others)?;
        match holds {
            "yes" => check_truth(alloc, filter, document, true)?,
            "no" => check_truth(alloc, filter, document, false)?,
            _ => return Err(Wrong::Row(row.to_string(alloc)?)),
        }
    }
    Ok(())
}

#[test]
fn a_filter_holds_by_its_matches(rt: HostRuntime) -> Result<(), Fail> {
    for table in [
        BY_KIND,
        BY_VALUE,
        BY_BYTES,
        BY_SOME_MATCH,
        BY_BINDING,
        WITHOUT_SPACES,
        WITH_SPACES,
    ] {
        check_truths(rt.alloc(), table)?;
    }
    Ok(())
}

// Checks that a text is a filter, which holds on 1, or that it is none.
fn check_filter(alloc: Global, text: &str, is_filter: bool) -> Result<(), Wrong> {
    if is_filter {
        check_truth(alloc, text, "1", true)
    } else {
        check_refused(alloc, text, "vstore: bad filter\n")
    }
}

// So many terms, with a word between two of them.
fn check_terms(alloc: Global, word: &str, count: usize, is_filter: bool) -> Result<(), Wrong> {
    let text = repeated(alloc, "$ = 1", word, count)?;
    check_filter(alloc, text.as_str(), is_filter)
}

#[test]
fn a_filter_has_at_most_256_terms(rt: HostRuntime) -> Result<(), Fail> {
    for word in [" or ", " and "] {
        check_terms(rt.alloc(), word, 256, true)?;
        check_terms(rt.alloc(), word, 257, false)?;
    }
    Ok(())
}

// 128 terms in brackets, twice, and more.
fn check_halves(alloc: Global, more: &str, is_filter: bool) -> Result<(), Wrong> {
    let half = repeated(alloc, "$ = 1", " and ", 128)?;
    let text = format!(in alloc; "({half}) or ({half}{more})")?;
    check_filter(alloc, text.as_str(), is_filter)
}

#[test]
fn terms_in_brackets_are_counted(rt: HostRuntime) -> Result<(), Fail> {
    check_halves(rt.alloc(), "", true)?;
    check_halves(rt.alloc(), " or $ = 1", false)?;
    Ok(())
}

// A term with so many openings before it and as many closings after it.
fn nested(alloc: Global, open: &str, close: &str, count: usize) -> Result<String, NoMemory> {
    let mut text = repeated(alloc, open, "", count)?;
    text.push_str("$ = 1")?;
    text.push_str(repeated(alloc, close, "", count)?.as_str())?;
    Ok(text)
}

fn check_nested(
    alloc: Global,
    open: &str,
    close: &str,
    count: usize,
    is_filter: bool,
) -> Result<(), Wrong> {
    check_filter(
        alloc,
        nested(alloc, open, close, count)?.as_str(),
        is_filter,
    )
}

#[test]
fn a_filter_nests_64_deep_and_no_deeper(rt: HostRuntime) -> Result<(), Fail> {
    check_nested(rt.alloc(), "not ", "", 64, true)?;
    check_nested(rt.alloc(), "not ", "", 65, false)?;
    check_nested(rt.alloc(), "(", ")", 64, true)?;
    check_nested(rt.alloc(), "(", ")", 65, false)?;
    check_nested(rt.alloc(), "not (", ")", 32, true)?;
    check_nested(rt.alloc(), "not (", ")", 33, false)?;
    Ok(())
}

#[test]
fn deep_parts_side_by_side_are_no_deeper(rt: HostRuntime) -> Result<(), Fail> {
    let part = nested(rt.alloc(), "(", ")", 64)?;
    let text = format!(in rt.alloc(); "{part} and {part}")?;
    check_filter(rt.alloc(), text.as_str(), true)?;
    Ok(())
}

// So many spaces, and three other bytes.
fn check_spaces(alloc: Global, count: usize, is_filter: bool) -> Result<(), Wrong> {
    let spaces = repeated(alloc, " ", "", count)?;
    let text = format!(in alloc; "${spaces}=1")?;
    check_filter(alloc, text.as_str(), is_filter)
}

#[test]
fn a_filter_has_at_most_65536_bytes(rt: HostRuntime) -> Result<(), Fail> {
    check_spaces(rt.alloc(), 65_533, true)?;
    check_spaces(rt.alloc(), 65_534, false)?;
    Ok(())
}

// The lines of documents on which the filter doesn't hold are left out; the last row's second document
// isn't printed, but all is read to its end. A row: filter, input, status, output, error line.
#[test]
fn a_filter_chooses_the_lines_that_are_printed(rt: HostRuntime) -> Result<(), Fail> {
    let input = b"{\"n\":1.0}\n{\"n\":\"1\"}\n\n{\"n\":[1]}\n";
    let rows: [(&str, &[u8], u8, &[u8], &[u8]); 3] = [
        ("$.n = 1", input, 0, b"{\"$.n\":1}\n", b""),
        (
            "not $.n = 1",
            input,
            0,
            b"{\"$.n\":\"1\"}\n{\"$.n\":[1]}\n",
            b"",
        ),
        (
            "$.n = 1",
            b"{\"n\":1}\n{\"n\":2}\n{\"n\":01}\n",
            3,
            b"{\"$.n\":1}\n",
            b"vstore: line 3: NotJson\n",
        ),
    ];
    for (filter, input, status, out, err) in rows {
        check(
            rt.alloc(),
            &["scan", "--where", filter, "$.n"],
            input,
            status,
            out,
            err,
        )?;
    }
    Ok(())
}
