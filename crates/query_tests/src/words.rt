//! The words of a call: in which order they may stand, and which fault is told first.

use std::test::Fail;
use test_runs::check;

// A row: words. Each is answered on one document, with the same line.
#[test]
fn words_may_stand_in_any_order_up_to_two_dashes(rt: HostRuntime) -> Result<(), Fail> {
    let rows: [&[&str]; 8] = [
        &["scan", "$.a"],
        &["scan", "--", "$.a"],
        &["scan", "$.a", "--"],
        &["scan", "--where", "$.a exists", "$.a"],
        &["scan", "$.a", "--where", "$.a exists"],
        &["scan", "--where=$.a exists", "$.a"],
        &["scan", "$.a", "--where=$.a = 1 or $.b = \"=\""],
        &["scan", "--where=$.a exists", "--", "$.a"],
    ];
    for words in rows {
        check(rt.alloc(), words, b"{\"a\":1}", 0, b"{\"$.a\":1}\n", b"")?;
    }
    Ok(())
}

#[test]
fn words_of_no_command_are_usage(rt: HostRuntime) -> Result<(), Fail> {
    let rows: [&[&str]; 26] = [
        &[],
        &[""],
        &["", "$.a"],
        &["Scan", "$.a"],
        &["scan ", "$.a"],
        &["--where", "$ exists", "scan", "$"],
        &["query", "f"],
        &["scan"],
        &["scan", "--"],
        &["scan", "--where"],
        &["scan", "$", "--where"],
        &["scan", "--where", "$ exists"],
        &["scan", "--where=$ exists"],
        &["scan", "--where", "$ exists", "--where", "$ exists", "$"],
        &["scan", "--where=$ exists", "$", "--where", "$ exists"],
        &["scan", "--where=$ exists", "--where=$ exists", "$"],
        &["scan", "--where", "--", "$"],
        &["scan", "--where", "-x", "$"],
        &["scan", "--where", "--where=$ exists", "$"],
        &["scan", "--where=-x", "$"],
        &["scan", "--where=--", "$"],
        &["scan", "-x"],
        &["scan", "--x"],
        &["scan", "--wher", "$ exists", "$"],
        &["scan", "--wheres=$ exists", "$"],
        &["scan", "--where\u{a0}", "$"],
    ];
    for words in rows {
        check(rt.alloc(), words, b"01", 2, b"", b"vstore: usage\n")?;
    }
    Ok(())
}

// A row: words. Each prints an empty array in the same bytes.
#[test]
fn the_widths_of_variant_are_1_where_none_is_given(rt: HostRuntime) -> Result<(), Fail> {
    let rows: [&[&str]; 7] = [
        &["variant"],
        &["variant", "--"],
        &["variant", "--offset-width", "1"],
        &["variant", "--id-width=1", "--"],
        &["variant", "--id-width=4"],
        &["variant", "--id-width", "01"],
        &["variant", "--id-width", "4", "--offset-width=1"],
    ];
    for words in rows {
        check(rt.alloc(), words, b"[]", 0, b"110000 030000\n", b"")?;
    }
    Ok(())
}

#[test]
fn words_that_are_no_widths_are_usage(rt: HostRuntime) -> Result<(), Fail> {
    let rows: [&[&str]; 24] = [
        &["Variant"],
        &["variant", "x"],
        &["variant", "-"],
        &["variant", ""],
        &["variant", "--", "x"],
        &["variant", "--", "--id-width=1"],
        &["variant", "-x"],
        &["variant", "--width=1"],
        &["variant", "--offset-widths=1"],
        &["variant", "--offset-width"],
        &["variant", "--offset-width", "--id-width", "1"],
        &["variant", "--offset-width", "--"],
        &["variant", "--id-width", "0"],
        &["variant", "--id-width", "5"],
        &["variant", "--id-width", "10"],
        &["variant", "--id-width", "00000000001"],
        &["variant", "--id-width", ""],
        &["variant", "--id-width="],
        &["variant", "--id-width", "-1"],
        &["variant", "--offset-width=+1"],
        &["variant", "--offset-width=1", "--offset-width", "1"],
        &["variant", "--id-width=1", "--id-width=2"],
        &["variant", "--where", "$ exists"],
        &["scan", "--id-width=1", "$"],
    ];
    for words in rows {
        check(rt.alloc(), words, b"01", 2, b"", b"vstore: usage\n")?;
    }
    Ok(())
}

// A row: words, and the fault that comes first.
#[test]
fn the_first_fault_of_the_words_is_told(rt: HostRuntime) -> Result<(), Fail> {
    let rows: [(&[&str], &[u8]); 18] = [
        (&["scan", "-"], b"vstore: bad path\n"),
        (&["scan", "--", "--where"], b"vstore: bad path\n"),
        (&["scan", "--", "-x"], b"vstore: bad path\n"),
        (&["scan", "$", "--", "--"], b"vstore: bad path\n"),
        (&["scan", "--where", "-", "$"], b"vstore: bad filter\n"),
        (&["scan", "--where=", "$"], b"vstore: bad filter\n"),
        (&["scan", "--where", "", "$"], b"vstore: bad filter\n"),
        (&["scan", "--where==", "$"], b"vstore: bad filter\n"),
        (&["scan", "--where", "x"], b"vstore: usage\n"),
        (&["scan", "--where", "x", "y"], b"vstore: bad filter\n"),
        (&["scan", "y", "--where", "x"], b"vstore: bad filter\n"),
        (
            &["scan", "--where", "$ < null", "y"],
            b"vstore: bad order\n",
        ),
        (
            &["scan", "--where", "$ < null or", "$"],
            b"vstore: bad filter\n",
        ),
        (&["scan", "$", "$", "x"], b"vstore: bad path\n"),
        (&["scan", "$", "$"], b"vstore: repeated path\n"),
        (&["scan", "$.a", "$[\"a\"]"], b"vstore: repeated path\n"),
        (
            &["scan", "$[\"\\u0061\\u0020\"]", "$", "$[\"a \"]"],
            b"vstore: repeated path\n",
        ),
        (
            &["scan", "--where", "$ exists", "$[0]", "$", "$[0]"],
            b"vstore: repeated path\n",
        ),
    ];
    for (words, err) in rows {
        check(rt.alloc(), words, b"01", 2, b"", err)?;
    }
    Ok(())
}
