//! Texts, bytes, trees, strings and numbers.

use exact_num::{NumFault, read_number};
use json_strings::{StringFault, read_string};
use json_tree::{
    Items, Members, MembersFault, Number, Tree, copy, depth, print, print_text, same, text_len,
};
use std::alloc::Global;
use std::cmp::Ordering;
use std::process::Abort;
use std::test::Fail;
use vs_bytes::{Bytes, NoMemory, Text};

#[test]
fn bytes_hold_what_they_were_made_of(rt: HostRuntime) -> Result<(), Fail> {
    let bytes = Bytes::from_slice(rt.alloc(), b"\xff\n")?;
    assert_eq!(&rt; bytes.as_slice(), [0xff, 0x0a].as_slice());
    Ok(())
}

// Asserts that a text shows what it was made of, by either way.
fn check_text(rt: &impl Abort, alloc: Global, text: &str) -> Result<(), Fail> {
    let made = Text::from_str(alloc, text)?;
    assert_eq!(rt; made.as_str(), text);
    assert_eq!(rt; made.as_bytes(), text.as_bytes());
    assert!(rt; made == Text::from_string(String::from_str(alloc, text)?));
    Ok(())
}

// 16 bytes lie in the value itself, 17 don't.
#[test]
fn texts_hold_what_they_were_made_of(rt: HostRuntime) -> Result<(), Fail> {
    for text in ["h\u{e9}", "sixteen bytes ..", "sixteen bytes ..."] {
        check_text(&rt, rt.alloc(), text)?;
    }
    Ok(())
}

// Asserts that one text comes before another.
fn check_order(rt: &impl Abort, alloc: Global, a: &str, b: &str) -> Result<(), Fail> {
    let first = Text::from_str(alloc, a)?;
    let second = Text::from_str(alloc, b)?;
    assert!(rt; first < second);
    Ok(())
}

#[test]
fn texts_are_ordered_by_their_bytes(rt: HostRuntime) -> Result<(), Fail> {
    check_order(&rt, rt.alloc(), "h\u{e9}", "i")?;
    check_order(&rt, rt.alloc(), "sixteen bytes ..", "sixteen bytes ...")
}

// `[-5,true]`
fn items(alloc: Global) -> Result<Tree, NoMemory> {
    let mut items = Items::new(alloc);
    items.push(Tree::Num(Number::of(-5, 0)))?;
    items.push(Tree::Bool(true))?;
    Ok(Tree::Array(items))
}

// A pair with that array, and one whose name has escapes.
fn pairs(alloc: Global) -> Result<Vec<(Text, Tree)>, NoMemory> {
    let mut pairs = Vec::new(alloc);
    pairs.push((Text::from_str(alloc, "b")?, items(alloc)?))?;
    pairs.push((Text::from_str(alloc, "a\"\u{1}\n")?, Tree::Null))?;
    Ok(pairs)
}

// The object of those pairs, or null where it is refused.
fn object(alloc: Global) -> Result<Tree, NoMemory> {
    match Members::from_pairs(pairs(alloc)?) {
        Ok(members) => Ok(Tree::Object(members)),
        Err(_) => Ok(Tree::Null),
    }
}

// Asserts how a tree is printed, and how long that is.
fn check_printed(rt: &impl Abort, alloc: Global, tree: &Tree, wanted: &[u8]) -> Result<(), Fail> {
    let mut text = Vec::new(alloc);
    print(&mut text, tree)?;
    assert_eq!(rt; text.as_slice(), wanted);
    assert_eq!(rt; text_len(tree), wanted.len() as u64);
    Ok(())
}

#[test]
fn a_tree_is_made_printed_and_measured(rt: HostRuntime) -> Result<(), Fail> {
    let tree = object(rt.alloc())?;
    check_printed(
        &rt,
        rt.alloc(),
        &tree,
        b"{\"a\\\"\\u0001\\n\":null,\"b\":[-5,true]}",
    )?;
    assert_eq!(&rt; text_len(&tree), 34);
    assert_eq!(&rt; depth(&tree), 2);
    Ok(())
}

#[test]
fn a_tree_is_copied(rt: HostRuntime) -> Result<(), Fail> {
    let tree = object(rt.alloc())?;
    let twin = copy(rt.alloc(), &tree)?;
    assert!(&rt; same(&tree, &twin));
    assert!(&rt; !same(&tree, &Tree::Null));
    Ok(())
}

#[test]
fn members_are_found_by_their_names(rt: HostRuntime) -> Result<(), Fail> {
    match Members::from_pairs(pairs(rt.alloc())?) {
        Ok(members) => {
            assert!(&rt; members.len() == 2);
            assert_eq!(&rt; members.name(0), "a\"\u{1}\n");
            assert!(&rt; members.get("b").is_some());
            assert!(&rt; members.get("c").is_none());
        }
        Err(_) => assert!(&rt; false, "no name stands twice"),
    }
    Ok(())
}

#[test]
fn a_repeated_name_is_refused(rt: HostRuntime) -> Result<(), Fail> {
    let alloc = rt.alloc();
    let mut pairs = Vec::new(alloc);
    for name in ["b", "a", "b"] {
        pairs.push((Text::from_str(alloc, name)?, Tree::Null))?;
    }
    assert!(&rt; matches!(Members::from_pairs(pairs), Err(MembersFault::Repeated)));
    Ok(())
}

#[test]
fn a_text_is_printed_with_its_escapes(rt: HostRuntime) -> Result<(), Fail> {
    let mut text = Vec::new(rt.alloc());
    print_text(&mut text, "\u{8}\t\n\u{c}\r\"\\/\u{1f}\u{7f}\u{e9}")?;
    assert_eq!(&rt;
        text.as_slice(),
        b"\"\\b\\t\\n\\f\\r\\\"\\\\/\\u001f\x7f\xc3\xa9\"".as_slice()
    );
    Ok(())
}

#[test]
fn numbers_are_compared_and_fitted_by_value(rt: HostRuntime) {
    // 10^38 - 1 and 1 / 10^38
    let most = Number::of(99_999_999_999_999_999_999_999_999_999_999_999_999, 0);
    let least = Number::of(1, 38);
    assert!(&rt; exact_num::cmp(most, least) == Ordering::Greater);
    assert!(&rt; exact_num::cmp(Number::of(150, 2), Number::of(15, 1)) == Ordering::Equal);
    assert_eq!(&rt; exact_num::text_len(least), 40);
    assert_eq!(&rt; exact_num::fits(Number::of(15, 1), 9, 2), Some(150));
    assert_eq!(&rt; exact_num::fits(Number::of(1555, 3), 9, 2), None);
    assert_eq!(&rt; exact_num::whole(Number::of(-70, 1)), Some(-7));
    assert_eq!(&rt; exact_num::whole(Number::of(71, 1)), None);
}

// Asserts how a number is printed, and how long that is.
fn check_number(rt: &impl Abort, alloc: Global, number: Number, wanted: &[u8]) -> Result<(), Fail> {
    let mut text = Vec::new(alloc);
    exact_num::print(&mut text, number)?;
    assert_eq!(rt; text.as_slice(), wanted);
    assert_eq!(rt; exact_num::text_len(number), wanted.len() as u64);
    Ok(())
}

#[test]
fn numbers_are_read_and_printed(rt: HostRuntime) -> Result<(), Fail> {
    assert!(&rt; matches!(read_number(b"1."), Err(NumFault::NotNumber)));
    assert!(&rt; matches!(read_number(b"1e38"), Err(NumFault::TooWide)));
    let Ok(number) = read_number(b"-12.500e1") else {
        assert!(&rt; false, "the text is a number");
        return Ok(());
    };
    check_number(&rt, rt.alloc(), number, b"-125")?;
    check_number(
        &rt,
        rt.alloc(),
        Number::of(1, 38),
        b"0.00000000000000000000000000000000000001",
    )
}

#[test]
fn a_string_is_read_from_its_place(rt: HostRuntime) {
    let bytes = b"x\"a\\u00e9\"y";
    match read_string(rt.alloc(), bytes, 1) {
        Ok((text, place)) => {
            assert_eq!(&rt; text.as_bytes(), b"a\xc3\xa9".as_slice());
            assert_eq!(&rt; place, 10);
        }
        Err(_) => assert!(&rt; false, "a string begins there"),
    }
    assert!(&rt;
        matches!(
            read_string(rt.alloc(), bytes, 0),
            Err(StringFault::NotString)
        )
    );
    assert!(&rt;
        matches!(
            read_string(rt.alloc(), b"\"\\udc00\"", 0),
            Err(StringFault::LoneSurrogate)
        )
    );
}
