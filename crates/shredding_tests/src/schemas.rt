//! Texts of schemas.

use schema_parsing::{SchemaFault, parse_schema, print_schema};
use std::alloc::Global;
use std::process::Abort;
use std::test::Fail;
use vs_bytes::NoMemory;

// The canonical text of a schema.
fn canonical(alloc: Global, text: &str) -> Result<Vec<u8>, SchemaFault> {
    let node = parse_schema(alloc, text)?;
    let mut into = Vec::new(alloc);
    match print_schema(&mut into, &node) {
        Ok(()) => Ok(into),
        Err(NoMemory) => Err(SchemaFault::NoMemory),
    }
}

fn is_bad(alloc: Global, text: &str) -> bool {
    matches!(parse_schema(alloc, text), Err(SchemaFault::BadSchema))
}

#[test]
fn a_schema_is_printed_without_spaces(rt: HostRuntime) -> Result<(), Fail> {
    let text = canonical(rt.alloc(), r#"{ "x y" : [ decimal(9,2) ] , b : variant }"#)?;
    assert_eq!(&rt;
        text.as_slice(),
        br#"{"x y":[decimal(9,2)],b:variant}"#.as_slice()
    );
    Ok(())
}

#[test]
fn spaces_and_needless_quotes_are_left_out(rt: HostRuntime) -> Result<(), Fail> {
    let text = canonical(rt.alloc(), r#"{ "b_1":decimal ( 9 , 2 ),"1":[boolean ] }"#)?;
    assert_eq!(&rt;
        text.as_slice(),
        br#"{b_1:decimal(9,2),"1":[boolean]}"#.as_slice()
    );
    Ok(())
}

#[test]
fn words_are_names_too(rt: HostRuntime) -> Result<(), Fail> {
    let text = canonical(
        rt.alloc(),
        "{int8:int8,variant:variant,z:[[string]],decimal:decimal(38,38)}",
    )?;
    assert_eq!(&rt;
        text.as_slice(),
        b"{int8:int8,variant:variant,z:[[string]],decimal:decimal(38,38)}".as_slice()
    );
    Ok(())
}

#[test]
fn fields_have_names_that_differ(rt: HostRuntime) -> Result<(), Fail> {
    assert!(&rt; is_bad(rt.alloc(), "{}"));
    assert!(&rt; is_bad(rt.alloc(), "{a:int64,a:int8}"));
    assert!(&rt; is_bad(rt.alloc(), r#"{a:int64,"\u0061":int8}"#));
    assert!(&rt; is_bad(rt.alloc(), r#"{"\ud800":int8}"#));
    Ok(())
}

#[test]
fn decimals_are_within_their_limits(rt: HostRuntime) -> Result<(), Fail> {
    assert!(&rt; is_bad(rt.alloc(), "decimal(39,0)"));
    assert!(&rt; is_bad(rt.alloc(), "decimal(5,6)"));
    assert!(&rt; is_bad(rt.alloc(), "decimal(05,1)"));
    assert!(&rt; is_bad(rt.alloc(), "decimal(0,0)"));
    assert!(&rt; is_bad(rt.alloc(), "decimal(5,01)"));
    assert!(&rt; is_bad(rt.alloc(), "decimal"));
    Ok(())
}

#[test]
fn spaces_stand_between_parts_alone(rt: HostRuntime) -> Result<(), Fail> {
    assert!(&rt; is_bad(rt.alloc(), " int8"));
    assert!(&rt; is_bad(rt.alloc(), "int8 "));
    assert!(&rt; is_bad(rt.alloc(), "int 8"));
    assert!(&rt; is_bad(rt.alloc(), "[int8\t]"));
    assert!(&rt; is_bad(rt.alloc(), "decimal(1 0,0)"));
    Ok(())
}

#[test]
fn sixteen_brackets_may_be_open(rt: HostRuntime) -> Result<(), Fail> {
    let text = canonical(rt.alloc(), "[[[[[[[[[[[[[[[[int8]]]]]]]]]]]]]]]]")?;
    assert!(&rt; text.len() == 36);
    assert!(&rt; is_bad(rt.alloc(), "[[[[[[[[[[[[[[[[[int8]]]]]]]]]]]]]]]]]"));
    Ok(())
}
