//! Each way in which a schema isn't that of a shredded Variant.
//!
//! Types: BOOLEAN 0, INT32 1, BYTE_ARRAY 6. Repetitions: required 0, optional 1, repeated 2.

use crate::schemas::{Row, is_misshaped, is_refused, schema};
use std::process::Abort;
use std::test::Fail;
use vs_bytes::Rule;

const ROOT: Row<'static> = (0, "schema", -1, 1, -1);

const META: Row<'static> = (0, "metadata", 6, 0, -1);

const VALUE: Row<'static> = (1, "value", 6, 0, -1);

#[test]
fn a_column_is_a_group_that_is_not_repeated(rt: HostRuntime) {
    assert!(&rt; is_misshaped(rt.alloc(), &[ROOT, (1, "v", 6, 0, -1)]));
    assert!(&rt; is_misshaped(rt.alloc(), &[ROOT, (2, "v", -1, 2, -1), META, VALUE]));
    assert!(&rt; is_misshaped(rt.alloc(), &[ROOT, (3, "v", -1, 2, -1), META, VALUE]));
}

#[test]
fn metadata_is_one_required_byte_array(rt: HostRuntime) {
    assert!(&rt; is_misshaped(rt.alloc(), &[ROOT, (1, "v", -1, 1, -1), VALUE]));
    assert!(&rt;
        is_misshaped(
            rt.alloc(),
            &[ROOT, (1, "v", -1, 2, -1), (1, "metadata", 6, 0, -1), VALUE]
        )
    );
    assert!(&rt;
        is_misshaped(
            rt.alloc(),
            &[ROOT, (1, "v", -1, 2, -1), (0, "metadata", 1, 0, -1), VALUE]
        )
    );
    assert!(&rt; is_misshaped(rt.alloc(), &[ROOT, (1, "v", -1, 3, -1), META, META, VALUE]));
}

#[test]
fn a_column_has_a_value_or_a_typed_value_and_no_other_member(rt: HostRuntime) {
    assert!(&rt; is_misshaped(rt.alloc(), &[ROOT, (1, "v", -1, 1, -1), META]));
    assert!(&rt;
        is_misshaped(
            rt.alloc(),
            &[
                ROOT,
                (1, "v", -1, 3, -1),
                META,
                VALUE,
                (1, "other", 6, 0, -1)
            ]
        )
    );
    assert!(&rt; is_misshaped(rt.alloc(), &[ROOT, (1, "v", -1, 3, -1), META, VALUE, VALUE]));
}

#[test]
fn a_value_is_a_required_or_optional_byte_array(rt: HostRuntime) {
    assert!(&rt;
        is_misshaped(
            rt.alloc(),
            &[ROOT, (1, "v", -1, 2, -1), META, (2, "value", 6, 0, -1)]
        )
    );
    assert!(&rt;
        is_misshaped(
            rt.alloc(),
            &[ROOT, (1, "v", -1, 2, -1), META, (1, "value", 1, 0, -1)]
        )
    );
    assert!(&rt;
        is_misshaped(
            rt.alloc(),
            &[
                ROOT,
                (1, "v", -1, 2, -1),
                META,
                (1, "value", 6, 1, -1),
                META
            ]
        )
    );
}

#[test]
fn a_typed_value_is_optional(rt: HostRuntime) {
    assert!(&rt;
        is_misshaped(
            rt.alloc(),
            &[
                ROOT,
                (1, "v", -1, 3, -1),
                META,
                VALUE,
                (0, "typed_value", 1, 0, -1)
            ]
        )
    );
    assert!(&rt;
        is_misshaped(
            rt.alloc(),
            &[
                ROOT,
                (1, "v", -1, 3, -1),
                META,
                VALUE,
                (2, "typed_value", 1, 0, -1)
            ]
        )
    );
}

const TOP: Row<'static> = (1, "v", -1, 2, -1);

const OBJECT: Row<'static> = (1, "typed_value", -1, 1, -1);

#[test]
fn a_field_is_a_required_group_with_members_of_a_node(rt: HostRuntime) {
    assert!(&rt;
        is_misshaped(
            rt.alloc(),
            &[ROOT, TOP, META, OBJECT, (1, "a", -1, 1, -1), VALUE]
        )
    );
    assert!(&rt; is_misshaped(rt.alloc(), &[ROOT, TOP, META, OBJECT, (0, "a", 6, 0, -1)]));
    assert!(&rt; is_misshaped(rt.alloc(), &[ROOT, TOP, META, OBJECT, (0, "a", -1, 0, -1)]));
    assert!(&rt;
        is_misshaped(
            rt.alloc(),
            &[ROOT, TOP, META, OBJECT, (0, "a", -1, 2, -1), META, VALUE]
        )
    );
}

#[test]
fn an_object_has_fields_of_different_names(rt: HostRuntime) {
    assert!(&rt;
        is_misshaped(
            rt.alloc(),
            &[ROOT, TOP, META, (1, "typed_value", -1, 0, -1)]
        )
    );
    assert!(&rt;
        is_misshaped(
            rt.alloc(),
            &[
                ROOT,
                TOP,
                META,
                (1, "typed_value", -1, 2, -1),
                (0, "a", -1, 1, -1),
                VALUE,
                (0, "a", -1, 1, -1),
                VALUE
            ]
        )
    );
}

// Converted type 3 is LIST.
const LIST: Row<'static> = (1, "typed_value", -1, 1, 3);

#[test]
fn a_list_is_one_repeated_group_with_one_required_group(rt: HostRuntime) {
    assert!(&rt; is_misshaped(rt.alloc(), &[ROOT, TOP, META, (1, "typed_value", -1, 0, 3)]));
    assert!(&rt; is_misshaped(rt.alloc(), &[ROOT, TOP, META, LIST, (2, "list", 6, 0, -1)]));
    assert!(&rt;
        is_misshaped(
            rt.alloc(),
            &[
                ROOT,
                TOP,
                META,
                LIST,
                (1, "list", -1, 1, -1),
                (0, "element", -1, 1, -1),
                VALUE
            ]
        )
    );
    assert!(&rt;
        is_misshaped(
            rt.alloc(),
            &[
                ROOT,
                TOP,
                META,
                LIST,
                (2, "list", -1, 1, -1),
                (1, "element", -1, 1, -1),
                VALUE
            ]
        )
    );
    assert!(&rt;
        is_misshaped(
            rt.alloc(),
            &[
                ROOT,
                TOP,
                META,
                LIST,
                (2, "list", -1, 2, -1),
                (0, "element", -1, 1, -1),
                VALUE,
                (0, "more", -1, 1, -1),
                VALUE
            ]
        )
    );
}

#[test]
fn a_root_without_the_column_has_no_variant(rt: HostRuntime) -> Result<(), Fail> {
    let other = schema(rt.alloc(), &[ROOT, (1, "w", -1, 2, -1), META, VALUE])?;
    assert!(&rt; is_refused(rt.alloc(), &other, Rule::NoVariant));
    let leaf = schema(rt.alloc(), &[(0, "v", 6, 0, -1)])?;
    assert!(&rt; is_refused(rt.alloc(), &leaf, Rule::NoVariant));
    Ok(())
}
