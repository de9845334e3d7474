//! Values that were judged, read in place.

ghost use Rattle.std.specs.Prelude.{◌≡◌, true, false, is_ok};
ghost use Rattle.variant_meta.specs.MetaRefs.{names_of};
ghost use Rattle.variant_read.specs.Layout.{is_object, id_size, offset_size};
ghost use Rattle.variant_read.specs.Items.{items_in};

use crate::layout::Layout;
use exact_num::Number;
use variant_meta::MetaRef;

/// A Variant value, read in place.
///
/// Integers and decimals of every width are numbers, and both kinds of string are texts (VariantEncoding.md,
/// "Value encoding").
#[derive(Clone, Copy)]
pub enum ValueRef<'a> {
    /// Null.
    Null,
    /// True or false.
    Bool(bool),
    /// An integer or a decimal.
    Num(Number),
    /// A text, in place.
    Text(&'a str),
    /// An object, read field by field.
    Object(ObjectView<'a>),
    /// An array, read element by element.
    Array(ArrayView<'a>),
}

/// A value that holds no others.
#[derive(Clone, Copy)]
pub(crate) enum Scalar<'a> {
    Null,
    Bool(bool),
    Num(Number),
    Text(&'a str),
}

/// An object or array whose items are values.
#[derive(Clone, Copy)]
pub(crate) struct Container<'a> {
    pub(crate) layout: Layout<'a>,
    pub(crate) meta: MetaRef<'a>,
    // How deep arrays and objects may nest inside.
    pub(crate) room: u8,
    ghost judged: { is_ok (items_in (names_of meta) room layout.bytes.now) ≡ true },
}

/// The elements of an array, in order.
#[derive(Clone, Copy)]
pub struct ArrayView<'a> {
    pub(crate) of: Container<'a>,
    ghost array: { is_object of.layout.bytes.now ≡ false },
}

/// The fields of an object, in the order of their names.
#[derive(Clone, Copy)]
pub struct ObjectView<'a> {
    pub(crate) of: Container<'a>,
    ghost object: { is_object of.layout.bytes.now ≡ true },
}

/// An array whose offsets have `OW` bytes, from 1 to 4.
#[derive(Clone, Copy)]
pub struct ArrayRef<'a, const OW: usize> {
    /// The array, whatever the width of its offsets.
    pub view: ArrayView<'a>,
    ghost offsets: { offset_size view.of.layout.bytes.now ≡ OW },
}

/// An object whose offsets have `OW` bytes and whose ids have `IW`, each from 1 to 4.
#[derive(Clone, Copy)]
pub struct ObjectRef<'a, const OW: usize, const IW: usize> {
    /// The object, whatever the widths of its offsets and ids.
    pub view: ObjectView<'a>,
    ghost offsets: { offset_size view.of.layout.bytes.now ≡ OW },
    ghost ids: { id_size view.of.layout.bytes.now ≡ IW },
}
