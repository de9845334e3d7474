//! How lists and structs are written.

ghost use Rattle.std.specs.Prelude.{◌≡◌, ◌≤◌, ◌++◌, ℕ, OnOk, OnErr};
ghost use Rattle.std.specs.List.{All, flat_map};
ghost use Rattle.std.proofs.Common.{refl};
ghost use Rattle.vs_bytes.specs.Outcome.{Grows};
ghost use Rattle.thrift_compact.specs.Trees.{Fields, struct_value};
ghost use Rattle.thrift_compact.specs.Coded.{kind_of, coded, fields_coded};
ghost use Rattle.thrift_structs.specs.Listed.{list_tree, ListFits};

use crate::entries::StructOf;
use crate::lists::ListOf;
use thrift_compact::{Binary, Code, Int32, append_list_header};
use vs_bytes::{NoMemory, Sequence};

/// How the elements of a list are written: all have one type.
pub trait ElementCode: Code {
    ghost element_kind: { ℕ };

    /// The type of the elements.
    fn element_kind() -> u8
        ensures own { result ≡ element_kind }
        ensures most { result ≤ 15 };

    // Each element is of this type.
    ghost alike: { (x : Self.Of) → kind_of (Self.tree x) ≡ element_kind };
}

impl ElementCode for Int32 {
    ghost element_kind = { 5 };

    fn element_kind() -> u8 {
        5
    }

    ghost alike = { λ x. refl };
}

impl ElementCode for Binary {
    ghost element_kind = { 8 };

    fn element_kind() -> u8 {
        8
    }

    ghost alike = { λ x. refl };
}

/// How a struct is written: its fields, by their ids, which rise. `fits` says which structs have bytes: a list has
/// fewer than 2^32 elements, and a count is below 2^63.
pub trait StructCode {
    type Of: Drop;

    ghost fields: { Self.Of → Fields };

    // Whether the struct has bytes.
    ghost fits: { Self.Of → Type 0 };

    /// Appends the fields and the stop. After an `Err` some front of them may be appended.
    fn append_fields(into: &mut Vec<u8>, value: &Self::Of) -> Result<(), NoMemory>
        requires { fits value.now }
        ensures ok { OnOk result (into.new.items ≡ into.old.items ++ fields_coded 0 (fields value.now)) }
        ensures grows { Grows into.old.items into.new.items };
}

impl<C: StructCode> Code for StructOf<C> {
    type Of = C::Of;

    ghost tree = { λ s. struct_value (C.fields s) };

    ghost fits = { C.fits };

    fn kind(_value: &C::Of) -> u8 {
        12
    }

    #[tactic(auto, unfolding(thrift_compact::specs::Coded::coded))]
    fn write(into: &mut Vec<u8>, value: &C::Of) -> Result<(), NoMemory> {
        C::append_fields(into, value)
    }
}

impl<C: StructCode> ElementCode for StructOf<C> {
    ghost element_kind = { 12 };

    fn element_kind() -> u8 {
        12
    }

    ghost alike = { λ x. refl };
}

#[tactic(auto, using(vs_bytes::proofs::Growing::grows_on))]
fn append_elements<C: ElementCode>(into: &mut Vec<u8>, values: &[C::Of]) -> Result<(), NoMemory>
    requires { All C.fits values.now }
    ensures ok { OnOk result (into.new.items ≡ into.old.items ++ flat_map (λ x. coded (C.tree x)) values.now) }
    ensures grows { Grows into.old.items into.new.items }
{
    for value in values {
        C::write(into, value)?;
    }
    Ok(())
}

impl<C: ElementCode> Code for ListOf<C> {
    type Of = Sequence<C::Of>;

    ghost tree = { list_tree C.element_kind C.tree };

    ghost fits = { ListFits C.fits };

    fn kind(_value: &Sequence<C::Of>) -> u8 {
        9
    }

    #[tactic(auto, using(vs_bytes::proofs::Growing::grows_on, crate::proofs::Listed::list_joined))]
    fn write(into: &mut Vec<u8>, value: &Sequence<C::Of>) -> Result<(), NoMemory> {
        append_list_header(into, C::element_kind(), value.len() as u32)?;
        append_elements::<C>(into, value.as_slice())
    }
}

/// Appends the bytes of a struct. After an `Err` the output is as before.
pub fn write_struct<C: StructCode>(into: &mut Vec<u8>, value: &C::Of) -> Result<(), NoMemory>
    requires { C.fits value.now }
    ensures ok { OnOk result (into.new.items ≡ into.old.items ++ fields_coded 0 (C.fields value.now)) }
    ensures err { OnErr result (into.new.items ≡ into.old.items) }
{
    let before = into.len();
    let done = C::append_fields(into, value);
    if done.is_err() {
        into.truncate(before);
    }
    done
}
