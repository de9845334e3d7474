//! What fields hold.

ghost use Rattle.std.specs.Prelude.{◌≡◌, None, Option, ℕ};
ghost use Rattle.std.proofs.Common.{refl};
ghost use Rattle.vs_bytes.specs.Outcome.{Makes};
ghost use Rattle.thrift_compact.specs.Numbers.{mapped};
ghost use Rattle.thrift_compact.specs.Trees.{Value, Shape, other, i32s, i64s, binaries, structs, is_of, is_element, shaped, at_shape};
ghost use Rattle.thrift_compact.specs.Slots.{put as put_spec, i32_in, struct_in, read_by};
ghost use Rattle.thrift_structs.specs.Entries.{i64_in, binary_in};

use crate::drafts::{Draft, read_struct};
use std::alloc::Global;
use std::marker::PhantomData;
use thrift_compact::{Binary, Int32, Int64, Slot, binary_at, i32_at, i64_at, pass};
use vs_bytes::{Bytes, Refusal};

/// What a field holds. `shape` is its type, and `read` what a value of the type means.
pub trait Entry {
    type Out: Drop;

    ghost shape: { Shape };

    ghost read: { Value → Option Self.Out };

    /// Whether a field's type is the entry's.
    fn fits(kind: u8) -> bool
        ensures { result ≡ is_of shape kind };

    /// Whether the elements of a list are of the entry's type.
    fn fits_element(kind: u8) -> bool
        ensures { result ≡ is_element shape kind };

    /// Reads a value of the entry's type: `None` where it has no meaning.
    fn read(alloc: Global, kind: u8, bytes: &[u8]) -> Result<(Option<Self::Out>, &[u8]), Refusal>
        ensures { Makes (λ r. (r.0, r.1.now)) result (mapped read (shaped shape kind bytes.now)) };

    // What is passed over has none.
    ghost passed: { read other ≡ None };
}

/// Reads the value of a field into its slot.
#[tactic(auto, using(crate::proofs::FieldValues::put_other), unfolding(thrift_compact::specs::Trees::at_shape, thrift_compact::specs::Trees::passed_over))]
pub fn put<'a, E: Entry>(
    alloc: Global,
    slot: &mut Slot<E::Out>,
    kind: u8,
    bytes: &'a [u8],
) -> Result<&'a [u8], Refusal>
    ensures { Makes (λ rest. (slot.new, rest.now)) result (mapped (λ v. put_spec slot.old (E.read v)) (at_shape E.shape kind bytes.now)) }
{
    if E::fits(kind) {
        let (value, rest) = E::read(alloc, kind, bytes)?;
        slot.put(value);
        Ok(rest)
    } else {
        let rest = pass(bytes, kind)?;
        slot.put(None);
        Ok(rest)
    }
}

impl Entry for Int32 {
    type Out = i32;

    ghost shape = { i32s };

    ghost read = { i32_in };

    #[tactic(auto, using(std::proofs::lemmas::Bool::Decides::nat_tests))]
    fn fits(kind: u8) -> bool {
        kind == 5
    }

    #[tactic(auto, using(std::proofs::lemmas::Bool::Decides::nat_tests))]
    fn fits_element(kind: u8) -> bool {
        kind == 5
    }

    #[tactic(auto, unfolding(thrift_compact::specs::Trees::shaped))]
    fn read(_alloc: Global, _kind: u8, bytes: &[u8]) -> Result<(Option<i32>, &[u8]), Refusal> {
        let (number, rest) = i32_at(bytes)?;
        Ok((Some(number), rest))
    }

    ghost passed = { refl };
}

impl Entry for Int64 {
    type Out = i64;

    ghost shape = { i64s };

    ghost read = { i64_in };

    #[tactic(auto, using(std::proofs::lemmas::Bool::Decides::nat_tests))]
    fn fits(kind: u8) -> bool {
        kind == 6
    }

    #[tactic(auto, using(std::proofs::lemmas::Bool::Decides::nat_tests))]
    fn fits_element(kind: u8) -> bool {
        kind == 6
    }

    #[tactic(auto, unfolding(thrift_compact::specs::Trees::shaped))]
    fn read(_alloc: Global, _kind: u8, bytes: &[u8]) -> Result<(Option<i64>, &[u8]), Refusal> {
        let (number, rest) = i64_at(bytes)?;
        Ok((Some(number), rest))
    }

    ghost passed = { refl };
}

impl Entry for Binary {
    type Out = Bytes;

    ghost shape = { binaries };

    ghost read = { binary_in };

    #[tactic(auto, using(std::proofs::lemmas::Bool::Decides::nat_tests))]
    fn fits(kind: u8) -> bool {
        kind == 8
    }

    #[tactic(auto, using(std::proofs::lemmas::Bool::Decides::nat_tests))]
    fn fits_element(kind: u8) -> bool {
        kind == 8
    }

    #[tactic(auto, unfolding(thrift_compact::specs::Trees::shaped))]
    fn read(alloc: Global, _kind: u8, bytes: &[u8]) -> Result<(Option<Bytes>, &[u8]), Refusal> {
        let (part, rest) = binary_at(bytes)?;
        Ok((Some(Bytes::from_slice(alloc, part)?), rest))
    }

    ghost passed = { refl };
}

/// A struct.
pub struct StructOf<D> {
    of: PhantomData<D>,
}

impl<D: Draft> Entry for StructOf<D> {
    type Out = D::Item;

    ghost shape = { structs D.shapes };

    ghost read = { struct_in (read_by D.put D.start D.finish) };

    #[tactic(auto, using(std::proofs::lemmas::Bool::Decides::nat_tests))]
    fn fits(kind: u8) -> bool {
        kind == 12
    }

    #[tactic(auto, using(std::proofs::lemmas::Bool::Decides::nat_tests))]
    fn fits_element(kind: u8) -> bool {
        kind == 12
    }

    #[tactic(auto, using(crate::proofs::FieldValues::struct_is), unfolding(thrift_compact::specs::Trees::shaped))]
    fn read(alloc: Global, _kind: u8, bytes: &[u8]) -> Result<(Option<D::Item>, &[u8]), Refusal> {
        read_struct::<D>(alloc, bytes)
    }

    ghost passed = { refl };
}
