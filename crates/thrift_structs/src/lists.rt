//! Lists of entries.

ghost use Rattle.std.specs.Prelude.{◌≡◌, IfOk, Option};
ghost use Rattle.std.proofs.Common.{refl};
ghost use Rattle.vs_bytes.specs.Outcome.{Makes};
ghost use Rattle.thrift_compact.specs.Numbers.{mapped};
ghost use Rattle.thrift_compact.specs.Trees.{lists, elements_at, shaped};
ghost use Rattle.thrift_structs.specs.Entries.{each_in, list_in, list_read, pushed};

use crate::entries::Entry;
use std::alloc::Global;
use std::marker::PhantomData;
use thrift_compact::{list_at, pass_elements};
use vs_bytes::{NoMemory, Refusal, Sequence};

/// A list of entries: it has a meaning where each of its elements has one.
pub struct ListOf<E> {
    of: PhantomData<E>,
}

// The items with one more, or none where one has no meaning.
fn push_item<T: Drop>(
    list: Option<Sequence<T>>,
    item: Option<T>,
) -> Result<Option<Sequence<T>>, NoMemory>
    ensures { IfOk result (λ now. now ≡ pushed list item) }
{
    match list {
        Some(items) => push_to(items, item),
        None => Ok(None),
    }
}

fn push_to<T: Drop>(items: Sequence<T>, item: Option<T>) -> Result<Option<Sequence<T>>, NoMemory>
    ensures { IfOk result (λ now. now ≡ pushed (Some items) item) }
{
    match item {
        Some(item) => {
            let mut items = items;
            items.push(item)?;
            Ok(Some(items))
        }
        None => Ok(None),
    }
}

// No room is made by the size: it is only claimed.
#[tactic(auto, using(crate::proofs::Items::item_start, crate::proofs::Items::item_turn, crate::proofs::Items::item_end, std::proofs::lemmas::Bool::Decides::nat_tests))]
fn read_elements<E: Entry>(
    alloc: Global,
    kind: u8,
    size: u32,
    bytes: &[u8],
) -> Result<(Option<Sequence<E::Out>>, &[u8]), Refusal>
    ensures { Makes (λ r. (r.0, r.1.now)) result (mapped (each_in E.read) (elements_at (shaped E.shape kind) size bytes.now)) }
{
    let mut list = Some(Sequence::new(alloc));
    let mut rest = bytes;
    for index in 0..size {
        let (item, next) = E::read(alloc, kind, rest)?;
        list = push_item(list, item)?;
        rest = next;
    }
    Ok((list, rest))
}

#[tactic(auto, unfolding(crate::specs::Entries::list_read))]
fn read_list<E: Entry>(
    alloc: Global,
    bytes: &[u8],
) -> Result<(Option<Sequence<E::Out>>, &[u8]), Refusal>
    ensures { Makes (λ r. (r.0, r.1.now)) result (list_read E.shape E.read bytes.now) }
{
    let ((kind, size), rest) = list_at(bytes)?;
    if E::fits_element(kind) {
        read_elements::<E>(alloc, kind, size, rest)
    } else {
        let rest = pass_elements(rest, kind, size)?;
        Ok((None, rest))
    }
}

impl<E: Entry> Entry for ListOf<E> {
    type Out = Sequence<E::Out>;

    ghost shape = { lists E.shape };

    ghost read = { list_in E.read };

    #[tactic(auto, using(std::proofs::lemmas::Bool::Decides::nat_tests))]
    fn fits(kind: u8) -> bool {
        kind == 9
    }

    #[tactic(auto, using(std::proofs::lemmas::Bool::Decides::nat_tests))]
    fn fits_element(kind: u8) -> bool {
        kind == 9
    }

    fn read(
        alloc: Global,
        _kind: u8,
        bytes: &[u8],
    ) -> Result<(Option<Sequence<E::Out>>, &[u8]), Refusal> {
        read_list::<E>(alloc, bytes)
    }

    ghost passed = { refl };
}
