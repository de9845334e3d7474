//! Lists.

ghost use Rattle.std.specs.Prelude.{◌≡◌, ◌^◌, [], ◌∷◌, ◌++◌, ◌<◌, ◌↔◌, length, slice_get, Some, IfOk, OnOk, OnErr, IsTrue};
ghost use Rattle.std.specs.Iterator.Adapters.{IterYieldsInOrder};
ghost use Rattle.std.specs.Slice.Iter.{iter_rest};

use crate::memory::NoMemory;
use std::alloc::Global;
use std::marker::Model;
use std::slice::Iter;

/// Items in order, which contracts see as their list.
#[derive(Drop)]
pub struct Sequence<T> {
    items: Vec<T>,
}

impl<T> Model for Sequence<T> {
    ghost use Rattle.std.specs.Prelude.{List};
    ghost use Rattle.std.specs.Coded.{coded_list};

    ghost Value = { List T };

    ghost coded = { coded_list T.code };

    ghost view = { λ s. s.items.items };
}

impl<T: Drop> Sequence<T> {
    /// No items.
    pub fn new(alloc: Global) -> Sequence<T>
        ensures { result ≡ [] }
    {
        Sequence {
            items: Vec::new(alloc),
        }
    }

    /// No items, and memory for `capacity` of them.
    pub fn with_capacity(alloc: Global, capacity: usize) -> Result<Sequence<T>, NoMemory>
        ensures { IfOk result (λ s. s ≡ []) }
    {
        Ok(Sequence {
            items: Vec::with_capacity(alloc, capacity)?,
        })
    }

    /// The items of a vector, which it takes over.
    pub fn from_vec(items: Vec<T>) -> Sequence<T>
        ensures { result ≡ items.items }
    {
        Sequence { items }
    }

    /// A vector of the items, in the same memory.
    pub fn into_vec(self) -> Vec<T>
        ensures { result.items ≡ self }
    {
        self.items
    }

    /// Puts one more item at the end. After an `Err` the items are as before.
    #[inline(always)]
    pub fn push(&mut self, item: T) -> Result<(), NoMemory>
        ensures ok { OnOk result (self.new ≡ self.old ++ item ∷ []) }
        ensures err { OnErr result (self.new ≡ self.old) }
    {
        // Room first: a push that can fail holds the item twice, and moves it once more.
        self.items.reserve(1)?;
        self.items.push_reserved(item);
        Ok(())
    }

    /// How many items there are.
    pub fn len(&self) -> usize
        ensures { result ≡ length self.now }
    {
        self.items.len()
    }

    /// Whether there are none.
    pub fn is_empty(&self) -> bool
        ensures { IsTrue result ↔ (self.now ≡ []) }
    {
        self.items.is_empty()
    }

    /// The item at `i`, counted from 0.
    pub fn at(&self, i: usize) -> &T
        requires { i < length self.now }
        ensures { slice_get self.now i ≡ Some result.now }
    {
        &self.items[i]
    }

    /// The items in place.
    pub fn as_slice(&self) -> &[T]
        ensures { result.now ≡ self.now }
    {
        self.items.as_slice()
    }

    /// The items in order.
    pub fn iter(&self) -> Iter<'_, T>
        ensures rest { iter_rest result ≡ self.now }
        ensures len { length (iter_rest result) ≡ length self.now }
        ensures bound { length (iter_rest result) < 2 ^ 64 }
        ensures runs { IterYieldsInOrder T }
    {
        self.items.iter()
    }
}
