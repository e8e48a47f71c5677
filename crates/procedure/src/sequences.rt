//! Vectors that contracts see as lists.

ghost use Rattle.std.specs.Prelude.{◌≡◌, ◌<◌, ◌↔◌, [], length, slice_get, option_copied, IsTrue, IsSome};

use std::alloc::Allocator;
use std::marker::Model;

/// A vector, seen by contracts as the list of its elements. It is made from a `Vec` and gives it
/// back without taking memory.
#[derive(Clone, Debug, Drop)]
pub struct Sequence<T, A: Allocator> {
    items: Vec<T, A>,
}

impl<T, A: Allocator> Model for Sequence<T, A> {
    ghost use Rattle.std.specs.Prelude.{List};
    ghost use Rattle.std.specs.Coded.{coded_list};

    ghost Value = { List T };

    ghost coded = { coded_list T.code };

    ghost view = { λ s. s.items.items };
}

impl<T, A: Allocator> Sequence<T, A> {
    /// The empty sequence, which takes no memory.
    pub fn empty(alloc: A) -> Self
        ensures { result ≡ [] }
    {
        Sequence {
            items: Vec::new(alloc),
        }
    }

    pub fn new(items: Vec<T, A>) -> Self
        ensures { result ≡ items.items }
    {
        Sequence { items }
    }

    pub fn allocator(&self) -> &A {
        self.items.allocator()
    }

    pub fn as_slice(&self) -> &[T]
        ensures { result.now ≡ self.now }
    {
        self.items.as_slice()
    }

    pub fn len(&self) -> usize
        ensures { result ≡ length self.now }
    {
        self.items.len()
    }

    /// The element at an index, if there is one.
    pub fn get(&self, index: usize) -> Option<&T>
        ensures value { option_copied result ≡ slice_get self.now index }
        ensures within { IsSome result ↔ (index < length self.now) }
    {
        self.items.get(index)
    }

    pub fn is_empty(&self) -> bool
        ensures { IsTrue result ↔ (self.now ≡ []) }
    {
        self.items.is_empty()
    }

    pub fn into_vec(self) -> Vec<T, A>
        ensures { result.items ≡ self }
    {
        let Sequence { items } = self;
        items
    }
}
