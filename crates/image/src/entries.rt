//! Entries: a key, and what it holds.

ghost use Rattle.std.specs.Prelude.{◌≡◌, ◌↔◌, IsTrue};
ghost use Rattle.std.specs.Ordering.{nat_cmp};
ghost use Rattle.std.specs.Cmp.Lexicographic.{slice_cmp};
ghost use Rattle.std.specs.List.Sorted.{IsPermutation, IsSortedByKey};
ghost use Rattle.image.specs.Images.{AllPresent, Rises};

use procedure::{Key, Value};
use std::alloc::{AllocError, Allocator};
use std::cmp::Ordering;
use std::marker::Model;

/// A key, and what it holds: a value, or nothing, where the key is gone.
#[derive(Debug, Drop)]
pub struct Entry<A: Allocator> {
    pub key: Key,
    pub cell: Option<Value<A>>,
}

impl<A: Allocator> Model for Entry<A> {
    ghost use Rattle.procedure.specs.Bytes.{Bytes, Cell};

    ghost Value = { Bytes × Cell };

    ghost view = { λ e. (e.key, e.cell) };
}

impl<A: Allocator + Clone> Clone for Entry<A> {
    ghost is_clone = { λ e f. f ≡ e };

    fn clone(&self) -> Result<Self, AllocError> {
        Ok(Entry {
            key: self.key,
            cell: self.cell.clone()?,
        })
    }
}

/// How the entry's key compares with a key.
pub(crate) fn compared<A: Allocator>(entry: &Entry<A>, key: &Key) -> Ordering
    ensures { result ≡ slice_cmp nat_cmp entry.now.0 key.now }
{
    entry.key.cmp(key)
}

/// Puts entries in the byte order of their keys, in place. Those of one key come in any order.
pub(crate) fn sort_by_keys<A: Allocator>(entries: &mut Vec<Entry<A>, A>)
    ensures moved { IsPermutation entries.old.items entries.new.items }
    ensures in_order { IsSortedByKey (λ e. e.0) (slice_cmp nat_cmp) entries.new.items }
{
    entries.sort_unstable_by(|one, other| one.key.cmp(&other.key));
}

/// Whether the keys strictly rise, so that none stands twice.
pub(crate) fn keys_rise<A: Allocator>(entries: &[Entry<A>]) -> bool
    ensures { IsTrue result ↔ Rises entries.now }
{
    let mut rest = entries;
    while let Some((first, tail)) = rest.split_first() {
        if let Some(second) = tail.first() {
            if first.key >= second.key {
                return false;
            }
        }
        rest = tail;
    }
    true
}

/// Whether no key is gone.
pub(crate) fn all_present<A: Allocator>(entries: &[Entry<A>]) -> bool
    ensures { IsTrue result ↔ AllPresent entries.now }
{
    entries.iter().all(|entry| entry.cell.is_some())
}
