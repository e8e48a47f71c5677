//! Maps by key: tables, and the changes of a call.

ghost use Rattle.std.specs.Prelude.{◌≡◌, ◌↔◌, IfOk, IsOk, IsSome, IsTrue, OnErr, OnOk, nat_eq, option_copied};
ghost use Rattle.std.specs.Ordering.{nat_cmp};
ghost use Rattle.std.specs.Cmp.Lexicographic.{pointwise, slice_cmp};
ghost use Rattle.std.specs.FinMap as map;
ghost use Rattle.std.specs.FinMap.Entries.{is_sorted};
ghost use Rattle.std.specs.List.{IsDistinct};
ghost use Rattle.std.specs.Map.{keys_of};
ghost use Rattle.std.specs.List.Sorted.{IsPermutation, IsSortedByKey};
ghost use Rattle.procedure.specs.Table.{with_pairs};

use crate::keys::Key;
use crate::memory::NoMemory;
use crate::sequences::Sequence;
use crate::values::Value;
use indexmap::IndexMap;
use std::alloc::{AllocError, Allocator};
use std::cmp;
use std::hash::{BuildHasherDefault, FoldHasher};
use std::marker::Model;

type Entries<V, A> = IndexMap<Key, V, BuildHasherDefault<FoldHasher>, A>;

/// A hash map, seen by contracts as a finite map in the byte order of its keys. A look-up takes as long
/// in a large map as in a small one. Once more than half of its keys are gone, their room is given back.
#[derive(Debug, Drop)]
pub struct KeyMap<V, A: Allocator> {
    entries: Entries<V, A>,
    /// The most keys for which there was room or which there were, since room was last given back. The
    /// capacity of a hash map doesn't tell this, since it falls with removals.
    most: usize,
}

/// What each present key holds.
pub type Table<A> = KeyMap<Value<A>, A>;

/// What the changed keys become: a value, or absent.
pub type Changes<A> = KeyMap<Option<Value<A>>, A>;

impl<V, A: Allocator> Model for KeyMap<V, A> {
    ghost use Rattle.std.specs.Coded.{coded_list, coded_ℕ};
    ghost use Rattle.std.specs.Ordering.{nat_cmp};
    ghost use Rattle.std.specs.Cmp.Lexicographic.{slice_cmp};
    ghost use Rattle.std.specs.FinMap as map;
    ghost use Rattle.procedure.specs.Table.{KeyMap};

    ghost Value = { KeyMap V };

    ghost coded = { map.code {R = slice_cmp nat_cmp} (coded_list coded_ℕ) V.code };

    ghost view = { λ m. map.from_entries {R = slice_cmp nat_cmp} m.entries.entries };
}

impl<V, A: Allocator + Copy> KeyMap<V, A> {
    /// The empty map, which takes no memory.
    pub fn new(alloc: A) -> Self
        ensures { result ≡ map.empty }
    {
        KeyMap {
            entries: IndexMap::new(alloc),
            most: 0,
        }
    }
}

impl<V, A: Allocator> KeyMap<V, A> {
    pub fn len(&self) -> usize
        ensures { result ≡ map.len self.now }
    {
        self.entries.len()
    }

    pub fn is_empty(&self) -> bool
        ensures { IsTrue result ↔ (map.len self.now ≡ 0) }
    {
        self.len() == 0
    }

    #[inline(always)]
    pub fn get(&self, key: &Key) -> Option<&V>
        ensures { option_copied result ≡ map.get self.now key.now }
    {
        self.entries.get(key)
    }
}

impl<V: Drop, A: Allocator> KeyMap<V, A> {
    /// What the key held before goes back to the caller. Only a new key takes memory.
    #[inline(always)]
    pub fn insert(&mut self, key: Key, value: V) -> Result<Option<V>, NoMemory>
        ensures before { IfOk result (λ before. before ≡ map.get self.old key) }
        ensures ok { OnOk result (self.new ≡ map.insert self.old key value) }
        ensures err { OnErr result (self.new ≡ self.old) }
        ensures memory { IsSome (map.get self.old key) → IsOk result }
    {
        let before = self.entries.insert(key, value)?;
        self.most = cmp::max(self.most, self.len());
        Ok(before)
    }

    /// What the key held goes back to the caller. Where room is given back the allocator is asked for a
    /// smaller block; if it refuses, the map keeps the one that it has.
    pub fn remove(&mut self, key: &Key) -> Option<V>
        ensures value { result ≡ map.get self.old key.now }
        ensures removed { self.new ≡ map.remove self.old key.now }
    {
        let removed = self.entries.swap_remove(key);
        self.trim();
        removed
    }

    /// Gives back room where more than half of the keys are gone.
    #[inline(always)]
    fn trim(&mut self)
        ensures { self.new ≡ self.old }
    {
        if self.len() < self.most / 2 {
            self.entries.shrink_to_fit();
            self.most = self.len();
        }
    }

    /// The pairs, in the byte order of their keys.
    pub fn into_pairs(self, alloc: A) -> Result<Sequence<(Key, V), A>, NoMemory>
        ensures { IfOk result (λ pairs. pairs ≡ map.entries self) }
    {
        let mut pairs = collected(alloc, self.entries)?;
        sort_by_keys(&mut pairs);
        Ok(Sequence::new(pairs))
    }
}

fn collected<V: Drop, A: Allocator>(
    alloc: A,
    entries: Entries<V, A>,
) -> Result<Vec<(Key, V), A>, AllocError>
    ensures pairs { IfOk result (λ pairs. pairs.items ≡ entries.entries) }
    ensures once { IsDistinct (pointwise nat_eq) (keys_of entries.entries) }
{
    entries.into_iter().collect(alloc)
}

/// Puts pairs in the byte order of their keys, in place.
fn sort_by_keys<V, A: Allocator>(pairs: &mut Vec<(Key, V), A>)
    ensures moved { IsPermutation pairs.old.items pairs.new.items }
    ensures in_order { IsSortedByKey (λ p. p.0) (slice_cmp nat_cmp) pairs.new.items }
{
    pairs.sort_unstable_by(|one, other| one.0.cmp(&other.0));
}

/// The empty map with room for so many keys.
fn with_room<V, A: Allocator + Copy>(alloc: A, room: usize) -> Result<KeyMap<V, A>, AllocError>
    ensures { IfOk result (λ m. m ≡ map.empty) }
{
    Ok(KeyMap {
        entries: IndexMap::with_capacity(alloc, room)?,
        most: room,
    })
}

fn inserted<V: Drop, A: Allocator + Copy>(
    alloc: A,
    pairs: Vec<(Key, V), A>,
) -> Result<KeyMap<V, A>, NoMemory>
    ensures { IfOk result (λ m. m ≡ with_pairs map.empty pairs.items) }
{
    let mut made = with_room(alloc, pairs.len())?;
    for (key, value) in pairs {
        made.insert(key, value)?;
    }
    // Of pairs with the same key all but one are gone.
    made.trim();
    Ok(made)
}

impl<V: Drop, A: Allocator + Copy> KeyMap<V, A> {
    /// The map of these pairs. Of two with the same key the later counts.
    pub fn from_pairs(alloc: A, pairs: Sequence<(Key, V), A>) -> Result<Self, NoMemory>
        ensures value { IfOk result (λ m. m ≡ with_pairs map.empty pairs) }
        ensures sorted { IsTrue (is_sorted (slice_cmp nat_cmp) pairs) → IfOk result (λ m. map.entries m ≡ pairs) }
    {
        inserted(alloc, pairs.into_vec())
    }
}
