//! The keys that were changed, for the checkpoints that take these alone.

ghost use Rattle.std.specs.Prelude.{◌≡◌, ◌+◌, ◌<◌, ◌≤◌, false, true, if◌then◌else◌, IsOk, OnErr, OnOk, length, max, nat_eq, slice_get, vec_capacity};
ghost use Rattle.std.specs.Cmp.Lexicographic.{pointwise, slice_cmp};
ghost use Rattle.std.specs.List.{IsDistinct};
ghost use Rattle.std.specs.List.Sorted.{IsStrictlySortedBy};
ghost use Rattle.std.specs.Ordering.{nat_cmp};
ghost use Rattle.indexmap.specs.IndexSet.{IsUnique, contains, index_set_len, spare};
ghost use Rattle.record_store.specs.ChangedFields.{set_of};
ghost use Rattle.record_store.specs.ChangedSets.{HasRoomFor, count, has, keys_of, empty_set, room, union, with_member};

#[cfg(test)]
mod tests;

use indexmap::IndexSet;
use procedure::{Key, NoMemory};
use std::alloc::Allocator;
use std::hash::{BuildHasherDefault, FoldHasher};
use std::marker::Model;

type Keys<A> = IndexSet<Key, BuildHasherDefault<FoldHasher>, A>;

/// Two sets of changed keys: those that are being collected for the next checkpoint, and those that
/// were frozen for the one that runs. Contracts see both as finite sets, beside the number of keys
/// that can be collected before memory is taken.
#[derive(Debug, Drop)]
pub struct Changed<A: Allocator> {
    collecting: Keys<A>,
    // Each key once. `freeze` fills it, so it has memory for each key that can be collected.
    frozen: Vec<Key, A>,
    // Whether the frozen keys lie in their order, least first.
    in_order: bool,
    // How many keys can be collected in all. Both others may have memory for more.
    places: usize,
}

impl<A: Allocator> Model for Changed<A> {
    ghost use Rattle.record_store.specs.ChangedSets.{ChangedSets, changed_sets_code};

    ghost Value = { ChangedSets };

    ghost coded = { changed_sets_code };

    ghost use Rattle.record_store.specs.ChangedFields.{IsKept, sets_of};

    ghost view = { sets_of };

    ghost invariant = { IsKept };
}

impl<A: Allocator + Copy> Changed<A> {
    /// No keys, and no room. It takes no memory.
    #[tactic(auto, using(crate::proofs::ChangedKeys::no_keys_rise))]
    pub fn new(alloc: A) -> Self
        ensures { result ≡ record { collecting = empty_set; frozen = empty_set; places = 0 } }
    {
        Changed {
            collecting: IndexSet::new(alloc),
            frozen: Vec::new(alloc),
            in_order: true,
            places: 0,
        }
    }
}

/// Adds a key that there is room for.
fn add_key<A: Allocator>(keys: &mut Keys<A>, key: Key)
    requires unique { IsUnique (pointwise nat_eq) keys.old }
    requires room { contains (pointwise nat_eq) keys.old key ≡ false → 0 < spare keys.old }
    ensures added { set_of keys.new.keys ≡ with_member (set_of keys.old.keys) key }
    ensures len { index_set_len keys.new ≡ index_set_len keys.old + (if contains (pointwise nat_eq) keys.old key then 0 else 1) }
    ensures room { index_set_len keys.old + spare keys.old ≤ index_set_len keys.new + spare keys.new }
    ensures unique { IsUnique (pointwise nat_eq) keys.new }
{
    // An insert of a key that is there may count as a place that is taken.
    if !keys.contains(&key) && keys.insert(key).is_err() {
        unreachable!()
    }
}

/// Adds keys that there is room for.
fn add_keys<A: Allocator>(keys: &mut Keys<A>, more: &[Key])
    requires unique { IsUnique (pointwise nat_eq) keys.old }
    requires room { length more.now ≤ spare keys.old }
    ensures added { set_of keys.new.keys ≡ union (set_of keys.old.keys) (set_of more.now) }
    ensures len { index_set_len keys.new ≤ index_set_len keys.old + length more.now }
    ensures room { index_set_len keys.old + spare keys.old ≤ index_set_len keys.new + spare keys.new }
    ensures unique { IsUnique (pointwise nat_eq) keys.new }
{
    for key in more {
        add_key(keys, *key);
    }
}

/// Puts keys that are there once in their order.
fn sort_keys<A: Allocator>(keys: &mut Vec<Key, A>)
    requires { IsDistinct (pointwise nat_eq) keys.old.items }
    ensures same { set_of keys.new.items ≡ set_of keys.old.items }
    ensures in_order { IsStrictlySortedBy (slice_cmp nat_cmp) keys.new.items }
    ensures distinct { IsDistinct (pointwise nat_eq) keys.new.items }
    ensures memory { vec_capacity keys.new ≡ vec_capacity keys.old }
{
    keys.sort_unstable();
}

/// Puts keys that are there once in their order, unless it is said that they are in it.
fn sort_once<A: Allocator>(keys: &mut Vec<Key, A>, in_order: &mut bool)
    requires distinct { IsDistinct (pointwise nat_eq) keys.old.items }
    requires said { in_order.old ≡ true → IsStrictlySortedBy (slice_cmp nat_cmp) keys.old.items }
    ensures same { set_of keys.new.items ≡ set_of keys.old.items }
    ensures in_order { IsStrictlySortedBy (slice_cmp nat_cmp) keys.new.items }
    ensures distinct { IsDistinct (pointwise nat_eq) keys.new.items }
    ensures memory { vec_capacity keys.new ≡ vec_capacity keys.old }
{
    if !*in_order {
        sort_keys(keys);
        *in_order = true;
    }
}

/// The list of these keys. There is memory for them.
fn fill<A: Allocator>(list: &mut Vec<Key, A>, keys: &[Key])
    requires { length keys.now ≤ vec_capacity list.old }
    ensures items { list.new.items ≡ keys.now }
    ensures memory { vec_capacity list.old ≤ vec_capacity list.new }
{
    list.clear();
    if list.extend_from_slice(keys).is_err() {
        unreachable!()
    }
}

impl<A: Allocator> Changed<A> {
    /// How many more keys can be collected before memory is taken.
    pub fn room(&self) -> usize
        ensures { result ≡ room self.now }
    {
        self.places - self.collecting.len()
    }

    /// Makes room for `more` keys beside the collected ones, and for the list that `freeze` makes of
    /// them all. It keeps the room that is there.
    pub fn make_room(&mut self, more: usize) -> Result<(), NoMemory>
        ensures ok { OnOk result (self.new ≡ record self.old { places = max self.old.places (count self.old.collecting + more) }) }
        ensures err { OnErr result (self.new ≡ self.old) }
        ensures memory { more ≤ room self.old → IsOk result }
    {
        let Some(places) = self.collecting.len().checked_add(more) else {
            return Err(NoMemory);
        };
        if self.places < places {
            self.collecting.reserve(more)?;
            self.frozen
                .reserve(places.saturating_sub(self.frozen.len()))?;
            self.places = places;
        }
        Ok(())
    }

    /// Collects a key. It takes no memory.
    pub fn join(&mut self, key: Key)
        requires { HasRoomFor self.old key }
        ensures { self.new ≡ record self.old { collecting = with_member self.old.collecting key } }
    {
        add_key(&mut self.collecting, key);
    }

    /// The collected keys become the frozen ones, in place of those that were, and no key is
    /// collected. It takes no memory.
    pub fn freeze(&mut self)
        ensures { self.new ≡ record self.old { collecting = empty_set; frozen = self.old.collecting } }
    {
        fill(&mut self.frozen, self.collecting.as_slice());
        self.in_order = false;
        // `clear` would go through all the room, and this goes through the keys.
        self.collecting.truncate(0);
    }

    /// No key is frozen.
    #[tactic(auto, using(crate::proofs::ChangedKeys::no_keys_rise))]
    pub fn clear_frozen(&mut self)
        ensures { self.new ≡ record self.old { frozen = empty_set } }
    {
        self.frozen.clear();
    }

    /// The frozen keys are collected beside those that are, and no key is frozen. It takes no memory.
    pub fn rejoin(&mut self)
        requires { count self.old.frozen ≤ room self.old }
        ensures { self.new ≡ record self.old { collecting = union self.old.collecting self.old.frozen; frozen = empty_set } }
    {
        add_keys(&mut self.collecting, self.frozen.as_slice());
        self.clear_frozen();
    }

    pub fn collects(&self, key: &Key) -> bool
        ensures { result ≡ has self.now.collecting key.now }
    {
        self.collecting.contains(key)
    }

    /// Puts the frozen keys in their byte order, if they aren't in it since `freeze`. `frozen_key` and
    /// `freezes` need the order, and so do it too.
    pub fn sort_frozen(&mut self)
        ensures { self.new ≡ self.old }
    {
        sort_once(&mut self.frozen, &mut self.in_order);
    }

    /// Whether the key is frozen. The frozen keys are brought into their order first, where they aren't in it.
    pub fn freezes(&mut self, key: &Key) -> bool
        ensures value { result ≡ has self.old.frozen key.now }
        ensures same { self.new ≡ self.old }
    {
        sort_once(&mut self.frozen, &mut self.in_order);
        self.frozen.binary_search(key).is_ok()
    }

    pub fn frozen_count(&self) -> usize
        ensures { result ≡ count self.now.frozen }
    {
        self.frozen.len()
    }

    /// The frozen key at an index in their byte order; None from `frozen_count` on.
    pub fn frozen_key(&mut self, index: usize) -> Option<Key>
        ensures value { result ≡ slice_get (keys_of self.old.frozen) index }
        ensures same { self.new ≡ self.old }
    {
        sort_once(&mut self.frozen, &mut self.in_order);
        self.frozen.get(index).copied()
    }
}
