//! The store.

ghost use Rattle.std.specs.Prelude.{◌≡◌, ◌<◌, ◌≤◌, ◌↔◌, ◌+◌, [], length, map, max, IfOk, OnOk, OnErr, IsSome, IsTrue, Some, None, Err, true, false, nat_eq, slice_index_or, vec_capacity};
ghost use Rattle.std.specs.Option.{option_map};
ghost use Rattle.std.specs.Cmp.Lexicographic.{pointwise};
ghost use Rattle.indexmap.specs.IndexMap.{spare, Updates as Notes};
ghost use Rattle.record_store.specs.DeadKeys.{SameOffers};
ghost use Rattle.record_store.specs.Entries.{lent_record};
ghost use Rattle.record_store.specs.Fields.{mark_of};
ghost use Rattle.record_store.specs.Stores.{Finds, IsLeastCandidate, HasKeysOnce, record_at_rest, changed, key_at, live_at, live_count, new_record, reclaimed, record_at, records, stable_at, with_available, with_aside, with_copy, with_live, with_record, with_stable, create_error_text};
ghost use Rattle.record_store.specs.declared.records.Stable.TheVariants.{Empty, Was};
ghost use Rattle.record_store.specs.declared.stores.CreateError.TheVariants.{TableFull, NoMemory};

#[cfg(test)]
mod number_tests;

use crate::dead_keys::DeadKeys;
use crate::entries;
use crate::entries::{
    Entries, clean_all, copy_of_live, dead_key, lent, renew_offer, renew_offer_where, vacate,
};
use crate::limits::STORE_RECORDS;
use crate::records::{Record, Stable};
use indexmap::IndexMap;
use procedure::{Key, NoMemory, Value};
use std::alloc::Allocator;
use std::error::Error;
use std::fmt;
use std::hash::{BuildHasherDefault, FoldHasher};
use std::marker::Model;

type Index<A> = IndexMap<Key, usize, BuildHasherDefault<FoldHasher>, A>;

/// Why no record was made.
#[derive(Clone, Copy, Debug, PartialEq, Eq)]
pub enum CreateError {
    /// There are 100,000 records.
    TableFull,
    NoMemory,
}

impl fmt::Display for CreateError {
    ghost output = { λ e. Some (create_error_text e) };

    fn fmt<W: fmt::Write>(&self, f: &mut fmt::Formatter<W>) -> fmt::Result {
        f.write_str(match self {
            CreateError::TableFull => "table full",
            CreateError::NoMemory => "no memory",
        })
    }
}

impl Error for CreateError {}

impl From<NoMemory> for CreateError {
    ghost from_gives = { λ _ refusal. refusal ≡ NoMemory };

    fn from(_refused: NoMemory) -> Self {
        CreateError::NoMemory
    }
}

/// Records in slots, each found by its key, seen by contracts as the list of the slots: vacant, or
/// with a record.
///
/// A record whose live version is absent is dead, and keeps its slot until it is reclaimed. Calls
/// take the slot's number; where the slot is vacant they change nothing.
#[derive(Drop)]
pub struct Store<A: Allocator> {
    slots: Entries<A>,
    records: usize,
    // From place `records` on, the vacant slots, the one to be used next first. What stands before
    // says nothing; it keeps a place for each slot, so that a reclaim takes no memory.
    vacant: Vec<usize, A>,
    index: Index<A>,
    dead: DeadKeys<A>,
    number: u64,
}

impl<A: Allocator> Model for Store<A> {
    ghost use Rattle.record_store.specs.Stores.{Slots};

    ghost Value = { Slots };

    ghost use Rattle.record_store.specs.Fields.{slots_of, IsStore};

    ghost view = { slots_of };

    ghost invariant = { IsStore };
}

impl<A: Allocator + Copy> Store<A> {
    /// A store without slots, which takes no memory.
    pub fn new(alloc: A) -> Self
        ensures { result ≡ [] }
    {
        Store {
            slots: Entries::new(alloc),
            records: 0,
            vacant: Vec::new(alloc),
            index: IndexMap::new(alloc),
            dead: DeadKeys::new(alloc),
            number: 1,
        }
    }

    /// A store without slots, with room for so many records; or out of memory (`NoMemory`).
    pub fn with_capacity(alloc: A, capacity: usize) -> Result<Self, NoMemory>
        ensures { IfOk result (λ store. store ≡ []) }
    {
        let records = 0;
        let slots = Entries::with_capacity(alloc, capacity)?;
        let vacant = Vec::with_capacity(alloc, capacity)?;
        let index = IndexMap::with_capacity(alloc, capacity)?;
        let mut dead = DeadKeys::new(alloc);
        if let Some(last) = capacity.checked_sub(1) {
            dead.make_place(last)?;
        }
        Ok(Store {
            slots,
            records,
            vacant,
            index,
            dead,
            number: 1,
        })
    }
}

impl<A: Allocator> Store<A> {
    /// How many slots there are, vacant ones counted.
    pub fn slots(&self) -> usize
        ensures { result ≡ length self.now }
    {
        self.slots.len()
    }

    /// How many records there are, dead ones counted.
    pub fn len(&self) -> usize
        ensures value { result ≡ records self.now }
        ensures most { records self.now ≤ STORE_RECORDS }
    {
        self.records
    }

    pub fn is_empty(&self) -> bool
        ensures { IsTrue result ↔ (records self.now ≡ 0) }
    {
        self.len() == 0
    }

    /// How many records aren't dead. It looks at each slot.
    pub fn live_count(&self) -> usize
        ensures { result ≡ live_count self.now }
    {
        entries::live_among(&self.slots)
    }

    /// The slot of the key's record. No two slots have the same key.
    #[inline(always)]
    pub fn find(&self, key: &Key) -> Option<usize>
        ensures found { Finds self.now key.now result }
        ensures once { HasKeysOnce self.now }
    {
        self.index.get(key).copied()
    }

    /// The record of a slot.
    pub fn slot(&self, slot: usize) -> Option<Record<'_, A>>
        ensures { option_map lent_record result ≡ record_at self.now slot }
    {
        lent(&self.slots, slot, self.number)
    }

    /// The live version becomes this, and the old one goes back to the caller.
    #[inline(always)]
    pub fn write_live(&mut self, slot: usize, live: Option<Value<A>>) -> Option<Value<A>>
        ensures before { result ≡ live_at self.old slot }
        ensures changed { self.new ≡ changed (with_live live) self.old slot }
    {
        let lives = live.is_some();
        let before = entries::set_live(&mut self.slots, slot, live);
        let turned = before.is_some() != lives;
        renew_offer_where(turned, &self.slots, &mut self.dead, slot);
        before
    }

    /// Puts a live version back that a write gave.
    pub fn undo(&mut self, slot: usize, before: Option<Value<A>>)
        ensures { self.new ≡ changed (with_live before) self.old slot }
    {
        self.write_live(slot, before);
    }

    pub fn erase_stable(&mut self, slot: usize)
        ensures { self.new ≡ changed (with_stable Empty) self.old slot }
    {
        entries::erase_stable(&mut self.slots, slot);
    }

    /// The stable version goes to the caller, and none is left.
    pub fn take_stable(&mut self, slot: usize) -> Stable<Option<Value<A>>>
        ensures value { result ≡ stable_at self.old slot }
        ensures changed { self.new ≡ changed (with_stable Empty) self.old slot }
    {
        entries::take_stable(&mut self.slots, slot, self.number)
    }

    /// Puts a stable version back that was taken. It takes no memory, and time as `copy_stable`.
    pub fn put_stable(&mut self, slot: usize, stable: Option<Value<A>>)
        ensures { self.new ≡ changed (with_stable (Was stable)) self.old slot }
    {
        entries::set_stable(&mut self.slots, slot, stable, self.number);
    }

    pub fn set_available(&mut self, slot: usize, available: bool)
        ensures { self.new ≡ changed (with_available available) self.old slot }
    {
        let mark = mark_of(self.number, available);
        entries::set_mark(&mut self.slots, slot, mark);
    }

    /// Every record becomes not available and without a stable version. It takes constant time, but
    /// for once in 2^64 - 1 calls.
    pub fn next_number(&mut self)
        ensures { self.new ≡ map (option_map record_at_rest) self.old }
    {
        if self.number == u64::MAX {
            clean_all(&mut self.slots);
            self.number = 1;
        } else {
            self.number += 1;
        }
    }

    /// The slot of the least key of the dead records that aren't set aside. No two slots have the same
    /// key.
    pub fn least_candidate(&self) -> Option<usize>
        ensures least { IsLeastCandidate self.now result }
        ensures once { HasKeysOnce self.now }
    {
        self.dead.least()
    }

    /// The record is no candidate for reclaim until it is reconsidered.
    pub fn set_aside(&mut self, slot: usize)
        ensures { self.new ≡ changed (with_aside true) self.old slot }
    {
        entries::set_aside(&mut self.slots, slot, true);
        renew_offer(&self.slots, &mut self.dead, slot);
    }

    /// The record is a candidate for reclaim whenever it is dead.
    pub fn reconsider(&mut self, slot: usize)
        ensures { self.new ≡ changed (with_aside false) self.old slot }
    {
        entries::set_aside(&mut self.slots, slot, false);
        renew_offer(&self.slots, &mut self.dead, slot);
    }

    /// Makes the slot of a dead record vacant. A record that isn't dead stays.
    pub fn reclaim(&mut self, slot: usize)
        ensures { self.new ≡ reclaimed self.old slot }
    {
        let Some(key) = dead_key(&self.slots, slot) else {
            return;
        };
        vacate(&mut self.slots, &mut self.vacant, &mut self.records, slot);
        self.index.swap_remove(&key);
        renew_offer(&self.slots, &mut self.dead, slot);
    }
}

/// A record is available where its mark is the store's number, which is above 0.
fn mark_of(number: u64, available: bool) -> u64
    ensures { result ≡ mark_of number available }
{
    if available { number } else { 0 }
}

/// The slot of the next record: the first vacant one, or one more where there is none.
fn next_slot(vacant: &[usize], records: usize) -> usize
    ensures { result ≡ slice_index_or vacant.now records (length vacant.now) }
{
    match vacant.get(records) {
        Some(slot) => *slot,
        None => vacant.len(),
    }
}

/// Makes room for a record in the slot, which may be one more.
fn make_room<A: Allocator + Clone>(
    slots: &mut Entries<A>,
    vacant: &mut Vec<usize, A>,
    index: &mut Index<A>,
    dead: &mut DeadKeys<A>,
    slot: usize,
) -> Result<(), NoMemory>
    ensures slots { slots.new.items ≡ slots.old.items }
    ensures vacant { vacant.new.items ≡ vacant.old.items }
    ensures index { index.new.entries ≡ index.old.entries }
    ensures dead { SameOffers dead.old dead.new }
    ensures places { length dead.old ≤ length dead.new }
    ensures spare { OnOk result (0 < spare index.new) }
    ensures place { OnOk result (slot < length dead.new) }
    ensures room { OnOk result (slot ≡ length slots.old.items → (0 < slots.new.room) × (length vacant.old.items < vec_capacity vacant.new)) }
{
    index.reserve(1)?;
    dead.make_place(slot)?;
    if slot == slots.len() {
        slots.reserve()?;
        vacant.reserve(1)?;
    }
    Ok(())
}

/// The key's record is in this slot from now on. There is room for it.
fn note_slot<A: Allocator + Clone>(index: &mut Index<A>, key: Key, slot: usize)
    requires { 0 < spare index.old }
    ensures { Notes (pointwise nat_eq) index.old index.new key (Some slot) }
{
    if index.insert(key, slot).is_err() {
        unreachable!()
    }
}

impl<A: Allocator + Clone> Store<A> {
    /// Makes a record of a key that has none, as `find` tells: dead, without a stable version, and set
    /// aside until it is reconsidered. A vacant slot is used before a new one.
    pub fn create(&mut self, key: Key, available: bool) -> Result<usize, CreateError>
        requires absent { Finds self.old key None }
        ensures vacant { IfOk result (λ slot. record_at self.old slot ≡ None) }
        ensures ok { IfOk result (λ slot. self.new ≡ with_record self.old slot (new_record key available)) }
        ensures slots { OnOk result (length self.new ≡ max (length self.old) (records self.old + 1)) }
        ensures err { OnErr result (self.new ≡ self.old) }
        ensures full { (result ≡ Err TableFull) ↔ (STORE_RECORDS ≤ records self.old) }
    {
        if self.records >= STORE_RECORDS {
            return Err(CreateError::TableFull);
        }
        let slot = next_slot(&self.vacant, self.records);
        make_room(
            &mut self.slots,
            &mut self.vacant,
            &mut self.index,
            &mut self.dead,
            slot,
        )?;
        let mark = mark_of(self.number, available);
        entries::put(&mut self.slots, &mut self.vacant, slot, key, mark);
        note_slot(&mut self.index, key, slot);
        self.records += 1;
        Ok(slot)
    }

    /// The stable version becomes a copy of the live one, whatever it was. Memory is taken only for
    /// a live version that isn't absent. The first copy in a slot behind those that had one takes time
    /// in proportion to the slots between.
    pub fn copy_stable(&mut self, slot: usize) -> Result<(), NoMemory>
        ensures ok { OnOk result (self.new ≡ changed with_copy self.old slot) }
        ensures err { OnErr result (self.new ≡ self.old) }
        ensures memory { OnErr result (IsSome (live_at self.old slot)) }
    {
        let copy = copy_of_live(&self.slots, slot)?;
        entries::set_stable(&mut self.slots, slot, copy, self.number);
        Ok(())
    }
}
