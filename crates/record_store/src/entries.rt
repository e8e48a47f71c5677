//! How a store keeps its records.

ghost use Rattle.std.specs.Prelude.{◌≡◌, ◌+◌, ◌<◌, ◌≤◌, ◌++◌, ◌∷◌, [], ℕ, OnOk, OnErr, IsSome, IfOk, Some, None, false, true, length, map, max, replicate, ◌-◌, slice_set, vec_capacity};
ghost use Rattle.std.specs.Option.{option_map, option_and_then};
ghost use Rattle.record_store.specs.DeadKeys.{SameKey, offer_at};
ghost use Rattle.record_store.specs.Entries.{IsPut, cleaned, entry_at, entry_changed, key_if_dead, lent_record, lent_stable, live_entries, live_of, made, offer_of, seen, stable_in, taken, with_entry_aside, with_entry_live, with_entry_mark, with_entry_stable};
ghost use Rattle.record_store.specs.EntryFields.{copy_at, entry_of, no_copy, version_under, with_copy_at};
ghost use Rattle.record_store.specs.KeptRecords.{kept_at};

use crate::dead_keys::DeadKeys;
use crate::kept;
use crate::kept::{Kept, Slot};
use crate::records::{Record, Stable};
use procedure::{Key, NoMemory, Value};
use std::alloc::{AllocError, Allocator};
use std::marker::Model;
use std::mem;

/// The stable version of a record, which counts where it was copied under the store's number.
#[derive(Drop)]
pub(crate) struct Copied<A: Allocator> {
    version: Option<Value<A>>,
    number: u64,
}

/// Slots, each vacant or with a record. Contracts see the list of them, and how many more can be added
/// without memory.
///
/// Only a checkpoint looks at stable versions, so they stand apart: what calls go through is then smaller by a
/// third, and stays longer in the processor's caches. The memory for them is taken with the slots, and first
/// written when one is copied, for all slots up to that one.
#[derive(Drop)]
pub struct Entries<A: Allocator> {
    slots: Vec<Slot<A>, A>,
    copies: Vec<Copied<A>, A>,
}

impl<A: Allocator> Model for Entries<A> {
    ghost use Rattle.record_store.specs.Entries.{Entries};
    ghost use Rattle.record_store.specs.EntryFields.{AreKept, entries_of};

    ghost Value = { Entries };

    ghost view = { entries_of };

    ghost invariant = { AreKept };
}

fn no_copy<A: Allocator>() -> Copied<A>
    ensures { result ≡ no_copy }
{
    Copied {
        version: None,
        number: 0,
    }
}

impl<A: Allocator + Copy> Entries<A> {
    /// No slots. It takes no memory.
    pub(crate) fn new(alloc: A) -> Self
        ensures { result.items ≡ [] }
    {
        Entries {
            slots: Vec::new(alloc),
            copies: Vec::new(alloc),
        }
    }

    /// No slots, with room for so many.
    pub(crate) fn with_capacity(alloc: A, capacity: usize) -> Result<Self, AllocError>
        ensures { IfOk result (λ entries. entries.items ≡ []) }
    {
        Ok(Entries {
            slots: Vec::with_capacity(alloc, capacity)?,
            copies: Vec::with_capacity(alloc, capacity)?,
        })
    }
}

impl<A: Allocator> Entries<A> {
    /// How many slots there are.
    pub(crate) fn len(&self) -> usize
        ensures { result ≡ length self.now.items }
    {
        self.slots.len()
    }

    /// Room for one slot more.
    pub(crate) fn reserve(&mut self) -> Result<(), NoMemory>
        ensures items { self.new.items ≡ self.old.items }
        ensures room { OnOk result (0 < self.new.room) }
    {
        self.slots.reserve(1)?;
        let more = self.slots.len() + 1 - self.copies.len();
        self.copies.reserve(more)?;
        Ok(())
    }
}

/// The stable version of a slot, where it counts.
#[inline(always)]
fn stable_among<A: Allocator>(
    copies: &[Copied<A>],
    slot: usize,
    number: u64,
) -> Stable<Option<&Value<A>>>
    requires { 0 < number }
    ensures { lent_stable result ≡ version_under number (copy_at copies.now slot) }
{
    match copies.get(slot) {
        Some(copy) if copy.number == number => Stable::Was(copy.version.as_ref()),
        _ => Stable::Empty,
    }
}

/// The record of a slot and its copy, as it is lent.
#[inline(always)]
fn lent_of<'a, A: Allocator>(
    slots: &'a [Slot<A>],
    copies: &'a [Copied<A>],
    slot: usize,
    number: u64,
) -> Option<Record<'a, A>>
    requires { 0 < number }
    ensures { option_map lent_record result ≡ option_map (seen number) (option_map (entry_of (copy_at copies.now slot)) (kept_at slots.now slot)) }
{
    match slots.get(slot) {
        Some(Some(kept)) => Some(Record {
            key: kept.key,
            live: kept.live.as_ref(),
            stable: stable_among(copies, slot, number),
            available: kept.mark == number,
            aside: kept.aside,
        }),
        _ => None,
    }
}

/// The record of a slot, as it is lent.
#[inline(always)]
pub(crate) fn lent<A: Allocator>(
    slots: &Entries<A>,
    slot: usize,
    number: u64,
) -> Option<Record<'_, A>>
    requires { 0 < number }
    ensures { option_map lent_record result ≡ option_map (seen number) (entry_at slots.now.items slot) }
{
    lent_of(&slots.slots, &slots.copies, slot, number)
}

/// How many slots have a record that isn't dead.
pub(crate) fn live_among<A: Allocator>(slots: &Entries<A>) -> usize
    ensures { result ≡ live_entries slots.now.items }
{
    kept::live_in(&slots.slots)
}

/// The key that the record of a slot offers for reclaim.
pub(crate) fn offer_in<A: Allocator>(slots: &Entries<A>, slot: usize) -> Option<Key>
    ensures { result ≡ option_and_then offer_of (entry_at slots.now.items slot) }
{
    kept::offer_of(&slots.slots, slot)
}

/// The key of a dead record.
pub(crate) fn dead_key<A: Allocator>(slots: &Entries<A>, slot: usize) -> Option<Key>
    ensures { result ≡ option_and_then key_if_dead (entry_at slots.now.items slot) }
{
    kept::dead_key_of(&slots.slots, slot)
}

pub(crate) fn copy_of_live<A: Allocator + Clone>(
    slots: &Entries<A>,
    slot: usize,
) -> Result<Option<Value<A>>, NoMemory>
    ensures value { IfOk result (λ copy. copy ≡ live_of (entry_at slots.now.items slot)) }
    ensures memory { OnErr result (IsSome (live_of (entry_at slots.now.items slot))) }
{
    kept::copy_of_live(&slots.slots, slot)
}

pub(crate) fn set_live<A: Allocator>(
    slots: &mut Entries<A>,
    slot: usize,
    live: Option<Value<A>>,
) -> Option<Value<A>>
    ensures before { result ≡ live_of (entry_at slots.old.items slot) }
    ensures changed { slots.new.items ≡ entry_changed (with_entry_live live) slots.old.items slot }
{
    kept::set_live(&mut slots.slots, slot, live)
}

/// Adds places without a copy, up to this many. There is memory for them.
fn lengthen<A: Allocator>(copies: &mut Vec<Copied<A>, A>, len: usize)
    requires { len ≤ vec_capacity copies.old }
    ensures items { copies.new.items ≡ copies.old.items ++ replicate (len - length copies.old.items) no_copy }
    ensures memory { vec_capacity copies.new ≡ vec_capacity copies.old }
{
    while copies.len() < len {
        copies.push_reserved(no_copy());
    }
}

/// Another copy of a slot. There is memory for it.
fn set_copy<A: Allocator>(
    copies: &mut Vec<Copied<A>, A>,
    slot: usize,
    version: Option<Value<A>>,
    number: u64,
)
    requires { slot < vec_capacity copies.old }
    ensures items { copies.new.items ≡ with_copy_at copies.old.items slot (record { version = version; number = number }) }
    ensures memory { vec_capacity copies.new ≡ vec_capacity copies.old }
{
    lengthen(copies, slot + 1);
    copies[slot] = Copied { version, number };
}

/// No copy of a slot is left.
fn clear_copy<A: Allocator>(copies: &mut Vec<Copied<A>, A>, slot: usize)
    ensures items { copies.new.items ≡ slice_set copies.old.items slot no_copy }
    ensures memory { vec_capacity copies.new ≡ vec_capacity copies.old }
{
    if slot < copies.len() {
        copies[slot] = no_copy();
    }
}

/// The stable version of a slot's record becomes this. The first in a slot behind those that had one takes time
/// in proportion to the slots between.
pub(crate) fn set_stable<A: Allocator>(
    slots: &mut Entries<A>,
    slot: usize,
    stable: Option<Value<A>>,
    copied: u64,
)
    ensures { slots.new.items ≡ entry_changed (with_entry_stable stable copied) slots.old.items slot }
{
    if slot < slots.slots.len() {
        set_copy(&mut slots.copies, slot, stable, copied);
    }
}

/// No stable version of a slot's record is left.
pub(crate) fn erase_stable<A: Allocator>(slots: &mut Entries<A>, slot: usize)
    ensures { slots.new.items ≡ entry_changed (with_entry_stable None 0) slots.old.items slot }
{
    clear_copy(&mut slots.copies, slot);
}

fn take_version<A: Allocator>(place: &mut Copied<A>, number: u64) -> Stable<Option<Value<A>>>
    ensures stable { result ≡ version_under number place.old }
    ensures changed { place.new ≡ no_copy }
{
    let copy = mem::replace(place, no_copy());
    if copy.number == number {
        Stable::Was(copy.version)
    } else {
        Stable::Empty
    }
}

fn take_copy<A: Allocator>(
    copies: &mut Vec<Copied<A>, A>,
    slot: usize,
    number: u64,
) -> Stable<Option<Value<A>>>
    requires { 0 < number }
    ensures stable { result ≡ version_under number (copy_at copies.old.items slot) }
    ensures changed { copies.new.items ≡ slice_set copies.old.items slot no_copy }
    ensures memory { vec_capacity copies.new ≡ vec_capacity copies.old }
{
    match copies.get_mut(slot) {
        Some(place) => take_version(place, number),
        None => Stable::Empty,
    }
}

/// The stable version by move, and none is left.
pub(crate) fn take_stable<A: Allocator>(
    slots: &mut Entries<A>,
    slot: usize,
    number: u64,
) -> Stable<Option<Value<A>>>
    requires { 0 < number }
    ensures stable { result ≡ stable_in number (entry_at slots.old.items slot) }
    ensures changed { slots.new.items ≡ entry_changed (with_entry_stable None 0) slots.old.items slot }
{
    if kept::is_taken(&slots.slots, slot) {
        take_copy(&mut slots.copies, slot, number)
    } else {
        Stable::Empty
    }
}

pub(crate) fn set_mark<A: Allocator>(slots: &mut Entries<A>, slot: usize, mark: u64)
    ensures { slots.new.items ≡ entry_changed (with_entry_mark mark) slots.old.items slot }
{
    kept::set_mark(&mut slots.slots, slot, mark);
}

pub(crate) fn set_aside<A: Allocator>(slots: &mut Entries<A>, slot: usize, aside: bool)
    ensures { slots.new.items ≡ entry_changed (with_entry_aside aside) slots.old.items slot }
{
    kept::set_aside(&mut slots.slots, slot, aside);
}

fn clean<A: Allocator>(slots: &mut Entries<A>, slot: usize)
    ensures { slots.new.items ≡ entry_changed cleaned slots.old.items slot }
{
    erase_stable(slots, slot);
    set_mark(slots, slot, 0);
}

/// No record has a mark or a stable version.
pub(crate) fn clean_all<A: Allocator>(slots: &mut Entries<A>)
    ensures { slots.new.items ≡ map (option_map cleaned) slots.old.items }
{
    for slot in 0..slots.len() {
        clean(slots, slot);
    }
}

/// A slot has this from now on, without a copy.
fn renew<A: Allocator>(slots: &mut Entries<A>, slot: usize, kept: Slot<A>)
    ensures { slots.new.items ≡ slice_set slots.old.items slot (option_map (entry_of no_copy) kept) }
{
    kept::set_slot(&mut slots.slots, slot, kept);
    clear_copy(&mut slots.copies, slot);
}

/// One slot more, for which there is room.
fn add<A: Allocator>(slots: &mut Entries<A>, kept: Slot<A>)
    requires { 0 < slots.old.room }
    ensures { slots.new.items ≡ slots.old.items ++ option_map (entry_of no_copy) kept ∷ [] }
{
    slots.slots.push_reserved(kept);
}

/// A new record is in a slot, where there was none, or in one more.
fn place<A: Allocator>(slots: &mut Entries<A>, slot: usize, key: Key, mark: u64)
    requires within { slot ≤ length slots.old.items }
    requires room { slot ≡ length slots.old.items → 0 < slots.old.room }
    ensures known { slot < length slots.old.items → slots.new.items ≡ slice_set slots.old.items slot (Some (made key mark)) }
    ensures one_more { slot ≡ length slots.old.items → slots.new.items ≡ slots.old.items ++ Some (made key mark) ∷ [] }
{
    let kept = Kept {
        live: None,
        mark,
        key,
        aside: true,
    };
    if slot < slots.len() {
        renew(slots, slot, Some(kept));
    } else {
        add(slots, Some(kept));
    }
}

/// Puts a new record into a slot that is vacant, or is one more.
pub(crate) fn put<A: Allocator>(
    slots: &mut Entries<A>,
    vacant: &mut Vec<usize, A>,
    slot: usize,
    key: Key,
    mark: u64,
)
    requires within { slot ≤ length slots.old.items }
    requires vacant { entry_at slots.old.items slot ≡ None }
    requires room { slot ≡ length slots.old.items → (0 < slots.old.room) × (length vacant.old.items < vec_capacity vacant.old) }
    ensures put { IsPut slots.old.items slots.new.items slot (made key mark) }
    ensures len { length slots.new.items ≡ max (length slots.old.items) (slot + 1) }
    ensures taken { taken slots.new.items ≡ taken slots.old.items + 1 }
    ensures known { slot < length slots.old.items → vacant.new.items ≡ vacant.old.items }
    ensures one_more { slot ≡ length slots.old.items → vacant.new.items ≡ vacant.old.items ++ slot ∷ [] }
{
    if slot == slots.len() {
        vacant.push_reserved(slot);
    }
    place(slots, slot, key, mark);
}

/// Makes the slot of a record vacant, and the first of the vacant ones.
pub(crate) fn vacate<A: Allocator>(
    slots: &mut Entries<A>,
    vacant: &mut Vec<usize, A>,
    records: &mut usize,
    slot: usize,
)
    requires slot { slot < length slots.old.items }
    requires records { 0 < records.old }
    requires room { records.old ≤ length vacant.old.items }
    ensures slots { slots.new.items ≡ slice_set slots.old.items slot None }
    ensures records { records.new + 1 ≡ records.old }
    ensures vacant { vacant.new.items ≡ slice_set vacant.old.items records.new slot }
{
    renew(slots, slot, None);
    *records -= 1;
    vacant[*records] = slot;
}

/// The slot offers what its record does.
pub(crate) fn renew_offer<A: Allocator>(slots: &Entries<A>, dead: &mut DeadKeys<A>, slot: usize)
    requires place { IsSome (entry_at slots.now.items slot) → slot < length dead.old }
    requires same { SameKey (offer_at dead.old slot) (option_and_then offer_of (entry_at slots.now.items slot)) }
    ensures { dead.new ≡ slice_set dead.old slot (option_and_then offer_of (entry_at slots.now.items slot)) }
{
    let offer = offer_in(slots, slot);
    if offer.is_some() != dead.offers(slot) {
        dead.set(slot, offer);
    }
}

/// The same, where a record may have turned: a live version came, or went. Else it offers what it did.
#[inline(always)]
pub(crate) fn renew_offer_where<A: Allocator>(
    turned: bool,
    slots: &Entries<A>,
    dead: &mut DeadKeys<A>,
    slot: usize,
)
    requires place { IsSome (entry_at slots.now.items slot) → slot < length dead.old }
    requires same { SameKey (offer_at dead.old slot) (option_and_then offer_of (entry_at slots.now.items slot)) }
    requires as_before { turned ≡ false → offer_at dead.old slot ≡ option_and_then offer_of (entry_at slots.now.items slot) }
    ensures { dead.new ≡ slice_set dead.old slot (option_and_then offer_of (entry_at slots.now.items slot)) }
{
    if turned {
        renew_offer(slots, dead, slot);
    }
}
