//! Records without their stable versions, in slots.

ghost use Rattle.std.specs.Prelude.{◌≡◌, IfOk, IsSome, OnErr, is_some, slice_set};
ghost use Rattle.std.specs.Option.{option_map, option_and_then};
ghost use Rattle.record_store.specs.KeptRecords.{kept_at, kept_changed, kept_key_if_dead, kept_live, kept_offer, live_kept, with_kept_aside, with_kept_live, with_kept_mark};

use procedure::{Key, NoMemory, Value};
use std::alloc::Allocator;
use std::mem;

/// A record without its stable version. It is available where its mark is the store's number.
// What a call asks of it stands first, so that it lies together in memory.
#[derive(Drop)]
pub(crate) struct Kept<A: Allocator> {
    pub(crate) live: Option<Value<A>>,
    pub(crate) mark: u64,
    pub(crate) key: Key,
    pub(crate) aside: bool,
}

/// A slot: vacant, or with the record in it.
pub(crate) type Slot<A> = Option<Kept<A>>;

impl<A: Allocator> Kept<A> {
    /// The key, where the record is a candidate for reclaim.
    pub(crate) fn offer(&self) -> Option<Key>
        ensures { result ≡ kept_offer self.now }
    {
        if self.live.is_none() && !self.aside {
            Some(self.key)
        } else {
            None
        }
    }

    /// The key, where the record is dead.
    fn key_if_dead(&self) -> Option<Key>
        ensures { result ≡ kept_key_if_dead self.now }
    {
        if self.live.is_none() {
            Some(self.key)
        } else {
            None
        }
    }
}

/// Whether there is a record in a slot.
pub(crate) fn is_taken<A: Allocator>(slots: &[Slot<A>], slot: usize) -> bool
    ensures { result ≡ is_some (kept_at slots.now slot) }
{
    matches!(slots.get(slot), Some(Some(_)))
}

fn is_live<A: Allocator>(slot: &Slot<A>) -> bool
    ensures { result ≡ is_some (kept_live slot.now) }
{
    match slot {
        Some(kept) => kept.live.is_some(),
        None => false,
    }
}

/// How many slots have a record that isn't dead.
pub(crate) fn live_in<A: Allocator>(slots: &[Slot<A>]) -> usize
    ensures { result ≡ live_kept slots.now }
{
    slots.iter().filter(|slot| is_live(slot)).count()
}

/// The key that the record of a slot offers for reclaim.
pub(crate) fn offer_of<A: Allocator>(slots: &[Slot<A>], slot: usize) -> Option<Key>
    ensures { result ≡ option_and_then kept_offer (kept_at slots.now slot) }
{
    match slots.get(slot) {
        Some(Some(kept)) => kept.offer(),
        _ => None,
    }
}

/// The key of a dead record.
pub(crate) fn dead_key_of<A: Allocator>(slots: &[Slot<A>], slot: usize) -> Option<Key>
    ensures { result ≡ option_and_then kept_key_if_dead (kept_at slots.now slot) }
{
    match slots.get(slot) {
        Some(Some(kept)) => kept.key_if_dead(),
        _ => None,
    }
}

pub(crate) fn copy_of_live<A: Allocator + Clone>(
    slots: &[Slot<A>],
    slot: usize,
) -> Result<Option<Value<A>>, NoMemory>
    ensures value { IfOk result (λ copy. copy ≡ kept_live (kept_at slots.now slot)) }
    ensures memory { OnErr result (IsSome (kept_live (kept_at slots.now slot))) }
{
    let Some(Some(kept)) = slots.get(slot) else {
        return Ok(None);
    };
    match &kept.live {
        Some(value) => Ok(Some(value.clone()?)),
        None => Ok(None),
    }
}

fn replace_live<A: Allocator>(place: &mut Slot<A>, live: Option<Value<A>>) -> Option<Value<A>>
    ensures before { result ≡ kept_live place.old }
    ensures changed { place.new ≡ option_map (with_kept_live live) place.old }
{
    match place {
        Some(kept) => mem::replace(&mut kept.live, live),
        None => None,
    }
}

pub(crate) fn set_live<A: Allocator>(
    slots: &mut Vec<Slot<A>, A>,
    slot: usize,
    live: Option<Value<A>>,
) -> Option<Value<A>>
    ensures before { result ≡ kept_live (kept_at slots.old.items slot) }
    ensures changed { slots.new.items ≡ kept_changed (with_kept_live live) slots.old.items slot }
{
    match slots.get_mut(slot) {
        Some(place) => replace_live(place, live),
        None => None,
    }
}

pub(crate) fn set_mark<A: Allocator>(slots: &mut Vec<Slot<A>, A>, slot: usize, mark: u64)
    ensures { slots.new.items ≡ kept_changed (with_kept_mark mark) slots.old.items slot }
{
    if let Some(place) = slots.get_mut(slot)
        && let Some(kept) = place
    {
        kept.mark = mark;
    }
}

pub(crate) fn set_aside<A: Allocator>(slots: &mut Vec<Slot<A>, A>, slot: usize, aside: bool)
    ensures { slots.new.items ≡ kept_changed (with_kept_aside aside) slots.old.items slot }
{
    if let Some(place) = slots.get_mut(slot)
        && let Some(kept) = place
    {
        kept.aside = aside;
    }
}

/// Another record in a slot, or none.
pub(crate) fn set_slot<A: Allocator>(slots: &mut Vec<Slot<A>, A>, slot: usize, kept: Slot<A>)
    ensures { slots.new.items ≡ slice_set slots.old.items slot kept }
{
    if slot < slots.len() {
        slots[slot] = kept;
    }
}
