//! How dead records are reclaimed.

ghost use Rattle.std.specs.Prelude.{◌≡◌, ℕ, Bool, IfSome, Some, false, if◌then◌else◌, length};
ghost use Rattle.std.specs.Option.{option_map};
ghost use Rattle.procedure.specs.Bytes.{Bytes};
ghost use Rattle.locktable.specs.Locks.{IsFree, Locks};
ghost use Rattle.record_store.specs.ChangedSets.{has};
ghost use Rattle.record_store.specs.Stores.{IsLeastCandidate, HasKeysOnce, key_at};
ghost use Rattle.steps.specs.inside.SetAside.{AsideIn, IsKnown, SameRecords, after_release, aside_at, put_aside};
ghost use Rattle.steps.specs.Reclaiming.{IsReclaimable, Reclaims};

use crate::captures::key_in;
use crate::cores::Core;
use locktable::LockTable;
use phase::Phase;
use procedure::Key;
use record_store::{Changed, Store};
use std::alloc::Allocator;

/// What is known of the records that are set aside from reclaim.
#[derive(Clone, Copy, Debug, PartialEq, Eq)]
pub(crate) enum Aside {
    /// Nothing: each record is to be reconsidered.
    Unknown,
    /// Their keys were written since the cut of the last finished checkpoint.
    Collected,
    /// Their keys were, or are locked.
    CollectedOrLocked,
}

impl Aside {
    /// What is known after locks went: where a lock kept a record aside, it may keep it no longer.
    pub(crate) fn after_release(self) -> Aside
        ensures { result ≡ after_release self }
    {
        match self {
            Aside::CollectedOrLocked => Aside::Unknown,
            Aside::Unknown | Aside::Collected => self,
        }
    }
}

/// Each record is a candidate again whenever it is dead.
fn reconsider_all<A: Allocator>(store: &mut Store<A>)
    ensures records { SameRecords store.old store.new }
    ensures none { (slot : ℕ) → aside_at store.new slot ≡ false }
{
    for slot in 0..store.slots() {
        store.reconsider(slot);
    }
}

/// Makes it known why records are set aside: where it isn't, none is from then on.
fn learn<A: Allocator>(store: &mut Store<A>, aside: &mut Aside)
    ensures known { IsKnown aside.new }
    ensures reasons { (collected : Bytes → Bool) (locks : Locks) → AsideIn aside.old store.old collected locks → AsideIn aside.new store.new collected locks }
    ensures records { SameRecords store.old store.new }
    ensures same { IsKnown aside.old → (store.new ≡ store.old) × (aside.new ≡ aside.old) }
{
    match *aside {
        Aside::Unknown => {
            reconsider_all(store);
            *aside = Aside::Collected;
        }
        Aside::Collected | Aside::CollectedOrLocked => {}
    }
}

/// The slot and the key of the least candidate.
fn least_of<A: Allocator>(store: &Store<A>) -> Option<(usize, Key)>
    ensures least { IsLeastCandidate store.now (option_map (λ r. r.0) result) }
    ensures key { IfSome result (λ r. key_at store.now r.0 ≡ Some r.1) }
    ensures once { HasKeysOnce store.now }
{
    let slot = store.least_candidate()?;
    let key = key_in(store, slot)?;
    Some((slot, key))
}

/// Whether a candidate may not go, since its key is collected or some session holds it. It is set
/// aside then.
fn stays<A: Allocator>(
    store: &mut Store<A>,
    slot: usize,
    key: &Key,
    changed: &Changed<A>,
    locks: &LockTable<A>,
    aside: &mut Aside,
) -> bool
    requires key { key_at store.old slot ≡ Some key.now }
    requires known { IsKnown aside.old }
    requires reasons { AsideIn aside.old store.old (has changed.now.collecting) locks.now }
    ensures known { IsKnown aside.new }
    ensures reasons { AsideIn aside.new store.new (has changed.now.collecting) locks.now }
    ensures aside { store.new ≡ (if result then put_aside store.old slot else store.old) }
    ensures uncollected { result ≡ false → has changed.now.collecting key.now ≡ false }
    ensures free { result ≡ false → IsFree locks.now key.now }
{
    if changed.collects(key) {
        store.set_aside(slot);
        return true;
    }
    if locks.is_free(key) {
        return false;
    }
    store.set_aside(slot);
    *aside = Aside::CollectedOrLocked;
    true
}

/// The slot and the key of the least candidate that may go: its key isn't collected, and no session
/// holds it. The candidates before it are set aside.
fn next_to_go<A: Allocator>(
    store: &mut Store<A>,
    changed: &Changed<A>,
    locks: &LockTable<A>,
    aside: &mut Aside,
) -> Option<(usize, Key)>
    requires known { IsKnown aside.old }
    requires reasons { AsideIn aside.old store.old (has changed.now.collecting) locks.now }
    ensures known { IsKnown aside.new }
    ensures reasons { AsideIn aside.new store.new (has changed.now.collecting) locks.now }
    ensures records { SameRecords store.old store.new }
    ensures once { HasKeysOnce store.new }
    ensures least { IsLeastCandidate store.new (option_map (λ r. r.0) result) }
    ensures key { IfSome result (λ r. key_at store.new r.0 ≡ Some r.1) }
    ensures uncollected { IfSome result (λ r. has changed.now.collecting r.1 ≡ false) }
    ensures free { IfSome result (λ r. IsFree locks.now r.1) }
{
    while let Some((slot, key)) = least_of(store) {
        if !stays(store, slot, &key, changed, locks, aside) {
            return Some((slot, key));
        }
    }
    None
}

impl<A: Allocator> Core<A> {
    /// Reclaims a dead record, and returns its key; its slot is vacant from then on. At rest it is that of
    /// the least key that has a record, is absent from the table, has been touched by no open call, and
    /// was written by no call since the cut of the last finished checkpoint. Where there is none, and in
    /// another phase, the answer is None. It takes no memory.
    pub fn reclaim(&mut self) -> Option<Key>
        ensures key { IsReclaimable self.old result }
        ensures reclaimed { Reclaims self.old self.new result }
    {
        match self.phase {
            Phase::Rest => {}
            _ => return None,
        }
        learn(&mut self.store, &mut self.aside);
        match next_to_go(&mut self.store, &self.changed, &self.locks, &mut self.aside) {
            Some(found) => {
                self.store.reclaim(found.0);
                Some(found.1)
            }
            None => None,
        }
    }
}
