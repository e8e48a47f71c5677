//! The holders of each key, where many are held.

ghost use Rattle.std.specs.Prelude.{◌≡◌, ◌≢◌, ◌<◌, ◌↔◌, Err, IfOk, IfSome, IsSome, IsTrue, OnErr, OnOk, Some, nat_eq, option_map, slice_get};
ghost use Rattle.std.specs.FinMap as map;
ghost use Rattle.std.specs.Cmp.Lexicographic.{pointwise};
ghost use Rattle.indexmap.specs.IndexMap.{get};
ghost use Rattle.locktable.specs.Holders.{Refuses, mode_among};
ghost use Rattle.locktable.specs.Modes.{IsAtMost, stronger};
ghost use Rattle.locktable.specs.Tables.{SetsMode, with_key};

use crate::errors::LockError;
use crate::holders::{Holders, join};
use crate::modes::Mode;
use indexmap::IndexMap;
use indexmap::map::Entry;
use procedure::limits::SESSIONS;
use procedure::{Key, NoMemory};
use std::alloc::Allocator;
use std::hash::{BuildHasherDefault, FoldHasher};
use std::marker::Model;

type Entries<A> = IndexMap<Key, Holders, BuildHasherDefault<FoldHasher>, A>;

/// The sessions that hold each key, seen by contracts as a finite map. A key that nobody holds
/// takes no place.
#[derive(Debug, Drop)]
pub(crate) struct ManyHolders<A: Allocator> {
    entries: Entries<A>,
}

impl<A: Allocator> Model for ManyHolders<A> {
    ghost use Rattle.std.specs.Coded.{coded_list, coded_ℕ};
    ghost use Rattle.std.specs.Ordering.{nat_cmp};
    ghost use Rattle.std.specs.Cmp.Lexicographic.{slice_cmp};
    ghost use Rattle.std.specs.FinMap as map;
    ghost use Rattle.procedure.specs.Table.{KeyMap};
    ghost use Rattle.locktable.specs.declared.holders.Holders.{Holders as HoldersValue};
    ghost use Rattle.locktable.specs.contracts.holders.Holders as holders;

    ghost Value = { KeyMap HoldersValue };

    ghost coded = { map.code {R = slice_cmp nat_cmp} (coded_list coded_ℕ) holders.the_row.coded };

    ghost view = { λ h. map.from_entries {R = slice_cmp nat_cmp} h.entries.entries };
}

/// Where a key stands, and who holds it. The last entry is looked at first, without a hash: a session lets go of
/// its last key first, which mostly is the last one of all.
#[inline(always)]
fn position<A: Allocator>(entries: &Entries<A>, key: &Key) -> Option<(usize, Holders)>
    ensures value { option_map (λ p. p.1) result ≡ get (pointwise nat_eq) entries.now key.now }
    ensures entry { IfSome result (λ p. slice_get entries.now.entries p.0 ≡ Some (key.now, p.1)) }
{
    let last = entries.len().saturating_sub(1);
    match entries.get_index(last) {
        Some((there, holders)) if there == key => Some((last, *holders)),
        _ => match entries.get_full(key) {
            Some((index, _key, holders)) => Some((index, *holders)),
            None => None,
        },
    }
}

impl<A: Allocator + Copy> ManyHolders<A> {
    /// No key has a holder. It takes no memory.
    pub(crate) fn new(alloc: A) -> Self
        ensures { result ≡ map.empty }
    {
        ManyHolders {
            entries: IndexMap::new(alloc),
        }
    }
}

impl<A: Allocator> ManyHolders<A> {
    /// Whether no key has a holder.
    pub(crate) fn is_empty(&self) -> bool
        ensures { IsTrue result ↔ (self.now ≡ map.empty) }
    {
        self.entries.is_empty()
    }

    /// The holders of a key, if it has any.
    pub(crate) fn get(&self, key: &Key) -> Option<Holders>
        ensures { result ≡ map.get self.now key.now }
    {
        self.entries.get(key).copied()
    }

    /// A session asks for a key; `own` are the keys that it holds. Where it is granted, it holds the
    /// key in the stronger of the mode that it held, which is returned, and the mode that it asked
    /// for.
    pub(crate) fn grant(
        &mut self,
        own: &mut Vec<Key, A>,
        session: usize,
        key: &Key,
        mode: Mode,
    ) -> Result<Option<Mode>, LockError>
        requires { session < SESSIONS }
        ensures before { IfOk result (λ before. before ≡ mode_among (map.get self.old key.now) session) }
        ensures granted { OnOk result (SetsMode self.old self.new session key.now (Some (stronger (mode_among (map.get self.old key.now) session) mode))) }
        ensures own { OnOk result (own.new.items ≡ with_key own.old.items key.now (mode_among (map.get self.old key.now) session)) }
        ensures refused { OnErr result (self.new ≡ self.old) }
        ensures own_refused { OnErr result (own.new.items ≡ own.old.items) }
        ensures conflict { result ≡ Err LockError.Conflict ↔ Refuses (map.get self.old key.now) session mode }
        ensures memory { IsSome (mode_among (map.get self.old key.now) session) → result ≢ Err LockError.NoMemory }
    {
        let Ok(entry) = self.entries.entry(*key) else {
            return Err(LockError::NoMemory);
        };
        let entry = match entry {
            Entry::Occupied(entry) => return join(entry.into_mut(), own, session, key, mode),
            Entry::Vacant(entry) => entry,
        };
        own.reserve(1).map_err(NoMemory::from)?;
        own.push_reserved(*key);
        entry.insert(Holders::one(session, mode));
        Ok(None)
    }

    /// A session's lock on a key becomes no stronger than it is.
    #[inline(always)]
    pub(crate) fn weaken(&mut self, session: usize, key: &Key, mode: Option<Mode>)
        requires session { session < SESSIONS }
        requires weaker { IsAtMost mode (mode_among (map.get self.old key.now) session) }
        ensures { SetsMode self.old self.new session key.now mode }
    {
        let Some((index, holders)) = position(&self.entries, key) else {
            return;
        };
        match holders.weakened(session, mode) {
            Some(after) => {
                let (_key, place) = self.entries.pair_mut(index);
                *place = after;
            }
            None => {
                let _last = self.entries.swap_remove_index(index);
            }
        }
    }
}

#[cfg(test)]
impl<A: Allocator> ManyHolders<A> {
    /// How many keys fit without a growth.
    pub(crate) fn capacity(&self) -> usize {
        self.entries.capacity()
    }
}
