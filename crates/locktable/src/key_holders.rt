//! The holders of each key that is held.

ghost use Rattle.std.specs.Prelude.{◌≡◌, ◌≢◌, ◌<◌, ◌↔◌, Err, IfOk, IfNone, IfSome, IsSome, None, OnErr, OnOk, Some, nat_eq, slice_get};
ghost use Rattle.std.specs.FinMap as map;
ghost use Rattle.std.specs.Cmp.Lexicographic.{pointwise};
ghost use Rattle.std.specs.Map.{lookup};
ghost use Rattle.locktable.specs.Holders.{Refuses, mode_among};
ghost use Rattle.locktable.specs.Modes.{IsAtMost, stronger};
ghost use Rattle.locktable.specs.Tables.{SetsMode, with_key};

use crate::errors::LockError;
use crate::holders::{Holders, join};
use crate::many_holders::ManyHolders;
use crate::modes::Mode;
use procedure::limits::SESSIONS;
use procedure::{Key, NoMemory};
use std::alloc::Allocator;
use std::marker::Model;

/// How many keys are held before the map takes any. To look through so many takes no longer than to
/// hash one, and mostly fewer are held.
const FEW: usize = 8;

/// The sessions that hold each key, seen by contracts as a finite map. A key that nobody holds
/// takes no place.
#[derive(Debug, Drop)]
pub(crate) struct KeyHolders<A: Allocator> {
    /// The keys that are granted while few are held, in no order.
    few: Vec<(Key, Holders), A>,
    /// The keys that are granted while those are as many as they may be, and until it is empty
    /// again.
    many: ManyHolders<A>,
}

impl<A: Allocator> Model for KeyHolders<A> {
    ghost use Rattle.std.specs.Prelude.{◌++◌};
    ghost use Rattle.std.specs.Coded.{coded_list, coded_ℕ};
    ghost use Rattle.std.specs.Ordering.{nat_cmp};
    ghost use Rattle.std.specs.Cmp.Lexicographic.{slice_cmp};
    ghost use Rattle.std.specs.FinMap as map;
    ghost use Rattle.procedure.specs.Table.{KeyMap};
    ghost use Rattle.locktable.specs.declared.holders.Holders.{Holders as HoldersValue};
    ghost use Rattle.locktable.specs.contracts.holders.Holders as holders;
    ghost use Rattle.locktable.specs.Tables.{IsApart};

    ghost Value = { KeyMap HoldersValue };

    ghost coded = { map.code {R = slice_cmp nat_cmp} (coded_list coded_ℕ) holders.the_row.coded };

    ghost view = { λ h. map.from_entries {R = slice_cmp nat_cmp} (h.few.items ++ map.entries h.many) };

    ghost invariant = { λ h. IsApart h.few.items h.many };
}

/// Where a key stands among few, and who holds it. It is looked for from the end, since a session
/// lets go of its last key first.
fn position(few: &[(Key, Holders)], key: &Key) -> Option<(usize, Holders)>
    ensures entry { IfSome result (λ p. slice_get few.now p.0 ≡ Some (key.now, p.1)) }
    ensures absent { IfNone result (lookup (pointwise nat_eq key.now) few.now ≡ None) }
{
    let mut index = few.len();
    while index > 0 {
        index -= 1;
        let (there, holders) = &few[index];
        if there == key {
            return Some((index, *holders));
        }
    }
    None
}

impl<A: Allocator + Copy> KeyHolders<A> {
    /// No key has a holder. It takes no memory.
    pub(crate) fn new(alloc: A) -> Self
        ensures { result ≡ map.empty }
    {
        KeyHolders {
            few: Vec::new(alloc),
            many: ManyHolders::new(alloc),
        }
    }
}

impl<A: Allocator> KeyHolders<A> {
    /// The holders of a key, if it has any.
    pub(crate) fn get(&self, key: &Key) -> Option<Holders>
        ensures { result ≡ map.get self.now key.now }
    {
        match position(&self.few, key) {
            Some((_index, holders)) => Some(holders),
            None if self.many.is_empty() => None,
            None => self.many.get(key),
        }
    }

    /// A session asks for a key; `own` are the keys that it holds. Where it is granted, it holds the
    /// key in the stronger of the mode that it held, which is returned, and the mode that it asked
    /// for.
    pub(crate) fn grant(
        &mut self,
        own: &mut Vec<Key, A>,
        session: usize,
        key: &Key,
        mode: Mode,
    ) -> Result<Option<Mode>, LockError>
        requires { session < SESSIONS }
        ensures before { IfOk result (λ before. before ≡ mode_among (map.get self.old key.now) session) }
        ensures granted { OnOk result (SetsMode self.old self.new session key.now (Some (stronger (mode_among (map.get self.old key.now) session) mode))) }
        ensures own { OnOk result (own.new.items ≡ with_key own.old.items key.now (mode_among (map.get self.old key.now) session)) }
        ensures refused { OnErr result (self.new ≡ self.old) }
        ensures own_refused { OnErr result (own.new.items ≡ own.old.items) }
        ensures conflict { result ≡ Err LockError.Conflict ↔ Refuses (map.get self.old key.now) session mode }
        ensures memory { IsSome (mode_among (map.get self.old key.now) session) → result ≢ Err LockError.NoMemory }
    {
        if let Some((index, _holders)) = position(&self.few, key) {
            return join(&mut self.few[index].1, own, session, key, mode);
        }
        if self.few.len() >= FEW || !self.many.is_empty() {
            return self.many.grant(own, session, key, mode);
        }
        self.few.reserve(1).map_err(NoMemory::from)?;
        own.reserve(1).map_err(NoMemory::from)?;
        own.push_reserved(*key);
        self.few.push_reserved((*key, Holders::one(session, mode)));
        Ok(None)
    }

    /// A session's lock on a key becomes no stronger than it is.
    #[inline(always)]
    pub(crate) fn weaken(&mut self, session: usize, key: &Key, mode: Option<Mode>)
        requires session { session < SESSIONS }
        requires weaker { IsAtMost mode (mode_among (map.get self.old key.now) session) }
        ensures { SetsMode self.old self.new session key.now mode }
    {
        let Some((index, holders)) = position(&self.few, key) else {
            return self.many.weaken(session, key, mode);
        };
        match holders.weakened(session, mode) {
            Some(after) => self.few[index].1 = after,
            None => {
                let _gone = self.few.swap_remove(index);
            }
        }
    }
}

#[cfg(test)]
impl<A: Allocator> KeyHolders<A> {
    /// How many keys fit without a growth.
    pub(crate) fn capacity(&self) -> usize {
        self.few.capacity().saturating_add(self.many.capacity())
    }
}
