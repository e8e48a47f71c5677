//! The table of locks.

ghost use Rattle.std.specs.Prelude.{◌≡◌, ◌≢◌, ◌<◌, ◌↔◌, [], ◌∷◌, None, Some, Err, IfNone, IfOk, IfSome, IsPermutation, IsSome, IsTrue, OnErr, OnOk, false, length, replicate, true};
ghost use Rattle.std.specs.FinMap as map;
ghost use Rattle.std.specs.List.{list_any};
ghost use Rattle.procedure.specs.Bytes.{same};
ghost use Rattle.locktable.specs.Locks.{Conflicts, IsConsistent, IsFree, locks_of, mode_of, with_lock, without_locks};
ghost use Rattle.locktable.specs.Modes.{IsAtMost, stronger};
ghost use Rattle.locktable.specs.Tables.{keys_in};

use crate::errors::LockError;
use crate::holders::{is_nobody, mode_among};
use crate::key_holders::KeyHolders;
use crate::modes::Mode;
use procedure::limits::SESSIONS;
use procedure::{Key, NoMemory};
use std::alloc::Allocator;
use std::marker::Model;

/// Who holds what, seen by contracts as what each of the 64 sessions holds.
///
/// A key that nobody holds takes no place, so that the table is as large as the most locks that
/// were held at one time.
#[derive(Debug, Drop)]
pub struct LockTable<A: Allocator> {
    /// The sessions that hold each key.
    holders: KeyHolders<A>,
    /// The keys that each session holds, each once, so that its locks are found without a look at
    /// those of others.
    held: Vec<Vec<Key, A>, A>,
}

impl<A: Allocator> Model for LockTable<A> {
    ghost use Rattle.std.specs.Coded.{coded_list, coded_ℕ};
    ghost use Rattle.std.specs.Ordering.{nat_cmp};
    ghost use Rattle.std.specs.Cmp.Lexicographic.{slice_cmp};
    ghost use Rattle.std.specs.FinMap as map;
    ghost use Rattle.locktable.specs.contracts.modes.Mode as mode;
    ghost use Rattle.locktable.specs.Locks.{Locks};

    ghost Value = { Locks };

    ghost coded = { coded_list (map.code {R = slice_cmp nat_cmp} (coded_list coded_ℕ) mode.the_row.coded) };

    ghost use Rattle.locktable.specs.Tables.{keys_in, locks_in, IsSound};

    ghost view = { λ t. locks_in t.holders (keys_in t.held.items) };

    ghost invariant = { λ t. IsSound t.holders (keys_in t.held.items) };
}

fn nothing_held<A: Allocator + Copy>(alloc: A) -> Result<Vec<Vec<Key, A>, A>, NoMemory>
    ensures { IfOk result (λ held. keys_in held.items ≡ replicate SESSIONS []) }
{
    let mut held = Vec::with_capacity(alloc, SESSIONS as usize)?;
    for _ in 0..SESSIONS {
        held.push(Vec::new(alloc))?;
    }
    Ok(held)
}

/// Takes a key out of a list, in which it is looked for from the end.
fn take_out<A: Allocator>(keys: &mut Vec<Key, A>, key: &Key)
    ensures there { list_any (same key.now) keys.old.items ≡ true → IsPermutation keys.old.items (key.now ∷ keys.new.items) }
    ensures absent { list_any (same key.now) keys.old.items ≡ false → keys.new.items ≡ keys.old.items }
{
    let mut index = keys.len();
    while index > 0 {
        index -= 1;
        if keys[index] == *key {
            let _key = keys.swap_remove(index);
            return;
        }
    }
}

impl<A: Allocator + Copy> LockTable<A> {
    /// No session holds a key.
    pub fn new(alloc: A) -> Result<Self, NoMemory>
        ensures { IfOk result (λ table. table ≡ replicate SESSIONS map.empty) }
    {
        let held = nothing_held(alloc)?;
        Ok(LockTable {
            holders: KeyHolders::new(alloc),
            held,
        })
    }
}

impl<A: Allocator> LockTable<A> {
    /// In which mode a session holds a key, if it does.
    pub fn mode_of(&self, session: usize, key: &Key) -> Option<Mode>
        requires { session < SESSIONS }
        ensures value { result ≡ mode_of self.now session key.now }
        ensures consistent { IsConsistent self.now }
        ensures sessions { length self.now ≡ SESSIONS }
    {
        mode_among(self.holders.get(key), session)
    }

    /// Whether no session holds a key.
    pub fn is_free(&self, key: &Key) -> bool
        ensures { IsTrue result ↔ IsFree self.now key.now }
    {
        is_nobody(self.holders.get(key))
    }

    /// A session asks for a key. Where it is granted, the session holds the key in the stronger of
    /// the mode that it held, which is returned, and the mode that it asked for.
    ///
    /// `Conflict` comes exactly where another session holds the key and one of the two is to be
    /// exclusive; then `NoMemory` may come, but not where the session holds the key already.
    pub fn request(
        &mut self,
        session: usize,
        key: &Key,
        mode: Mode,
    ) -> Result<Option<Mode>, LockError>
        requires { session < SESSIONS }
        ensures before { IfOk result (λ before. before ≡ mode_of self.old session key.now) }
        ensures granted { OnOk result (self.new ≡ with_lock self.old session key.now (Some (stronger (mode_of self.old session key.now) mode))) }
        ensures refused { OnErr result (self.new ≡ self.old) }
        ensures conflict { result ≡ Err LockError.Conflict ↔ Conflicts self.old session key.now mode }
        ensures memory { IsSome (mode_of self.old session key.now) → result ≢ Err LockError.NoMemory }
    {
        let own = &mut self.held[session];
        self.holders.grant(own, session, key, mode)
    }

    /// A session holds a key again as it did before a request that it was granted: in the mode in
    /// which it holds it now, in a weaker one, or not at all. Where it is to hold it no longer, this
    /// takes longer, the more keys it was granted since.
    pub fn restore(&mut self, session: usize, key: &Key, mode: Option<Mode>)
        requires session { session < SESSIONS }
        requires weaker { IsAtMost mode (mode_of self.old session key.now) }
        ensures { self.new ≡ with_lock self.old session key.now mode }
    {
        self.holders.weaken(session, key, mode);
        if mode.is_none() {
            take_out(&mut self.held[session], key);
        }
    }

    /// A session holds nothing any more.
    pub fn release_all(&mut self, session: usize)
        requires { session < SESSIONS }
        ensures { self.new ≡ without_locks self.old session }
    {
        while let Some(_key) = self.release(session) {}
    }

    /// A session lets go of some key that it holds, which is returned; None where it holds none.
    fn release(&mut self, session: usize) -> Option<Key>
        requires { session < SESSIONS }
        ensures held { IfSome result (λ key. IsSome (mode_of self.old session key)) }
        ensures released { IfSome result (λ key. self.new ≡ with_lock self.old session key None) }
        ensures none { IfNone result (locks_of self.old session ≡ map.empty) }
        ensures same { IfNone result (self.new ≡ self.old) }
        ensures sessions { length self.old ≡ SESSIONS }
    {
        let key = self.held[session].pop()?;
        self.holders.weaken(session, &key, None);
        Some(key)
    }
}

#[cfg(test)]
impl<A: Allocator> LockTable<A> {
    /// How many keys fit without a growth: in all, and of one session.
    pub(crate) fn capacities(&self, session: usize) -> (usize, usize)
        requires { session < SESSIONS }
    {
        // Brings in the invariant.
        let _holders = &self.holders;
        (self.holders.capacity(), self.held[session].capacity())
    }
}
