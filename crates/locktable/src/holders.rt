//! The sessions that hold a lock on one key.

ghost use Rattle.std.specs.Prelude.{◌≡◌, ◌≢◌, ◌<◌, ◌↔◌, Err, None, Some, IfOk, IfSome, IsNone, IsSome, IsTrue, OnErr, OnOk};
ghost use Rattle.locktable.specs.Holders.{ChangesTo, IsHeld, Refuses, mode_among, mode_in};
ghost use Rattle.locktable.specs.Modes.{IsAtMost, stronger};
ghost use Rattle.locktable.specs.Tables.{with_key};

use crate::errors::LockError;
use crate::modes::{Mode, keeps_asked};
use procedure::limits::SESSIONS;
use procedure::{Key, NoMemory};
use std::alloc::Allocator;

/// The sessions that hold a lock on one key, told by one word: no session can be exclusive beside
/// another.
#[derive(Clone, Copy, Debug)]
pub(crate) enum Holders {
    /// Session n shares the key where bit n is set.
    Readers(u64),
    /// This session alone holds the key.
    Writer(usize),
}

impl Holders {
    pub(crate) fn one(session: usize, mode: Mode) -> Holders
        requires { session < SESSIONS }
        ensures { ChangesTo None (Some result) session (Some mode) }
    {
        match mode {
            Mode::Shared => Holders::Readers(1 << session),
            Mode::Exclusive => Holders::Writer(session),
        }
    }

    /// These and a session's lock; None where the lock of another session excludes it.
    pub(crate) fn with(self, session: usize, mode: Mode) -> Option<Holders>
        requires { session < SESSIONS }
        ensures granted { IfSome result (λ holders. ChangesTo (Some self) (Some holders) session (Some (stronger (mode_in self session) mode))) }
        ensures refused { IsNone result ↔ Refuses (Some self) session mode }
    {
        match self {
            Holders::Writer(writer) if writer == session => Some(self),
            Holders::Writer(_) => None,
            Holders::Readers(readers) => readers_with(readers, session, mode),
        }
    }

    /// These without a session; None where no other is left.
    fn without(self, session: usize) -> Option<Holders>
        requires { session < SESSIONS }
        ensures others { ChangesTo (Some self) result session None }
        ensures held { IfSome result IsHeld }
    {
        match self {
            Holders::Writer(writer) if writer == session => None,
            Holders::Writer(_) => Some(self),
            Holders::Readers(readers) => readers_without(readers, session),
        }
    }

    /// These, where a session's lock becomes no stronger than it is.
    pub(crate) fn weakened(self, session: usize, mode: Option<Mode>) -> Option<Holders>
        requires session { session < SESSIONS }
        requires weaker { IsAtMost mode (mode_in self session) }
        ensures others { ChangesTo (Some self) result session mode }
        ensures held { IfSome result IsHeld }
    {
        match (self, mode) {
            (_, None) => self.without(session),
            (Holders::Writer(_), Some(mode)) => Some(Holders::one(session, mode)),
            (Holders::Readers(_), Some(_)) => Some(self),
        }
    }
}

fn readers_with(readers: u64, session: usize, mode: Mode) -> Option<Holders>
    requires { session < SESSIONS }
    ensures granted { IfSome result (λ holders. ChangesTo (Some (Holders.Readers readers)) (Some holders) session (Some (stronger (mode_in (Holders.Readers readers) session) mode))) }
    ensures refused { IsNone result ↔ Refuses (Some (Holders.Readers readers)) session mode }
{
    match mode {
        Mode::Shared => Some(Holders::Readers(readers | 1 << session)),
        Mode::Exclusive if readers & !(1 << session) == 0 => Some(Holders::Writer(session)),
        Mode::Exclusive => None,
    }
}

fn readers_without(readers: u64, session: usize) -> Option<Holders>
    requires { session < SESSIONS }
    ensures others { ChangesTo (Some (Holders.Readers readers)) result session None }
    ensures held { IfSome result IsHeld }
{
    let others = readers & !(1 << session);
    if others == 0 {
        None
    } else {
        Some(Holders::Readers(others))
    }
}

/// In which mode, if any, a session is among readers.
fn mode_of_reader(readers: u64, session: usize) -> Option<Mode>
    requires { session < SESSIONS }
    ensures { result ≡ mode_in (Holders.Readers readers) session }
{
    if (readers >> session) & 1 == 1 {
        Some(Mode::Shared)
    } else {
        None
    }
}

/// In which mode a session holds a key that has these holders, if it does.
pub(crate) fn mode_among(holders: Option<Holders>, session: usize) -> Option<Mode>
    requires { session < SESSIONS }
    ensures { result ≡ mode_among holders session }
{
    match holders {
        Some(Holders::Readers(readers)) => mode_of_reader(readers, session),
        Some(Holders::Writer(writer)) if writer == session => Some(Mode::Exclusive),
        Some(Holders::Writer(_)) | None => None,
    }
}

/// Whether a key has no holders.
pub(crate) fn is_nobody(holders: Option<Holders>) -> bool
    ensures { IsTrue result ↔ (holders ≡ None) }
{
    match holders {
        Some(_) => false,
        None => true,
    }
}

/// A session is granted a lock on a key that has holders, or it is refused. `own` are the keys that
/// it holds.
#[inline(always)]
pub(crate) fn join<A: Allocator>(
    holders: &mut Holders,
    own: &mut Vec<Key, A>,
    session: usize,
    key: &Key,
    mode: Mode,
) -> Result<Option<Mode>, LockError>
    requires { session < SESSIONS }
    ensures before { IfOk result (λ before. before ≡ mode_in holders.old session) }
    ensures granted { OnOk result (ChangesTo (Some holders.old) (Some holders.new) session (Some (stronger (mode_in holders.old session) mode))) }
    ensures own { OnOk result (own.new.items ≡ with_key own.old.items key.now (mode_in holders.old session)) }
    ensures refused { OnErr result (holders.new ≡ holders.old) }
    ensures own_refused { OnErr result (own.new.items ≡ own.old.items) }
    ensures conflict { result ≡ Err LockError.Conflict ↔ Refuses (Some holders.old) session mode }
    ensures memory { IsSome (mode_in holders.old session) → result ≢ Err LockError.NoMemory }
{
    let held = mode_among(Some(*holders), session);
    if keeps_asked(held, mode) {
        return Ok(held);
    }
    let Some(after) = holders.with(session, mode) else {
        return Err(LockError::Conflict);
    };
    if held.is_none() {
        own.reserve(1).map_err(NoMemory::from)?;
        own.push_reserved(*key);
    }
    *holders = after;
    Ok(held)
}
