//! How a new core goes on from the table of one whose log ends.

ghost use Rattle.std.specs.Prelude.{◌≡◌, ◌↔◌, IfErr, IfOk, IfSome, IsNone, IsTrue, None, OnOk, Some, length, map, replicate};
ghost use Rattle.std.specs.FinMap as finite;
ghost use Rattle.std.specs.List.{All};
ghost use Rattle.std.specs.Option.{option_map};
ghost use Rattle.procedure.specs.Bytes.{Bytes};
ghost use Rattle.procedure.specs.Table.{change_at};
ghost use Rattle.procedure.specs.declared.limits.TheConstants.{SESSIONS};
ghost use Rattle.image.specs.Headers.{EachKeyOnce, map_of};
ghost use Rattle.image.specs.Images as images;
ghost use Rattle.image.specs.Merges.{table_of};
ghost use Rattle.record_store.specs.Stores.{live_count, record_at, record_at_rest};
ghost use Rattle.steps.specs.CoreViews.{table_now};
ghost use Rattle.steps.specs.Openings.{IsOpened};
ghost use Rattle.steps.specs.Refusals.{Answers};
ghost use Rattle.steps.specs.Renewals.{is_busy, next_opening, no_core, renew_refusal};
ghost use Rattle.steps.specs.Versions.{live_version, versions_in};
ghost use Rattle.steps.specs.inside.LiveEntries.{live_entry};
ghost use Rattle.steps.specs.inside.Openings.{IsFilledBy};
ghost use Rattle.steps.specs.declared.errors.RenewError.TheVariants as refused;

use crate::calls::OpenCall;
use crate::completing::image_of;
use crate::cores::Core;
use crate::edits::copy_of;
use crate::errors::RenewError;
use crate::open::{Sessions, core_of, new_sessions, store_of};
use commitlog::Log;
use image::{Entry, Image, Kind};
use phase::Phase;
use procedure::NoMemory;
use record_store::{Record, Store};
use std::alloc::Allocator;

/// What a core leaves, and the one that goes on from its table.
#[derive(Drop)]
pub struct Renewed<A: Allocator> {
    /// The log of the old core.
    pub log: Log<A>,
    /// The image that the old core was opened from.
    pub opening: Image<A>,
    /// The new one. Its opening is the table after that log.
    pub core: Core<A>,
}

/// What is made for the core that goes on, before the old one is taken apart.
#[derive(Drop)]
struct Next<A: Allocator> {
    opening: Image<A>,
    /// None where the old store serves again.
    store: Option<Store<A>>,
    sessions: Sessions<A>,
}

/// Whether no call of any session is open.
fn are_free<A: Allocator>(calls: &[Option<OpenCall<A>>]) -> bool
    ensures { IsTrue result ↔ All (λ call. IsNone call) calls.now }
{
    calls.iter().all(|call| call.is_none())
}

/// The key of a slot's record with a copy of its value, where it isn't dead.
fn live_entry<A: Allocator + Clone>(
    store: &Store<A>,
    slot: usize,
) -> Result<Option<Entry<A>>, NoMemory>
    ensures { IfOk result (λ entry. entry ≡ live_entry (record_at store.now slot)) }
{
    match store.slot(slot) {
        Some(Record { key, live, .. }) => match copy_of(live)? {
            Some(value) => Ok(Some(Entry {
                key,
                cell: Some(value),
            })),
            None => Ok(None),
        },
        None => Ok(None),
    }
}

/// The keys that are present with copies of their values, in the order of their slots.
fn live_entries<A: Allocator + Clone>(
    alloc: A,
    store: &Store<A>,
) -> Result<Vec<Entry<A>, A>, NoMemory>
    ensures once { IfOk result (λ es. EachKeyOnce es.items) }
    ensures values { IfOk result (λ es. (q : Bytes) → change_at (map_of es.items) q ≡ option_map (λ b. Some b) (live_version (versions_in store.now q))) }
    ensures count { IfOk result (λ es. length es.items ≡ live_count store.now) }
{
    // Brings in that no two slots have the same key.
    let _candidate = store.least_candidate();
    let mut entries = Vec::with_capacity(alloc, store.live_count())?;
    for slot in 0..store.slots() {
        if let Some(entry) = live_entry(store, slot)? {
            entries.push(entry)?;
        }
    }
    Ok(entries)
}

impl<A: Allocator> Core<A> {
    /// Whether a call of any session is open.
    fn is_busy(&self) -> bool
        ensures { result ≡ is_busy self.now.calls }
    {
        !are_free(&self.calls)
    }

    /// Whether a new core may go on from it, out of memory apart.
    fn may_renew(&self) -> Result<(), RenewError>
        ensures ok { OnOk result (renew_refusal self.now ≡ None) }
        ensures err { IfErr result (λ e. renew_refusal self.now ≡ Some e) }
    {
        match self.phase() {
            Phase::Rest => {}
            _ => return Err(RenewError::NotAtRest),
        }
        if self.is_busy() {
            return Err(RenewError::SessionBusy);
        }
        if self.checkpoint.is_waiting() {
            return Err(RenewError::NotTaken);
        }
        Ok(())
    }
}

impl<A: Allocator + Clone> Core<A> {
    /// The opening of the core that goes on from it.
    fn next_opening(&self) -> Result<Image<A>, NoMemory>
        requires { renew_refusal self.now ≡ None }
        ensures value { IfOk result (λ i. i ≡ next_opening self.now) }
        ensures count { IfOk result (λ i. length i.entries ≡ live_count self.now.slots) }
    {
        let entries = live_entries(self.alloc.clone()?, &self.store)?;
        Ok(image_of(Kind::Full, 0, 0, 0, entries))
    }
}

/// The store of the core that goes on: a new one, or the old one with its records at rest.
fn store_after<A: Allocator>(new: Option<Store<A>>, mut old: Store<A>) -> Store<A>
    ensures { (next : images.Image) → IfSome new (IsFilledBy next) → (IsNone new → IsFilledBy next (map (option_map record_at_rest) old)) → IsFilledBy next result }
{
    match new {
        Some(store) => store,
        None => {
            old.next_number();
            old
        }
    }
}

impl<A: Allocator + Copy> Core<A> {
    /// A store for the core that goes on; None where the one that stands serves, since each of its
    /// slots has a record that isn't dead.
    fn next_store(&self, next: &Image<A>) -> Result<Option<Store<A>>, NoMemory>
        requires free { renew_refusal self.now ≡ None }
        requires next { next.now ≡ next_opening self.now }
        requires count { length next.now.entries ≡ live_count self.now.slots }
        ensures some { IfOk result (λ store. IfSome store (IsFilledBy next.now)) }
        ensures none { IfOk result (λ store. IsNone store → IsFilledBy next.now (map (option_map record_at_rest) self.now.slots)) }
    {
        if next.entries().len() == self.store.slots() {
            return Ok(None);
        }
        Ok(Some(store_of(self.alloc, next)?))
    }

    /// Makes what the core that goes on doesn't take over.
    fn next_parts(&self) -> Result<Next<A>, NoMemory>
        requires { renew_refusal self.now ≡ None }
        ensures opening { IfOk result (λ n. n.opening ≡ next_opening self.now) }
        ensures some { IfOk result (λ n. IfSome n.store (IsFilledBy n.opening)) }
        ensures none { IfOk result (λ n. IsNone n.store → IsFilledBy n.opening (map (option_map record_at_rest) self.now.slots)) }
        ensures locks { IfOk result (λ n. n.sessions.locks ≡ replicate SESSIONS finite.empty) }
        ensures calls { IfOk result (λ n. n.sessions.calls.items ≡ replicate SESSIONS None) }
        ensures last { IfOk result (λ n. n.sessions.last.items ≡ replicate SESSIONS None) }
    {
        let opening = self.next_opening()?;
        let store = self.next_store(&opening)?;
        let sessions = new_sessions(self.alloc)?;
        Ok(Next {
            opening,
            store,
            sessions,
        })
    }

    /// Ends the core, and opens a new one with its catalog and its table. The log and the opening of
    /// the old one are handed over beside it. It needs no room in the log, so a core whose log is full
    /// can be renewed. The numbers of the sessions begin anew.
    ///
    /// It is refused in another phase than rest (`NotAtRest`), where a call is open (`SessionBusy`),
    /// where the image of the last checkpoint or its header still waits (`NotTaken`), and for memory
    /// (`NoMemory`). A refusal hands the core back as it was.
    pub fn renew(self) -> Result<Renewed<A>, (Self, RenewError)>
        ensures core { IfOk result (λ r. IsOpened self.catalog (next_opening self) r.core) }
        ensures table { IfOk result (λ r. table_of r.core.opening ≡ table_now self) }
        ensures log { IfOk result (λ r. r.log.records ≡ self.log) }
        ensures opening { IfOk result (λ r. r.opening ≡ self.opening) }
        ensures same { IfErr result (λ e. e.0 ≡ self) }
        ensures refusal { Answers (renew_refusal self) refused.NoMemory (no_core result) }
    {
        if let Err(refused) = self.may_renew() {
            return Err((self, refused));
        }
        let next = match self.next_parts() {
            Ok(next) => next,
            Err(NoMemory) => return Err((self, RenewError::NoMemory)),
        };
        let Core {
            alloc,
            catalog,
            opening,
            log,
            store,
            ..
        } = self;
        let store = store_after(next.store, store);
        let core = core_of(alloc, catalog, next.opening, store, next.sessions);
        Ok(Renewed { log, opening, core })
    }
}
