//! How a core is opened from an image.

ghost use Rattle.std.specs.Prelude.{◌≡◌, ◌+◌, [], IfOk, OnOk, IsTrue, None, length, max, replicate};
ghost use Rattle.std.specs.FinMap as map;
ghost use Rattle.procedure.specs.Bytes.{Bytes};
ghost use Rattle.procedure.specs.declared.limits.TheConstants.{SESSIONS};
ghost use Rattle.image.specs.Openings.{is_opening};
ghost use Rattle.record_store.specs.Stores.{records};
ghost use Rattle.steps.specs.Versions.{versions_in};
ghost use Rattle.steps.specs.inside.Openings.{IsFilledBy};
ghost use Rattle.steps.specs.inside.RecordEdits.{with_opened};
ghost use Rattle.steps.specs.Openings.{IsOpened};
ghost use Rattle.steps.specs.Refusals.{Answers, refused_unless};
ghost use Rattle.steps.specs.declared.errors.OpenError.TheVariants as refused;

use crate::calls::OpenCall;
use crate::checkpoints::Checkpoint;
use crate::cores::Core;
use crate::edits::write_key;
use crate::errors::OpenError;
use crate::notes::Rooms;
use crate::reclaiming::Aside;
use commitlog::Log;
use image::{Entry, Image};
use locktable::LockTable;
use phase::{Active, Phase};
use procedure::limits::SESSIONS;
use procedure::{Catalog, NoMemory};
use record_store::{Changed, Store};
use std::alloc::Allocator;

/// A record for an entry whose key has none.
fn fill_entry<A: Allocator + Clone>(store: &mut Store<A>, entry: &Entry<A>) -> Result<(), NoMemory>
    requires { versions_in store.old entry.now.0 ≡ None }
    ensures versions { OnOk result ((q : Bytes) → versions_in store.new q ≡ with_opened (versions_in store.old) entry.now q) }
    ensures slots { OnOk result (length store.new ≡ max (length store.old) (records store.old + 1)) }
    ensures records { OnOk result (records store.new ≡ records store.old + 1) }
{
    // Brings in that no two slots have the same key.
    let _candidate = store.least_candidate();
    let cell = entry.cell.clone()?;
    match write_key(store, entry.key, None, Phase::Rest, Phase::Rest, cell) {
        Ok(_) => Ok(()),
        // There is a place for a record of each entry of an image.
        Err(_) => Err(NoMemory),
    }
}

/// Nothing for each session.
fn none_for_each<T, A: Allocator>(alloc: A) -> Result<Vec<Option<T>, A>, NoMemory>
    ensures { IfOk result (λ items. items.items ≡ replicate SESSIONS None) }
{
    let mut items = Vec::with_capacity(alloc, usize::from(SESSIONS))?;
    for _session in 0..SESSIONS {
        items.push_reserved(None);
    }
    Ok(items)
}

/// The store of a core that is opened from a lawful opening.
pub(crate) fn store_of<A: Allocator + Copy>(
    alloc: A,
    opening: &Image<A>,
) -> Result<Store<A>, NoMemory>
    requires { IsTrue (is_opening opening.now) }
    ensures { IfOk result (IsFilledBy opening.now) }
{
    let entries = opening.entries();
    let mut store = Store::with_capacity(alloc, entries.len())?;
    for entry in entries {
        fill_entry(&mut store, entry)?;
    }
    Ok(store)
}

/// What a core keeps of its sessions.
#[derive(Drop)]
pub(crate) struct Sessions<A: Allocator> {
    locks: LockTable<A>,
    /// The open call of each.
    calls: Vec<Option<OpenCall<A>>, A>,
    rooms: Rooms<A>,
    /// The last number of each.
    last: Vec<Option<u64>, A>,
}

/// What it keeps where no session has called yet.
pub(crate) fn new_sessions<A: Allocator + Copy>(alloc: A) -> Result<Sessions<A>, NoMemory>
    ensures locks { IfOk result (λ s. s.locks ≡ replicate SESSIONS map.empty) }
    ensures calls { IfOk result (λ s. s.calls.items ≡ replicate SESSIONS None) }
    ensures last { IfOk result (λ s. s.last.items ≡ replicate SESSIONS None) }
{
    let locks = LockTable::new(alloc)?;
    let calls = none_for_each(alloc)?;
    let rooms = Vec::with_capacity(alloc, usize::from(SESSIONS))?;
    let last = none_for_each(alloc)?;
    Ok(Sessions {
        locks,
        calls,
        rooms,
        last,
    })
}

/// A core at rest over a lawful opening.
pub(crate) fn core_of<A: Allocator + Copy>(
    alloc: A,
    catalog: Catalog<A>,
    opening: Image<A>,
    store: Store<A>,
    sessions: Sessions<A>,
) -> Core<A>
    requires opening { IsTrue (is_opening opening) }
    requires store { IsFilledBy opening store }
    requires locks { sessions.locks ≡ replicate SESSIONS map.empty }
    requires calls { sessions.calls.items ≡ replicate SESSIONS None }
    requires last { sessions.last.items ≡ replicate SESSIONS None }
    ensures { IsOpened catalog opening result }
{
    // Brings in that the catalog is lawful.
    let _procedures = catalog.procedures();
    // Brings in that the store has at most 100,000 records, and so the table as many keys.
    let _records = store.len();
    let Sessions {
        locks,
        calls,
        rooms,
        last,
    } = sessions;
    Core {
        alloc,
        catalog,
        opening,
        log: Log::new(alloc),
        store,
        locks,
        changed: Changed::new(alloc),
        calls,
        rooms,
        active: Active::new(),
        last,
        phase: Phase::Rest,
        checkpoint: Checkpoint::none(alloc),
        aside: Aside::Unknown,
    }
}

/// A core at rest over a lawful opening, where there is memory.
fn build<A: Allocator + Copy>(
    alloc: A,
    catalog: Catalog<A>,
    opening: Image<A>,
) -> Result<Core<A>, NoMemory>
    requires { IsTrue (is_opening opening) }
    ensures { IfOk result (λ c. IsOpened catalog opening c) }
{
    let store = store_of(alloc, &opening)?;
    let sessions = new_sessions(alloc)?;
    Ok(core_of(alloc, catalog, opening, store, sessions))
}

impl<A: Allocator + Copy> Core<A> {
    /// A core at rest, with an empty log, whose table is that of the image. It keeps the catalog and
    /// the image; with a refusal they are given up.
    pub fn open(alloc: A, catalog: Catalog<A>, opening: Image<A>) -> Result<Self, OpenError>
        ensures opened { IfOk result (λ c. IsOpened catalog opening c) }
        ensures refusal { Answers (refused_unless (is_opening opening) refused.NotAnOpening) refused.NoMemory result }
    {
        if !opening.is_opening() {
            return Err(OpenError::NotAnOpening);
        }
        match build(alloc, catalog, opening) {
            Ok(core) => Ok(core),
            Err(NoMemory) => Err(OpenError::NoMemory),
        }
    }
}
