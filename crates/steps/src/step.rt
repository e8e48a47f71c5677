//! How a call goes on.

ghost use Rattle.std.specs.Prelude.{◌≡◌, ◌<◌, Err, IfOk, IfSome, None, OnErr, OnOk, false, if◌then◌else◌, length, slice_index_or, slice_set};
ghost use Rattle.procedure.specs.Needs.{accessed};
ghost use Rattle.procedure.specs.Runs.{ended, is_nil, next_need};
ghost use Rattle.procedure.specs.declared.limits.TheConstants.{INSTRUCTIONS, SESSIONS};
ghost use Rattle.record_store.specs.Stores.{Slots};
ghost use Rattle.steps.specs.inside.RecordEdits.{IsFoundBy};
ghost use Rattle.steps.specs.inside.Instructions.{Advances, SameOpen, becomes_in, lacks_place, touch_by, touch_in};
ghost use Rattle.steps.specs.CoreViews.{OfOpen, Steps, front_of, one_more, stepped_as};
ghost use Rattle.steps.specs.Versions.{makes_record, versions_in};
ghost use Rattle.steps.specs.inside.InstructionLocks.{AnswersTo, IsExcluded, SameLocks, StepsIn, mode_of_touch, held_so, locked, short};
ghost use Rattle.locktable.specs.Modes.{IsAtMost};
ghost use Rattle.steps.specs.Refusals.{Answers, step_refusal};
ghost use Rattle.steps.specs.declared.errors.StepError.TheVariants as refused;

use crate::calls::OpenCall;
use crate::cores::Core;
use crate::errors::StepError;
use crate::instructions::run;
use crate::locking::{lock, unlock};
use locktable::{LockError, LockTable, Mode};
use phase::Phase;
use procedure::{Access, Machine};
use record_store::Store;
use record_store::limits::STORE_RECORDS;
use std::alloc::Allocator;

/// How a step is answered that executed an instruction.
#[derive(Clone, Copy, Debug, PartialEq, Eq)]
pub enum Stepped {
    /// There are instructions left.
    Ran,
    /// The call may be finished.
    Ready,
}

/// Whether the next instruction must make a record of its key, whose record is in `slot` if it has one.
fn makes_record<A: Allocator>(machine: &Machine<A>, slot: Option<usize>) -> bool
    ensures { (slots : Slots) → IsFoundBy slots (touch_in machine.now) slot →
        result ≡ makes_record (versions_in slots) (touch_in machine.now) (becomes_in slots machine.now) }
{
    slot.is_none() && machine.gives_value()
}

/// Whether the next instruction must make a record that has no place.
#[inline(always)]
fn lacks_place<A: Allocator>(store: &Store<A>, machine: &Machine<A>, slot: Option<usize>) -> bool
    requires { IsFoundBy store.now (touch_in machine.now) slot }
    ensures { result ≡ lacks_place store.now machine.now }
{
    store.len() >= STORE_RECORDS && makes_record(machine, slot)
}

/// The slot of the record whose key an instruction touches, if there is one.
fn slot_of<A: Allocator>(store: &Store<A>, access: &Access) -> Option<usize>
    ensures { IsFoundBy store.now (touch_by access.now) result }
{
    match access {
        Access::Reads(key) | Access::Writes(key) => store.find(key),
        Access::Nothing | Access::Ended(_) => None,
    }
}

/// The refusal of a write for which the memory or the place is wanting.
fn short(full: bool) -> StepError
    ensures { result ≡ short full }
{
    if full {
        StepError::TableFull
    } else {
        StepError::NoMemory
    }
}

/// Executes the next instruction of a call under its lock, where a record that it makes has its place.
fn run_where<A: Allocator + Clone>(
    store: &mut Store<A>,
    call: &mut OpenCall<A>,
    access: &Access,
    phase: Phase,
) -> Result<(), StepError>
    requires access { access.now ≡ accessed (next_need call.old.machine.args call.old.machine.progress) }
    requires few { call.old.executed < INSTRUCTIONS }
    ensures ok { OnOk result (Advances phase store.old call.old store.new call.new) }
    ensures place { OnOk result (lacks_place store.old call.old.machine ≡ false) }
    ensures err { OnErr result ((store.new ≡ store.old) × SameOpen call.old call.new) }
    ensures refusal { OnErr result (result ≡ Err (short (lacks_place store.old call.old.machine))) }
{
    let slot = slot_of(store, access);
    let full = lacks_place(store, &call.machine, slot);
    if full {
        return Err(short(full));
    }
    match run(store, call, access, slot, phase) {
        Ok(()) => Ok(()),
        Err(_) => Err(short(full)),
    }
}

/// Executes the next instruction of a call, whose lock was granted. With a refusal the session holds the
/// key as before.
fn run_granted<A: Allocator + Clone>(
    store: &mut Store<A>,
    locks: &mut LockTable<A>,
    session: usize,
    call: &mut OpenCall<A>,
    access: &Access,
    phase: Phase,
    before: Option<Mode>,
) -> Result<(), StepError>
    requires session { session < SESSIONS }
    requires access { access.now ≡ accessed (next_need call.old.machine.args call.old.machine.progress) }
    requires few { call.old.executed < INSTRUCTIONS }
    requires weaker { IsAtMost before (mode_of_touch locks.old session (touch_by access.now)) }
    ensures ok { OnOk result (Advances phase store.old call.old store.new call.new) }
    ensures granted { OnOk result (locks.new ≡ locks.old) }
    ensures place { OnOk result (lacks_place store.old call.old.machine ≡ false) }
    ensures err { OnErr result ((store.new ≡ store.old) × SameOpen call.old call.new) }
    ensures unlocked { OnErr result (locks.new ≡ held_so locks.old session (touch_by access.now) before) }
    ensures refusal { OnErr result (result ≡ Err (short (lacks_place store.old call.old.machine))) }
{
    match run_where(store, call, access, phase) {
        Ok(()) => Ok(()),
        Err(refused) => {
            unlock(locks, session, access, before);
            Err(refused)
        }
    }
}

/// Takes the lock of the next instruction of a call and executes it. With a refusal the lock is taken
/// back.
fn run_locked<A: Allocator + Clone>(
    store: &mut Store<A>,
    locks: &mut LockTable<A>,
    session: usize,
    call: &mut OpenCall<A>,
    access: &Access,
    phase: Phase,
) -> Result<(), StepError>
    requires session { session < SESSIONS }
    requires sessions { length locks.old ≡ SESSIONS }
    requires access { access.now ≡ accessed (next_need call.old.machine.args call.old.machine.progress) }
    requires few { call.old.executed < INSTRUCTIONS }
    ensures ok { OnOk result (Advances phase store.old call.old store.new call.new) }
    ensures granted { OnOk result (locks.new ≡ locked locks.old session (touch_by access.now)) }
    ensures err { OnErr result ((store.new ≡ store.old) × SameOpen call.old call.new) }
    ensures unlocked { OnErr result (SameLocks locks.old locks.new × (length locks.new ≡ SESSIONS)) }
    ensures refusal { AnswersTo false (IsExcluded locks.old session (touch_by access.now)) (lacks_place store.old call.old.machine) result }
{
    match lock(locks, session, access) {
        Ok(before) => run_granted(store, locks, session, call, access, phase, before),
        Err(LockError::Conflict) => Err(StepError::Conflict),
        Err(LockError::NoMemory) => {
            let slot = slot_of(store, access);
            Err(short(lacks_place(store, &call.machine, slot)))
        }
    }
}

/// Whether a call has instructions left.
fn readiness<A: Allocator>(machine: &Machine<A>) -> Stepped
    ensures { result ≡ (if is_nil machine.now.progress.rest then Stepped.Ready else Stepped.Ran) }
{
    match machine.ended() {
        Some(_) => Stepped::Ready,
        None => Stepped::Ran,
    }
}

/// Executes the next instruction of a call, if it has one.
fn execute_next<A: Allocator + Clone>(
    store: &mut Store<A>,
    locks: &mut LockTable<A>,
    session: usize,
    call: &mut OpenCall<A>,
    phase: Phase,
) -> Result<Stepped, StepError>
    requires session { session < SESSIONS }
    requires sessions { length locks.old ≡ SESSIONS }
    requires few { ended call.old.machine.progress ≡ None → call.old.executed < INSTRUCTIONS }
    ensures ok { OnOk result (Advances phase store.old call.old store.new call.new) }
    ensures granted { OnOk result (locks.new ≡ locked locks.old session (touch_in call.old.machine)) }
    ensures ready { IfOk result (λ r. r ≡ (if is_nil call.new.machine.progress.rest then Stepped.Ready else Stepped.Ran)) }
    ensures err { OnErr result ((store.new ≡ store.old) × SameOpen call.old call.new) }
    ensures unlocked { OnErr result (SameLocks locks.old locks.new × (length locks.new ≡ SESSIONS)) }
    ensures refusal { AnswersTo (is_nil call.old.machine.progress.rest) (IsExcluded locks.old session (touch_in call.old.machine)) (lacks_place store.old call.old.machine) result }
{
    if call.machine.ended().is_some() {
        return Err(StepError::AlreadyReady);
    }
    let access = call.machine.access();
    run_locked(store, locks, session, call, &access, phase)?;
    Ok(readiness(&call.machine))
}

/// Executes the next instruction of the call in a place, if there is one.
fn step_open<A: Allocator + Clone>(
    store: &mut Store<A>,
    locks: &mut LockTable<A>,
    session: usize,
    place: &mut Option<OpenCall<A>>,
    phase: Phase,
) -> Result<Stepped, StepError>
    requires session { session < SESSIONS }
    requires sessions { length locks.old ≡ SESSIONS }
    requires few { IfSome place.old (λ c. ended c.machine.progress ≡ None → c.executed < INSTRUCTIONS) }
    ensures { StepsIn phase session store.old locks.old place.old store.new locks.new place.new result }
{
    match place {
        Some(call) => execute_next(store, locks, session, call, phase),
        None => Err(StepError::NotActive),
    }
}

/// Executes the next instruction of a session's call, which stays in its place.
fn step_session<A: Allocator + Clone>(
    store: &mut Store<A>,
    locks: &mut LockTable<A>,
    calls: &mut Vec<Option<OpenCall<A>>, A>,
    session: usize,
    phase: Phase,
) -> Result<Stepped, StepError>
    requires calls { length calls.old.items ≡ SESSIONS }
    requires sessions { length locks.old ≡ SESSIONS }
    requires few { IfSome (slice_index_or calls.old.items session None) (λ c. ended c.machine.progress ≡ None → c.executed < INSTRUCTIONS) }
    ensures here { StepsIn phase session store.old locks.old (slice_index_or calls.old.items session None) store.new locks.new (slice_index_or calls.new.items session None) result }
    ensures others { calls.new.items ≡ slice_set calls.old.items session (slice_index_or calls.new.items session None) }
{
    match calls.get_mut(session) {
        Some(place) => step_open(store, locks, session, place, phase),
        None => Err(StepError::NotActive),
    }
}

impl<A: Allocator + Clone> Core<A> {
    /// Executes the next instruction of a session's call: it takes the lock of the key that it touches,
    /// and keeps it until the call's end. With a refusal the call is as before.
    pub fn step(&mut self, session: u16) -> Result<Stepped, StepError>
        ensures stepped { OnOk result (OfOpen self.old session (Steps self.old self.new session)) }
        ensures ready { IfOk result (λ r. OfOpen self.old session (λ c. r ≡ stepped_as (front_of self.old (one_more c)))) }
        ensures refused { OnErr result (self.new ≡ self.old) }
        ensures refusal { Answers (step_refusal self.old session) refused.NoMemory result }
    {
        step_session(
            &mut self.store,
            &mut self.locks,
            &mut self.calls,
            usize::from(session),
            self.phase,
        )
    }
}
