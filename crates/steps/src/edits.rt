//! What calls do to the records of a store: writes with the copies that a checkpoint needs, and what
//! becomes of the written keys when their call commits or is undone.

ghost use Rattle.std.specs.Prelude.{◌≡◌, ◌≤◌, ◌↔◌, ◌+◌, false, if◌then◌else◌, cond, IfOk, OnOk, OnErr, IsSome, IsTrue, None, Some, Err, option_copied, true, map, length, is_none, is_some, ◌||◌};
ghost use Rattle.procedure.specs.Bytes.{Bytes, same};
ghost use Rattle.procedure.specs.Needs.{Touch};
ghost use Rattle.record_store.specs.Stores.{changed, live_at, record_at, records};
ghost use Rattle.record_store.specs.ChangedSets.{has, room};
ghost use Rattle.record_store.specs.declared.stores.CreateError.TheVariants.{TableFull};
ghost use Rattle.record_store.specs.declared.limits.TheConstants.{STORE_RECORDS};
ghost use Rattle.steps.specs.Versions.{copied, found, is_late, kept, kept_key, live_version, slots_with, undone_key, wrote, versions_in};
ghost use Rattle.steps.specs.CoreViews.{SameKeys};
ghost use Rattle.steps.specs.inside.RecordEdits.{IsFound, IsFoundBy, KeepsSlots, available_at, has_stable_at, undone_version, all_kept, all_undone, edited, first_noted, noted_of, written_versions};

use crate::notes::Note;
use phase::Phase;
use procedure::{Key, NoMemory, Value};
use record_store::{Changed, CreateError, Record, Stable, Store};
use std::alloc::Allocator;

fn is_available<A: Allocator>(store: &Store<A>, slot: usize) -> bool
    ensures { result ≡ available_at store.now slot }
{
    match store.slot(slot) {
        Some(Record { available, .. }) => available,
        None => false,
    }
}

fn has_stable<A: Allocator>(store: &Store<A>, slot: usize) -> bool
    ensures { result ≡ has_stable_at store.now slot }
{
    match store.slot(slot) {
        Some(
            Record {
                stable: Stable::Was(_),
                ..
            },
        ) => true,
        _ => false,
    }
}

/// The live version of the record in a slot.
fn live<A: Allocator>(store: &Store<A>, slot: usize) -> Option<&Value<A>>
    ensures { option_copied result ≡ live_at store.now slot }
{
    match store.slot(slot) {
        Some(Record { live, .. }) => live,
        None => None,
    }
}

/// The copy that a checkpoint needs before a write, by the phase in which the call started.
fn copy_before_write<A: Allocator + Clone>(
    store: &mut Store<A>,
    slot: usize,
    start: Phase,
) -> Result<(), NoMemory>
    ensures ok { OnOk result (store.new ≡ changed (edited (copied start)) store.old slot) }
    ensures err { OnErr result (store.new ≡ store.old) }
    ensures memory { OnErr result (IsSome (live_at store.old slot)) }
{
    match start {
        Phase::Rest | Phase::Complete => Ok(()),
        Phase::Prepare => {
            if is_available(store, slot) || has_stable(store, slot) {
                return Ok(());
            }
            store.copy_stable(slot)
        }
        Phase::Resolve | Phase::Capture => {
            if is_available(store, slot) {
                return Ok(());
            }
            store.copy_stable(slot)?;
            store.set_available(slot, true);
            Ok(())
        }
    }
}

/// A write to a record: the live version becomes this, and the one before is given back.
#[inline(always)]
fn write_record<A: Allocator + Clone>(
    store: &mut Store<A>,
    slot: usize,
    start: Phase,
    live: Option<Value<A>>,
) -> Result<Option<Value<A>>, NoMemory>
    ensures before { IfOk result (λ before. before ≡ live_at store.old slot) }
    ensures ok { OnOk result (store.new ≡ changed (edited (written_versions start live)) store.old slot) }
    ensures err { OnErr result (store.new ≡ store.old) }
    ensures memory { OnErr result (IsSome (live_at store.old slot)) }
{
    copy_before_write(store, slot, start)?;
    Ok(store.write_live(slot, live))
}

/// Whether a record that is made in this phase is available from the start.
fn is_late(phase: Phase) -> bool
    ensures { result ≡ is_late phase }
{
    matches!(phase, Phase::Capture | Phase::Complete)
}

/// A write to a key, whose record is in `slot` if it has one, by a call that started in `start`: its record
/// is made where there is none. The live version before is given back.
pub(crate) fn write_key<A: Allocator + Clone>(
    store: &mut Store<A>,
    key: Key,
    slot: Option<usize>,
    phase: Phase,
    start: Phase,
    live: Option<Value<A>>,
) -> Result<Option<Value<A>>, CreateError>
    requires { IsFound store.old key slot }
    ensures before { IfOk result (λ before. before ≡ live_version (versions_in store.old key)) }
    ensures ok { OnOk result ((q : Bytes) → versions_in store.new q ≡ cond (same q key) (Some (wrote phase start (versions_in store.old key) live)) (versions_in store.old q)) }
    ensures keys { KeepsSlots store.old store.new }
    ensures slots { OnOk result (length store.new ≡ slots_with (is_none (versions_in store.old key)) store.old) }
    ensures records { OnOk result (records store.new ≡ (if is_none (versions_in store.old key) then records store.old + 1 else records store.old)) }
    ensures err { OnErr result (store.new ≡ store.old) }
    ensures full { (result ≡ Err TableFull) ↔ (STORE_RECORDS ≤ records store.old) × (versions_in store.old key ≡ None) }
{
    match slot {
        Some(slot) => match write_record(store, slot, start, live) {
            Ok(before) => Ok(before),
            Err(NoMemory) => Err(CreateError::NoMemory),
        },
        None => match store.create(key, is_late(phase)) {
            Ok(slot) => match write_record(store, slot, start, live) {
                Ok(before) => {
                    store.reconsider(slot);
                    Ok(before)
                }
                Err(NoMemory) => Err(CreateError::NoMemory),
            },
            Err(refused) => Err(refused),
        },
    }
}

/// What a touched key holds, whose record is in `slot` if it has one.
pub(crate) fn held<A: Allocator>(store: &Store<A>, slot: Option<usize>) -> Option<&Value<A>>
    ensures { (touch : Touch) → IsFoundBy store.now touch slot → option_copied result ≡ found (versions_in store.now) touch }
{
    match slot {
        Some(slot) => live(store, slot),
        None => None,
    }
}

/// A copy of what a key holds.
pub(crate) fn copy_of<A: Allocator + Clone>(
    held: Option<&Value<A>>,
) -> Result<Option<Value<A>>, NoMemory>
    ensures { IfOk result (λ copy. copy ≡ option_copied held.entry) }
{
    match held {
        Some(value) => Ok(Some(value.clone()?)),
        None => Ok(None),
    }
}

fn undo_record<A: Allocator>(store: &mut Store<A>, slot: usize, before: Option<Value<A>>)
    ensures { store.new ≡ changed (edited (undone_version before)) store.old slot }
{
    let available = is_available(store, slot);
    store.undo(slot, before);
    if !available {
        store.erase_stable(slot);
    }
}

/// The live version before a write comes back.
fn undo_note<A: Allocator>(store: &mut Store<A>, note: Note<A>)
    ensures keys { KeepsSlots store.old store.new }
    ensures slots { length store.new ≡ length store.old }
    ensures same { SameKeys store.old store.new }
    ensures versions { (q : Bytes) → versions_in store.new q ≡ cond (same q note.key) (undone_key (Some note.before) (versions_in store.old note.key)) (versions_in store.old q) }
{
    match store.find(&note.key) {
        Some(slot) => undo_record(store, slot, note.before),
        None => {}
    }
}

/// All writes of a call are undone, the last one first.
pub(crate) fn undo_all<A: Allocator>(store: &mut Store<A>, notes: &mut Vec<Note<A>, A>)
    ensures keys { KeepsSlots store.old store.new }
    ensures slots { length store.new ≡ length store.old }
    ensures same { SameKeys store.old store.new }
    ensures versions { (q : Bytes) → versions_in store.new q ≡ all_undone (map noted_of notes.old.items) (versions_in store.old) q }
{
    while let Some(note) = notes.pop() {
        undo_note(store, note);
    }
}

fn keep_record<A: Allocator>(store: &mut Store<A>, slot: usize, start: Phase, phase: Phase)
    ensures { store.new ≡ changed (edited (kept start phase)) store.old slot }
{
    match (start, phase) {
        (Phase::Prepare, Phase::Prepare) => store.erase_stable(slot),
        (Phase::Prepare, Phase::Resolve) => store.set_available(slot, true),
        _ => {}
    }
}

/// A key's write is kept: the status of its record, by the phase in which the call started and that of
/// now.
fn keep_key<A: Allocator>(store: &mut Store<A>, key: &Key, start: Phase, phase: Phase)
    ensures keys { KeepsSlots store.old store.new }
    ensures slots { length store.new ≡ length store.old }
    ensures same { SameKeys store.old store.new }
    ensures versions { (q : Bytes) → versions_in store.new q ≡ cond (same q key.now) (kept_key start phase (Some None) (versions_in store.old key.now)) (versions_in store.old q) }
{
    match store.find(key) {
        Some(slot) => keep_record(store, slot, start, phase),
        None => {}
    }
}

/// The writes of a call are kept.
pub(crate) fn keep_all<A: Allocator>(
    store: &mut Store<A>,
    notes: &[Note<A>],
    start: Phase,
    phase: Phase,
)
    ensures keys { KeepsSlots store.old store.new }
    ensures slots { length store.new ≡ length store.old }
    ensures same { SameKeys store.old store.new }
    ensures versions { (q : Bytes) → versions_in store.new q ≡ all_kept start phase (map noted_of notes.now) (versions_in store.old) q }
{
    match start {
        Phase::Prepare => {}
        // Only the records of a call that began in prepare change at its commit.
        _ => return,
    }
    for note in notes {
        keep_key(store, &note.key, start, phase);
    }
}

/// The written keys of a call are collected.
pub(crate) fn collect<A: Allocator>(changed_keys: &mut Changed<A>, notes: &[Note<A>])
    requires { length notes.now ≤ room changed_keys.old }
    ensures collecting { (q : Bytes) → has changed_keys.new.collecting q ≡ (is_some (first_noted (map noted_of notes.now) q) || has changed_keys.old.collecting q) }
    ensures frozen { changed_keys.new.frozen ≡ changed_keys.old.frozen }
    ensures places { changed_keys.new.places ≡ changed_keys.old.places }
{
    for note in notes {
        changed_keys.join(note.key);
    }
}
