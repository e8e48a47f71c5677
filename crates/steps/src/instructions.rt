//! How a call executes an instruction.

ghost use Rattle.std.specs.Prelude.{◌≡◌, ◌<◌, ℕ, cond, Err, IfOk, IfSome, IsSome, OnErr, OnOk, None, Some, option_copied, map, suc};
ghost use Rattle.procedure.specs.Bytes.{Bytes, same};
ghost use Rattle.procedure.specs.Needs.{CopiesValue, accessed, becomes_of};
ghost use Rattle.procedure.specs.Runs.{advanced, next_need};
ghost use Rattle.procedure.specs.declared.needs.Access.TheVariants as access;
ghost use Rattle.procedure.specs.declared.limits.TheConstants.{INSTRUCTIONS};
ghost use Rattle.steps.specs.inside.Instructions.{Advances, ExecutesOne, SameOpen, Wrote, fed_with, seen_in, touch_by, touch_in};
ghost use Rattle.steps.specs.Versions.{live_version, versions_in, wrote};
ghost use Rattle.steps.specs.machine.Machine.{note};
ghost use Rattle.steps.specs.inside.RecordEdits.{IsFound, IsFoundBy, first_noted, noted_of};

use crate::calls::OpenCall;
use crate::edits::{held, write_key};
use crate::notes::Note;
use phase::Phase;
use procedure::{Access, Key, Machine, NoMemory, Value};
use record_store::{CreateError, Store};
use std::alloc::Allocator;

/// Tells a machine what the key of its write holds. It takes no memory.
#[inline(always)]
fn feed<A: Allocator + Clone>(machine: &mut Machine<A>, found: Option<&Value<A>>)
    requires { CopiesValue (next_need machine.old.args machine.old.progress) → ⊥ }
    ensures { machine.new ≡ record machine.old { progress = advanced machine.old.args machine.old.progress (option_copied found.entry) } }
{
    match machine.fed(found) {
        Ok(()) => {}
        Err(_) => unreachable!(),
    }
}

/// The live version of a key, whose record is in `slot` if it has one, becomes this, and what it replaced
/// is noted. All memory is taken first.
fn write_live<A: Allocator + Clone>(
    store: &mut Store<A>,
    call: &mut OpenCall<A>,
    key: Key,
    slot: Option<usize>,
    phase: Phase,
    live: Option<Value<A>>,
) -> Result<(), CreateError>
    requires found { IsFound store.old key slot }
    requires changes { IsSome (becomes_of (next_need call.old.machine.args call.old.machine.progress) (live_version (versions_in store.old key))) }
    ensures ok { OnOk result (Wrote phase key live store.old call.old store.new call.new) }
    ensures err { OnErr result ((store.new ≡ store.old) × SameOpen call.old call.new) }
{
    match call.notes.reserve(1) {
        Ok(()) => {}
        Err(_) => return Err(CreateError::NoMemory),
    }
    match write_key(store, key, slot, phase, call.start, live) {
        Ok(before) => {
            call.machine.wrote();
            call.notes.push_reserved(Note { key, before });
            Ok(())
        }
        Err(refused) => Err(refused),
    }
}

/// Carries out an instruction that writes a key, whose record is in `slot` if it has one. It may find the
/// key as it must not, and then ends the call and changes nothing.
fn write<A: Allocator + Clone>(
    store: &mut Store<A>,
    call: &mut OpenCall<A>,
    key: Key,
    slot: Option<usize>,
    phase: Phase,
) -> Result<(), CreateError>
    requires found { IsFound store.old key slot }
    requires access { accessed (next_need call.old.machine.args call.old.machine.progress) ≡ access.Writes key }
    ensures ok { OnOk result (ExecutesOne phase store.old call.old store.new call.new) }
    ensures executed { call.new.executed ≡ call.old.executed }
    ensures err { OnErr result ((store.new ≡ store.old) × SameOpen call.old call.new) }
{
    match call.machine.becomes(held(store, slot)) {
        Ok(Some(live)) => write_live(store, call, key, slot, phase, live),
        Ok(None) => {
            feed(&mut call.machine, held(store, slot));
            Ok(())
        }
        Err(NoMemory) => Err(CreateError::NoMemory),
    }
}

/// Carries out an instruction that writes no key. Where it touches one that has a record, that is in
/// `slot`.
fn read<A: Allocator + Clone>(
    store: &Store<A>,
    machine: &mut Machine<A>,
    slot: Option<usize>,
) -> Result<(), NoMemory>
    requires { IsFoundBy store.now (touch_in machine.old) slot }
    ensures ok { OnOk result (machine.new ≡ fed_with (seen_in store.now machine.old) machine.old) }
    ensures err { OnErr result (machine.new ≡ machine.old) }
{
    machine.fed(held(store, slot))
}

/// Executes the next instruction of a call, whose lock is held. Where it touches a key that has a record,
/// that is in `slot`.
pub(crate) fn run<A: Allocator + Clone>(
    store: &mut Store<A>,
    call: &mut OpenCall<A>,
    access: &Access,
    slot: Option<usize>,
    phase: Phase,
) -> Result<(), CreateError>
    requires found { IsFoundBy store.old (touch_by access.now) slot }
    requires access { access.now ≡ accessed (next_need call.old.machine.args call.old.machine.progress) }
    requires few { call.old.executed < INSTRUCTIONS }
    ensures ok { OnOk result (Advances phase store.old call.old store.new call.new) }
    ensures err { OnErr result ((store.new ≡ store.old) × SameOpen call.old call.new) }
{
    match access {
        Access::Writes(key) => write(store, call, *key, slot, phase)?,
        _ => match read(store, &mut call.machine, slot) {
            Ok(()) => {}
            Err(NoMemory) => return Err(CreateError::NoMemory),
        },
    }
    call.executed += 1;
    Ok(())
}
