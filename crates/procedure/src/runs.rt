//! A procedure run whole, alone on a table.
//!
//! This is the plain program that tells what a call does: recovery runs on it, and the engine, which
//! executes the instructions of many calls between one another, is measured by it.

ghost use Rattle.std.specs.Prelude.{◌≡◌, ◌==◌, ◌↔◌, ◌++◌, if◌then◌else◌, [], Contains, IfOk, List, IsTrue, OnOk, map, option_copied, option_map};
ghost use Rattle.procedure.specs.Bytes.{Bytes, Cell};
ghost use Rattle.procedure.specs.Carried.{IsCarried, IsCarriedOut, advanced_on, change_on, changed, replaced};
ghost use Rattle.procedure.specs.Copies.{held_in_copy, run};
ghost use Rattle.procedure.specs.Fronts.{IsEnd, IsFront};
ghost use Rattle.procedure.specs.Needs.{change_of, touch_of, updated};
ghost use Rattle.procedure.specs.declared.needs.Need.TheVariants.{Write};
ghost use Rattle.procedure.specs.Procedures.{Instruction};
ghost use Rattle.procedure.specs.Runs.{advanced, advanced_alone, changes_alone, committed, ended, seen_at, whole};
ghost use Rattle.procedure.specs.Table.{Table, change_at, changed_or, no_changes, value_at, with_cell, with_cells, with_change_of};

use crate::instructions::Procedure;
use crate::keys::Key;
use crate::machines::Machine;
use crate::memory::NoMemory;
use crate::needs::{Need, Update};
use crate::outcomes::COMMITTED;
use crate::sequences::Sequence;
use crate::tables::{Changes, Table};
use crate::values::Value;
use std::alloc::Allocator;

/// What a run leaves beside a table that it only reads.
#[derive(Debug, Drop)]
pub struct Alone<A: Allocator> {
    pub outcome: u8,
    pub replies: Sequence<Option<Value<A>>, A>,
    /// What the written keys become; none where the call doesn't commit.
    pub changes: Changes<A>,
}

/// What a run leaves of a table.
#[derive(Debug, Drop)]
pub struct Finished<A: Allocator> {
    pub outcome: u8,
    pub replies: Sequence<Option<Value<A>>, A>,
    pub table: Table<A>,
    /// The written keys in the order of the writes, each with what it held before; none where the call
    /// doesn't commit.
    pub written: Sequence<(Key, Option<Value<A>>), A>,
}

/// What a key holds for a call that has made these changes.
fn seen<'a, A: Allocator>(
    changes: &'a Changes<A>,
    table: &'a Table<A>,
    key: &Key,
) -> Option<&'a Value<A>>
    ensures { option_copied result ≡ changed_or (change_at changes.now key.now) (value_at table.now key.now) }
{
    match changes.get(key) {
        Some(cell) => cell.as_ref(),
        None => table.get(key),
    }
}

/// What the key of a need holds for a call that has made these changes.
fn found_alone<'a, A: Allocator>(
    need: &Need<Value<A>>,
    changes: &'a Changes<A>,
    table: &'a Table<A>,
) -> Option<&'a Value<A>>
    ensures { option_copied result ≡ seen_at changes.now table.now (touch_of need.now) }
{
    match need {
        Need::Read(key) | Need::Write(key, _) => seen(changes, table, key),
        Need::Own | Need::Ended(_) => None,
    }
}

/// Executes the instruction of this need, and returns the change that it makes.
fn fed_alone<A: Allocator + Clone>(
    machine: &mut Machine<A>,
    changes: &Changes<A>,
    table: &Table<A>,
    need: Need<Value<A>>,
) -> Result<Option<(Key, Option<Value<A>>)>, NoMemory>
    ensures machine { OnOk result (machine.new ≡ record machine.old {
      progress = advanced machine.old.args machine.old.progress (seen_at changes.now table.now (touch_of need));
    }) }
    ensures change { IfOk result (λ change. change ≡ change_of need (seen_at changes.now table.now (touch_of need))) }
{
    let found = found_alone(&need, changes, table);
    let change = match need {
        Need::Write(key, update) => match update.becomes(found) {
            Some(cell) => Some((key, cell)),
            None => None,
        },
        Need::Read(_) | Need::Own | Need::Ended(_) => None,
    };
    machine.fed(found)?;
    Ok(change)
}

fn note<A: Allocator + Clone>(
    changes: &mut Changes<A>,
    change: Option<(Key, Option<Value<A>>)>,
) -> Result<(), NoMemory>
    ensures { OnOk result (changes.new ≡ with_change_of changes.old change) }
{
    if let Some((key, cell)) = change {
        changes.insert(key, cell)?;
    }
    Ok(())
}

/// Executes one instruction, or returns the outcome of a call that has ended.
#[tactic(auto, unfolding(crate::specs::Runs::advanced_alone, crate::specs::Runs::changes_alone))]
fn step_alone<A: Allocator + Clone>(
    machine: &mut Machine<A>,
    changes: &mut Changes<A>,
    table: &Table<A>,
) -> Result<Option<u8>, NoMemory>
    ensures outcome { IfOk result (λ o. o ≡ ended machine.old.progress) }
    ensures args { OnOk result (machine.new.args ≡ machine.old.args) }
    ensures progress { OnOk result (machine.new.progress ≡ advanced_alone machine.old.args table.now machine.old.progress changes.old) }
    ensures changes { OnOk result (changes.new ≡ changes_alone machine.old.args table.now machine.old.progress changes.old) }
{
    let need = machine.next()?;
    if let Need::Ended(outcome) = need {
        return Ok(Some(outcome));
    }
    let change = fed_alone(machine, changes, table, need)?;
    note(changes, change)?;
    Ok(None)
}

/// Executes a machine to its end, and returns the outcome.
fn run_machine<A: Allocator + Clone>(
    machine: &mut Machine<A>,
    changes: &mut Changes<A>,
    table: &Table<A>,
) -> Result<u8, NoMemory>
    ensures { IfOk result (λ o. (code : List Instruction) → IsFront code machine.old.args table.now machine.old changes.old →
        IsEnd code machine.old.args table.now machine.new changes.new o) }
{
    loop {
        if let Some(outcome) = step_alone(machine, changes, table)? {
            return Ok(outcome);
        }
    }
}

/// What a call that ended leaves changed.
#[tactic(auto, unfolding(crate::specs::Table::no_changes))]
fn kept<A: Allocator + Copy>(alloc: A, outcome: u8, changes: Changes<A>) -> Changes<A>
    ensures { result ≡ (if outcome == COMMITTED then changes else no_changes) }
{
    if outcome == COMMITTED {
        changes
    } else {
        Changes::new(alloc)
    }
}

/// Runs a procedure whole on a table that it only reads. A call that doesn't commit changes nothing.
pub fn run_alone<A: Allocator + Copy>(
    alloc: A,
    procedure: &Procedure<A>,
    args: Sequence<Value<A>, A>,
    table: &Table<A>,
) -> Result<Alone<A>, NoMemory>
    ensures outcome { IfOk result (λ r. r.outcome ≡ (whole procedure.now.code args table.now).outcome) }
    ensures replies { IfOk result (λ r. r.replies ≡ (whole procedure.now.code args table.now).replies) }
    ensures changes { IfOk result (λ r. r.changes ≡ committed (whole procedure.now.code args table.now)) }
{
    let mut machine = Machine::start(alloc.clone()?, procedure, args)?;
    let mut changes = Changes::new(alloc.clone()?);
    let outcome = run_machine(&mut machine, &mut changes, table)?;
    let (_, replies, _) = machine.into_parts();
    Ok(Alone {
        outcome,
        replies,
        changes: kept(alloc, outcome, changes),
    })
}

/// What a key of the table holds from now on. What it held goes back to the caller.
fn replace<A: Allocator>(
    table: &mut Table<A>,
    key: Key,
    cell: Option<Value<A>>,
) -> Result<Option<Value<A>>, NoMemory>
    ensures held { IfOk result (λ held. held ≡ value_at table.old key) }
    ensures table { OnOk result (table.new ≡ with_cell table.old key cell) }
{
    match cell {
        Some(value) => table.insert(key, value),
        None => Ok(table.remove(&key)),
    }
}

/// Updates a key of the table. What it held goes back to the caller, or None where it stays.
#[inline(always)]
fn updated<A: Allocator>(
    table: &mut Table<A>,
    key: Key,
    update: Update<Value<A>>,
) -> Result<Option<Option<Value<A>>>, NoMemory>
    ensures held { IfOk result (λ held. held ≡ option_map (λ _. value_at table.old key) (updated update (value_at table.old key))) }
    ensures table { OnOk result (table.new ≡ changed table.old (change_of (Write key update) (value_at table.old key))) }
{
    match update {
        Update::Put(value) => Ok(Some(table.insert(key, value)?)),
        Update::Insert(_) if table.get(&key).is_some() => Ok(None),
        Update::Insert(value) => Ok(Some(table.insert(key, value)?)),
        Update::Delete => match table.remove(&key) {
            Some(held) => Ok(Some(Some(held))),
            None => Ok(None),
        },
    }
}

/// Executes an instruction that updates a key, and notes what the update replaces.
#[inline(always)]
fn update_on<A: Allocator + Clone>(
    machine: &mut Machine<A>,
    table: &mut Table<A>,
    before: &mut Vec<(Key, Option<Value<A>>), A>,
    key: Key,
    update: Update<Value<A>>,
) -> Result<(), NoMemory>
    ensures machine { OnOk result (machine.new ≡ record machine.old {
      progress = advanced machine.old.args machine.old.progress (value_at table.old key);
    }) }
    ensures table { OnOk result (table.new ≡ changed table.old (change_of (Write key update) (value_at table.old key))) }
    ensures before { OnOk result (before.new.items ≡ before.old.items ++ replaced table.old (change_of (Write key update) (value_at table.old key))) }
{
    before.reserve(1)?;
    match updated(table, key, update)? {
        Some(held) => {
            machine.fed(held.as_ref())?;
            before.push_reserved((key, held));
        }
        None => machine.fed(table.get(&key))?,
    }
    Ok(())
}

/// What the key of a need holds.
fn held<'a, A: Allocator>(need: &Need<Value<A>>, table: &'a Table<A>) -> Option<&'a Value<A>>
    ensures { option_copied result ≡ held_in_copy table.now (touch_of need.now) }
{
    match need {
        Need::Read(key) | Need::Write(key, _) => table.get(key),
        Need::Own | Need::Ended(_) => None,
    }
}

/// Executes the instruction of this need on the table, and notes what it replaces.
#[inline(always)]
fn fed_on<A: Allocator + Clone>(
    machine: &mut Machine<A>,
    table: &mut Table<A>,
    before: &mut Vec<(Key, Option<Value<A>>), A>,
    need: Need<Value<A>>,
) -> Result<(), NoMemory>
    ensures machine { OnOk result (machine.new ≡ record machine.old {
      progress = advanced machine.old.args machine.old.progress (held_in_copy table.old (touch_of need));
    }) }
    ensures table { OnOk result (table.new ≡ changed table.old (change_of need (held_in_copy table.old (touch_of need)))) }
    ensures before { OnOk result (before.new.items ≡ before.old.items ++ replaced table.old (change_of need (held_in_copy table.old (touch_of need)))) }
{
    match need {
        Need::Write(key, update) => update_on(machine, table, before, key, update),
        Need::Read(_) | Need::Own | Need::Ended(_) => machine.fed(held(&need, table)),
    }
}

/// Executes one instruction on the table, or returns the outcome of a call that has ended.
#[inline(always)]
#[tactic(auto, unfolding(crate::specs::Carried::advanced_on, crate::specs::Carried::change_on))]
fn step_on<A: Allocator + Clone>(
    machine: &mut Machine<A>,
    table: &mut Table<A>,
    before: &mut Vec<(Key, Option<Value<A>>), A>,
) -> Result<Option<u8>, NoMemory>
    ensures outcome { IfOk result (λ o. o ≡ ended machine.old.progress) }
    ensures args { OnOk result (machine.new.args ≡ machine.old.args) }
    ensures progress { OnOk result (machine.new.progress ≡ advanced_on machine.old.args table.old machine.old.progress) }
    ensures table { OnOk result (table.new ≡ changed table.old (change_on machine.old.args table.old machine.old.progress)) }
    ensures before { OnOk result (before.new.items ≡ before.old.items ++ replaced table.old (change_on machine.old.args table.old machine.old.progress)) }
{
    let need = machine.next()?;
    if let Need::Ended(outcome) = need {
        return Ok(Some(outcome));
    }
    fed_on(machine, table, before, need)?;
    Ok(None)
}

/// Executes a machine on the table to its end, and returns the outcome.
fn carry_out<A: Allocator + Clone>(
    machine: &mut Machine<A>,
    table: &mut Table<A>,
    before: &mut Vec<(Key, Option<Value<A>>), A>,
) -> Result<u8, NoMemory>
    ensures { IfOk result (λ o. (code : List Instruction) (t : Table) → IsCarried code machine.old.args t machine.old table.old before.old.items →
        IsCarriedOut code machine.old.args t machine.new table.new before.new.items o) }
{
    loop {
        if let Some(outcome) = step_on(machine, table, before)? {
            return Ok(outcome);
        }
    }
}

/// Puts back what a write replaced.
fn put_back<A: Allocator>(
    table: &mut Table<A>,
    was: (Key, Option<Value<A>>),
) -> Result<(), NoMemory>
    ensures { OnOk result (table.new ≡ with_cell table.old was.0 was.1) }
{
    let (key, cell) = was;
    replace(table, key, cell)?;
    Ok(())
}

/// Puts back what writes replaced, from the last to the first.
fn undo<A: Allocator>(
    table: Table<A>,
    before: &mut Vec<(Key, Option<Value<A>>), A>,
) -> Result<Table<A>, NoMemory>
    ensures table { IfOk result (λ t. t ≡ with_cells table before.old.items) }
    ensures before { OnOk result (before.new.items ≡ []) }
{
    let mut table = table;
    while let Some(was) = before.pop() {
        put_back(&mut table, was)?;
    }
    Ok(table)
}

/// The table that a call leaves.
fn settled<A: Allocator>(
    outcome: u8,
    table: Table<A>,
    before: &mut Vec<(Key, Option<Value<A>>), A>,
) -> Result<Table<A>, NoMemory>
    ensures table { IfOk result (λ t. t ≡ (if outcome == COMMITTED then table else with_cells table before.old.items)) }
    ensures before { OnOk result (before.new.items ≡ (if outcome == COMMITTED then before.old.items else [])) }
{
    if outcome == COMMITTED {
        Ok(table)
    } else {
        undo(table, before)
    }
}

/// Runs a procedure whole on a table: what the definition of a run says, carried out. It writes into the
/// table, and puts back what it replaced where the call doesn't commit. It costs the size of the
/// procedure, whatever the table's. With a refusal the table is given up; `run_alone` leaves it.
pub fn run_whole<A: Allocator + Clone>(
    alloc: A,
    procedure: &Procedure<A>,
    args: Sequence<Value<A>, A>,
    table: Table<A>,
) -> Result<Finished<A>, NoMemory>
    ensures outcome { IfOk result (λ f. f.outcome ≡ (run procedure.now.code args table).outcome) }
    ensures replies { IfOk result (λ f. f.replies ≡ (run procedure.now.code args table).replies) }
    ensures table { IfOk result (λ f. f.table ≡ (run procedure.now.code args table).table) }
    ensures written { IfOk result (λ f. (q : Bytes) → Contains (map (λ e. e.0) f.written) q ↔ IsTrue ((run procedure.now.code args table).written q)) }
    ensures before { IfOk result (λ f. with_cells f.table f.written ≡ table) }
{
    let mut machine = Machine::start(alloc.clone()?, procedure, args)?;
    let mut table = table;
    let mut before = Vec::new(alloc);
    let outcome = carry_out(&mut machine, &mut table, &mut before)?;
    let (_, replies, _) = machine.into_parts();
    let table = settled(outcome, table, &mut before)?;
    Ok(Finished {
        outcome,
        replies,
        table,
        written: Sequence::new(before),
    })
}
