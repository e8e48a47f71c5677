//! A record that is run again.

ghost use Rattle.std.specs.Prelude.{◌≡◌, ◌≢◌, ◌≤◌, ◌<◌, ◌↔◌, [], ◌∷◌, Err, IfOk, IsTrue, OnOk, length, slice_get};
ghost use Rattle.std.specs.FinMap as finite;
ghost use Rattle.commitlog.specs.Histories.{Takes};
ghost use Rattle.commitlog.specs.Records.{record_of};
ghost use Rattle.image.specs.declared.limits.TheConstants.{ENTRIES};
ghost use Rattle.replay.specs.Parts.{CallAgain, EntryAgain};
ghost use Rattle.replay.specs.Replays.{calls_in};
ghost use Rattle.replay.specs.declared.calls.CallError.TheVariants as refused;

use commitlog::records::Entry;
use image::limits::ENTRIES;
use procedure::{
    Call, Catalog, Finished, NoMemory, Sequence, Table, Value, are_same_replies, run_whole,
};
use std::alloc::Allocator;

/// Why a call isn't run again.
pub(crate) enum CallError {
    /// It isn't one of the catalog, or gives something else.
    Diverged,
    /// It leaves over 100,000 keys.
    TooMany,
    NoMemory,
}

impl From<NoMemory> for CallError {
    ghost use Rattle.replay.specs.declared.calls.CallError.TheVariants as refused;

    ghost from_gives = { λ _ e. e ≡ refused.NoMemory };

    fn from(_refused: NoMemory) -> Self {
        CallError::NoMemory
    }
}

/// What a run leaves of its table, where it gave this outcome and these replies. It takes no memory.
fn judged<A: Allocator>(
    done: Finished<A>,
    outcome: u8,
    replies: &[Option<Value<A>>],
) -> Result<Table<A>, CallError>
    ensures ok { IfOk result (λ t. t ≡ done.table) }
    ensures few { OnOk result (finite.len done.table ≤ ENTRIES) }
    ensures same { result ≢ Err refused.Diverged → (done.outcome ≡ outcome) × (done.replies ≡ replies.now) }
    ensures diverged { result ≡ Err refused.Diverged → (done.outcome ≡ outcome) → (done.replies ≡ replies.now) → ⊥ }
    ensures too_many { result ≡ Err refused.TooMany → ENTRIES < finite.len done.table }
    ensures memory { result ≢ Err refused.NoMemory }
{
    if done.outcome != outcome || !are_same_replies(done.replies.as_slice(), replies) {
        return Err(CallError::Diverged);
    }
    if done.table.len() > ENTRIES {
        return Err(CallError::TooMany);
    }
    Ok(done.table)
}

/// Runs a call again on a table, which a refusal gives up.
fn run_call<A: Allocator + Clone>(
    alloc: A,
    catalog: &Catalog<A>,
    call: Call<A>,
    outcome: u8,
    replies: &[Option<Value<A>>],
    table: Table<A>,
) -> Result<Table<A>, CallError>
    ensures again { CallAgain catalog.now table call.procedure call.args outcome replies.now result }
    // A call of no procedure, or with another number of arguments, diverges without memory.
    ensures foreign { (Takes (slice_get catalog.now call.procedure) (length call.args) → ⊥) → result ≡ Err refused.Diverged }
{
    match catalog.procedure(usize::from(call.procedure)) {
        Some(procedure) if usize::from(procedure.arity) == call.args.len() => {
            let done = run_whole(alloc, procedure, call.args, table)?;
            judged(done, outcome, replies)
        }
        _ => Err(CallError::Diverged),
    }
}

/// Runs a record again on a table, which a refusal gives up. A token changes nothing.
pub(crate) fn run_entry<A: Allocator + Clone>(
    alloc: A,
    catalog: &Catalog<A>,
    entry: Entry<A>,
    table: Table<A>,
) -> Result<Table<A>, CallError>
    ensures { EntryAgain catalog.now table (record_of entry) result }
{
    match entry {
        Entry::Token { .. } => Ok(table),
        Entry::Call {
            call,
            outcome,
            replies,
        } => run_call(alloc, catalog, call, outcome, replies.as_slice(), table),
    }
}

/// How many calls the record is.
pub(crate) fn calls_of<A: Allocator>(entry: &Entry<A>) -> usize
    ensures { result ≡ calls_in (record_of entry.now ∷ []) }
{
    match entry {
        Entry::Token { .. } => 0,
        Entry::Call { .. } => 1,
    }
}
