//! How a call is answered.

ghost use Rattle.std.specs.Prelude.{◌≡◌, ◌≤◌, ◌≢◌, ◌==◌, ◌↔◌, ◌||◌, ◌++◌, ◌∷◌, [], ℕ, ◌+◌, IfOk, IsOk, OnErr, OnOk, None, Some, option_copied, if◌then◌else◌, is_some, length, map, max, slice_index_or, slice_set, vec_len};
ghost use Rattle.std.specs.Result.{result_err};
ghost use Rattle.procedure.specs.Bytes.{Bytes};
ghost use Rattle.procedure.specs.declared.outcomes.TheConstants.{COMMITTED};
ghost use Rattle.commitlog.specs.Records.{Call as Answered, IsInRange, call_of};
ghost use Rattle.commitlog.specs.declared.limits.TheConstants.{LOG_RECORDS};
ghost use Rattle.record_store.specs.ChangedSets.{count, has, room};
ghost use Rattle.record_store.specs.Stores.{records};
ghost use Rattle.record_store.specs.declared.limits.TheConstants as stored;
ghost use Rattle.steps.specs.inside.RecordEdits.{KeepsSlots, all_kept, all_undone, first_noted, noted_of};
ghost use Rattle.steps.specs.Versions.{versions_in};
ghost use Rattle.steps.specs.inside.Endings.{unanswered};
ghost use Rattle.steps.specs.CoreViews.{Finishes, AnswersCall, OfOpen, SameKeys, open_at};
ghost use Rattle.steps.specs.Refusals.{Answers, finish_refusal};
ghost use Rattle.steps.specs.declared.errors.FinishError.TheVariants as refused;

use crate::calls::{OpenCall, call_of, taken};
use crate::cores::Core;
use crate::edits::{collect, copy_of, keep_all, undo_all};
use crate::errors::FinishError;
use crate::notes::{Note, Room, keep_room};
use commitlog::{Log, Record};
use phase::Phase;
use procedure::outcomes::COMMITTED;
use procedure::{Call, NoMemory, Sequence, Value};
use record_store::{Changed, Store};
use std::alloc::Allocator;

/// Room for one record more in the log, and for `more` further keys among the collected ones.
fn make_room<A: Allocator>(
    changed: &mut Changed<A>,
    log: &mut Log<A>,
    more: usize,
) -> Result<(), NoMemory>
    ensures records { log.new.records ≡ log.old.records }
    ensures collecting { changed.new.collecting ≡ changed.old.collecting }
    ensures frozen { changed.new.frozen ≡ changed.old.frozen }
    ensures log_room { OnOk result (1 ≤ log.new.room) }
    ensures room { OnOk result (more ≤ room changed.new) }
    ensures places { changed.new.places ≤ max changed.old.places (count changed.old.collecting + more) }
    ensures memory { more ≤ room changed.old → 1 ≤ log.old.room → IsOk result }
{
    changed.make_room(more)?;
    log.make_room()
}

/// A call that ended, as a record of the log.
fn record_of<A: Allocator>(
    call: Call<A>,
    outcome: u8,
    replies: Sequence<Option<Value<A>>, A>,
) -> Record<A>
    requires { IsInRange (call_of call outcome replies) }
    ensures { result ≡ call_of call outcome replies }
{
    match Record::call(call, outcome, replies) {
        Some(record) => record,
        None => unreachable!(),
    }
}

/// A record goes into the log, which has room for it.
fn append<A: Allocator>(log: &mut Log<A>, added: Record<A>)
    requires not_full { length log.old.records ≢ LOG_RECORDS }
    requires room { 1 ≤ log.old.room }
    ensures { log.new.records ≡ log.old.records ++ added ∷ [] }
{
    match log.push(added) {
        Ok(()) => {}
        Err(_) => unreachable!(),
    }
}

/// What becomes of a call's writes: they are kept and their keys collected where it commits, and else
/// undone.
fn settle<A: Allocator>(
    store: &mut Store<A>,
    changed: &mut Changed<A>,
    notes: &mut Vec<Note<A>, A>,
    outcome: u8,
    start: Phase,
    phase: Phase,
)
    requires { length notes.old.items ≤ room changed.old }
    ensures versions { (q : Bytes) → versions_in store.new q ≡ (if outcome == COMMITTED then all_kept start phase (map noted_of notes.old.items) (versions_in store.old) q else all_undone (map noted_of notes.old.items) (versions_in store.old) q) }
    ensures collecting { (q : Bytes) → has changed.new.collecting q ≡ (if outcome == COMMITTED then (is_some (first_noted (map noted_of notes.old.items) q) || has changed.old.collecting q) else has changed.old.collecting q) }
    ensures frozen { changed.new.frozen ≡ changed.old.frozen }
    ensures keys { KeepsSlots store.old store.new }
    ensures slots { length store.new ≡ length store.old }
    ensures same { SameKeys store.old store.new }
    ensures most { records store.new ≤ stored.STORE_RECORDS }
{
    if outcome == COMMITTED {
        keep_all(store, notes.as_slice(), start, phase);
        collect(changed, notes.as_slice());
        // Brings in that the store has at most 100,000 records, and so the table as many keys.
        let _records = store.len();
    } else {
        undo_all(store, notes);
        let _records = store.len();
    }
}

/// A call that ended goes into the log, and its writes are settled. Its room is given back.
fn end_call<A: Allocator>(
    store: &mut Store<A>,
    changed: &mut Changed<A>,
    log: &mut Log<A>,
    session: u16,
    call: OpenCall<A>,
    outcome: u8,
    phase: Phase,
) -> Room<A>
    requires range { IsInRange (Answered session call.number call.procedure call.machine.args outcome call.machine.progress.replies) }
    requires notes { length call.notes.items ≤ room changed.old }
    requires not_full { length log.old.records ≢ LOG_RECORDS }
    requires room { 1 ≤ log.old.room }
    ensures log { log.new.records ≡ log.old.records ++ Answered session call.number call.procedure call.machine.args outcome call.machine.progress.replies ∷ [] }
    ensures versions { (q : Bytes) → versions_in store.new q ≡ (if outcome == COMMITTED then all_kept call.start phase (map noted_of call.notes.items) (versions_in store.old) q else all_undone (map noted_of call.notes.items) (versions_in store.old) q) }
    ensures collecting { (q : Bytes) → has changed.new.collecting q ≡ (if outcome == COMMITTED then (is_some (first_noted (map noted_of call.notes.items) q) || has changed.old.collecting q) else has changed.old.collecting q) }
    ensures frozen { changed.new.frozen ≡ changed.old.frozen }
    ensures keys { KeepsSlots store.old store.new }
    ensures slots { length store.new ≡ length store.old }
    ensures same { SameKeys store.old store.new }
    ensures most { records store.new ≤ stored.STORE_RECORDS }
{
    let OpenCall {
        number,
        procedure,
        start,
        executed: _,
        machine,
        mut notes,
    } = call;
    let (args, replies, registers) = machine.into_parts();
    let ended = Call {
        session,
        number,
        procedure,
        args,
    };
    settle(store, changed, &mut notes, outcome, start, phase);
    append(log, record_of(ended, outcome, replies));
    Room { notes, registers }
}

fn copy_of_replies<A: Allocator + Clone>(
    alloc: &A,
    replies: &[Option<Value<A>>],
) -> Result<Vec<Option<Value<A>>, A>, NoMemory>
    ensures { IfOk result (λ copy. copy.items ≡ replies.now) }
{
    let mut copy = Vec::with_capacity(alloc.clone()?, replies.len())?;
    for reply in replies {
        copy.push_reserved(copy_of(reply.as_ref())?);
    }
    Ok(copy)
}

/// How an open call ended, where it may be answered: a full log takes no record.
fn outcome_of<A: Allocator>(call: &OpenCall<A>, full: bool) -> Result<u8, FinishError>
    ensures refusal { result_err result ≡ unanswered call.now.machine.progress full }
    ensures outcome { IfOk result (λ o. o ≡ call.now.machine.progress.outcome) }
{
    let Some(outcome) = call.machine.ended() else {
        return Err(FinishError::NotReady);
    };
    if full {
        return Err(FinishError::LogFull);
    }
    Ok(outcome)
}

/// What a finished call is answered.
#[derive(Debug, Drop)]
pub struct Answer<A: Allocator> {
    /// The place of its record in the log.
    pub place: usize,
    pub outcome: u8,
    pub replies: Sequence<Option<Value<A>>, A>,
}

impl<A: Allocator + Clone> Core<A> {
    /// What a session's call is to be answered, with a copy of its replies.
    fn answer_to(&self, session: u16) -> Result<Answer<A>, FinishError>
        ensures answer { IfOk result (λ a. OfOpen self.now session (λ c. AnswersCall self.now c a.place a.outcome a.replies)) }
        ensures refusal { Answers (finish_refusal self.now session) refused.NoMemory result }
    {
        let Some(call) = call_of(self.calls.as_slice(), usize::from(session)) else {
            return Err(FinishError::NotActive);
        };
        let outcome = outcome_of(call, self.log.is_full())?;
        match copy_of_replies(&self.alloc, call.machine.replies()) {
            Ok(replies) => Ok(Answer {
                place: self.log.len(),
                outcome,
                replies: Sequence::new(replies),
            }),
            Err(NoMemory) => Err(FinishError::NoMemory),
        }
    }

    /// A session's call is answered: it stands in the log from then on, with its outcome and replies.
    /// Where it commits its writes are kept, and else they are undone; its locks go. With a refusal the
    /// call is as before, and may be finished later.
    pub fn finish(&mut self, session: u16) -> Result<Answer<A>, FinishError>
        ensures finished { OnOk result (OfOpen self.old session (Finishes self.old self.new session)) }
        ensures answer { IfOk result (λ a. OfOpen self.old session (λ c. AnswersCall self.old c a.place a.outcome a.replies)) }
        ensures refused { OnErr result (self.new ≡ self.old) }
        ensures refusal { Answers (finish_refusal self.old session) refused.NoMemory result }
    {
        let answer = self.answer_to(session)?;
        self.finish_in_log(session)?;
        Ok(answer)
    }
}

impl<A: Allocator> Core<A> {
    /// As `finish`, where the log alone is to have the answer: its place there is returned, and no reply
    /// is copied. `records` has the outcome and the replies at that place.
    pub fn finish_in_log(&mut self, session: u16) -> Result<usize, FinishError>
        ensures finished { OnOk result (OfOpen self.old session (Finishes self.old self.new session)) }
        ensures place { IfOk result (λ place. place ≡ length self.old.log) }
        ensures refused { OnErr result (self.new ≡ self.old) }
        ensures refusal { Answers (finish_refusal self.old session) refused.NoMemory result }
    {
        let index = usize::from(session);
        let Some(call) = call_of(self.calls.as_slice(), index) else {
            return Err(FinishError::NotActive);
        };
        let outcome = outcome_of(call, self.log.is_full())?;
        let writes = call.notes.len();
        let phase = self.phase;
        match make_room(&mut self.changed, &mut self.log, writes) {
            Ok(()) => {}
            Err(NoMemory) => return Err(FinishError::NoMemory),
        }
        let place = self.log.len();
        match taken(&mut self.calls, index) {
            Some(call) => {
                let number = call.number;
                let room = end_call(
                    &mut self.store,
                    &mut self.changed,
                    &mut self.log,
                    session,
                    call,
                    outcome,
                    phase,
                );
                keep_room(&mut self.rooms, room);
                self.locks.release_all(index);
                self.aside = self.aside.after_release();
                self.active.clear(index);
                self.last[index] = Some(number);
                Ok(place)
            }
            None => Err(FinishError::NotActive),
        }
    }
}
