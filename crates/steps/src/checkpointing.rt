//! How a checkpoint goes through its phases.

ghost use Rattle.std.specs.Prelude.{◌≡◌, ◌≢◌, ◌≤◌, ◌++◌, ◌∷◌, [], IfErr, IfOk, IfSome, IsOk, None, OnErr, OnOk, Some, length, map, suc};
ghost use Rattle.std.specs.Option.{option_map};
ghost use Rattle.phase.specs.Phases.{successor};
ghost use Rattle.phase.specs.declared.phases.Phase.TheVariants.{Prepare, Resolve, Capture, Complete, Rest};
ghost use Rattle.commitlog.specs.Histories.{number_of, phase_of};
ghost use Rattle.commitlog.specs.Records.{Token};
ghost use Rattle.commitlog.specs.declared.limits.TheConstants.{LOG_RECORDS};
ghost use Rattle.image.specs.Headers.{FitsHeader, assembled};
ghost use Rattle.image.specs.Merges.{table_of};
ghost use Rattle.record_store.specs.ChangedSets.{empty_set, union};
ghost use Rattle.steps.specs.inside.CoreFields.{restarted_call};
ghost use Rattle.steps.specs.CutImages.{IsTaken};
ghost use Rattle.steps.specs.Checkpointing.{AdvancesTo, abandoned, entered, header_taken, started, taken};
ghost use Rattle.steps.specs.inside.NextPhases.{Enters};
ghost use Rattle.steps.specs.Refusals.{Answers, abandon_refusal, advance_refusal, is_held, is_log_full, is_scanning, start_refusal};
ghost use Rattle.steps.specs.declared.checkpoints.Way.TheVariants.{Streamed, Whole};
ghost use Rattle.steps.specs.declared.errors.AbandonError.TheVariants as abandoning;
ghost use Rattle.steps.specs.declared.errors.AdvanceError.TheVariants as advancing;
ghost use Rattle.steps.specs.declared.errors.StartError.TheVariants as starting;

use crate::calls::OpenCall;
use crate::checkpoints::Way;
use crate::cores::Core;
use crate::errors::{AbandonError, AdvanceError, StartError};
use commitlog::{Log, PushError, Record};
use image::{Header, Image, Kind};
use phase::Phase;
use procedure::NoMemory;
use record_store::Changed;
use std::alloc::Allocator;

/// The log gets a token, where it isn't full.
pub(crate) fn push_token<A: Allocator>(
    log: &mut Log<A>,
    phase: Phase,
    number: u64,
) -> Result<(), NoMemory>
    requires { length log.old.records ≢ LOG_RECORDS }
    ensures ok { OnOk result (log.new.records ≡ log.old.records ++ Token phase number ∷ []) }
    ensures err { OnErr result (log.new.records ≡ log.old.records) }
    ensures memory { 1 ≤ log.old.room → IsOk result }
{
    match log.push(Record::token(phase, number)) {
        Ok(()) => Ok(()),
        Err(_) => Err(NoMemory),
    }
}

/// The frozen keys are collected again, and the log gets the token that says so.
fn make_abandoned<A: Allocator>(
    changed: &mut Changed<A>,
    log: &mut Log<A>,
    number: u64,
) -> Result<(), NoMemory>
    requires { length log.old.records ≢ LOG_RECORDS }
    ensures log { OnOk result (log.new.records ≡ log.old.records ++ Token Rest number ∷ []) }
    ensures collecting { OnOk result (changed.new.collecting ≡ union changed.old.collecting changed.old.frozen) }
    ensures frozen { OnOk result (changed.new.frozen ≡ empty_set) }
    ensures same_log { OnErr result (log.new.records ≡ log.old.records) }
    ensures same_keys { OnErr result (changed.new.collecting ≡ changed.old.collecting) }
    ensures same_frozen { OnErr result (changed.new.frozen ≡ changed.old.frozen) }
{
    changed.make_room(changed.frozen_count())?;
    push_token(log, Phase::Rest, number)?;
    changed.rejoin();
    Ok(())
}

/// An open call counts as begun at rest.
fn restart<A: Allocator>(call: &mut Option<OpenCall<A>>)
    ensures { call.new ≡ option_map restarted_call call.old }
{
    match call {
        Some(call) => call.start = Phase::Rest,
        None => {}
    }
}

/// Every open call counts as begun at rest.
fn restart_all<A: Allocator>(calls: &mut Vec<Option<OpenCall<A>>, A>)
    ensures { calls.new.items ≡ map (option_map restarted_call) calls.old.items }
{
    let sessions = calls.len();
    for session in 0..sessions {
        restart(&mut calls[session]);
    }
}

impl<A: Allocator> Core<A> {
    /// Whether the log has no room for another record.
    fn is_log_full(&self) -> bool
        ensures full { result ≡ is_log_full self.now }
        ensures most { length self.now.log ≤ LOG_RECORDS }
    {
        self.log.is_full()
    }

    /// Whether a checkpoint may begin, out of memory apart.
    fn may_start(&self) -> Result<(), StartError>
        ensures ok { OnOk result (start_refusal self.now ≡ None) }
        ensures few { OnOk result (length self.now.log ≤ LOG_RECORDS) }
        ensures err { IfErr result (λ e. start_refusal self.now ≡ Some e) }
    {
        match self.phase() {
            Phase::Rest if self.checkpoint.is_waiting() => Err(StartError::NotTaken),
            Phase::Rest if self.is_log_full() => Err(StartError::LogFull),
            Phase::Rest => Ok(()),
            _ => Err(StartError::NotAtRest),
        }
    }

    /// A checkpoint begins, whose entries leave in this way.
    fn start_by(&mut self, kind: Kind, way: Way) -> Result<u64, StartError>
        ensures started { OnOk result (self.new ≡ started self.old kind way) }
        ensures number { IfOk result (λ n. n ≡ suc (number_of self.old.log)) }
        ensures refused { OnErr result (self.new ≡ self.old) }
        ensures refusal { Answers (start_refusal self.old) starting.NoMemory result }
    {
        self.may_start()?;
        let number = self.checkpoint.number + 1;
        match push_token(&mut self.log, Phase::Prepare, number) {
            Ok(()) => {}
            Err(NoMemory) => return Err(StartError::NoMemory),
        }
        self.phase = Phase::Prepare;
        self.checkpoint.number = number;
        self.checkpoint.kind = kind;
        self.checkpoint.way = way;
        Ok(number)
    }

    /// A checkpoint begins, and its number is answered: one more than that of the last that began.
    /// Calls that are open go on.
    ///
    /// It is refused in another phase than rest (`NotAtRest`), where the image of the last one or its
    /// header still waits (`NotTaken`), by a log of 1,000,000 records (`LogFull`), and for memory
    /// (`NoMemory`). A refusal changes nothing.
    pub fn start(&mut self, kind: Kind) -> Result<u64, StartError>
        ensures started { OnOk result (self.new ≡ started self.old kind Whole) }
        ensures number { IfOk result (λ n. n ≡ suc (number_of self.old.log)) }
        ensures refused { OnErr result (self.new ≡ self.old) }
        ensures refusal { Answers (start_refusal self.old) starting.NoMemory result }
    {
        self.start_by(kind, Way::Whole)
    }

    /// A checkpoint begins whose entries leave the core one by one, by `capture_to`, so that it holds and
    /// sorts no image. It is refused as `start` is.
    pub fn start_streamed(&mut self, kind: Kind) -> Result<u64, StartError>
        ensures started { OnOk result (self.new ≡ started self.old kind Streamed) }
        ensures number { IfOk result (λ n. n ≡ suc (number_of self.old.log)) }
        ensures refused { OnErr result (self.new ≡ self.old) }
        ensures refusal { Answers (start_refusal self.old) starting.NoMemory result }
    {
        self.start_by(kind, Way::Streamed)
    }

    /// Whether a scan has places left.
    fn is_scanning(&self) -> bool
        ensures { result ≡ is_scanning (phase_of self.now.log) self.now.checkpoint }
    {
        match self.phase() {
            Phase::Capture => self.checkpoint.cursor < self.checkpoint.bound,
            _ => false,
        }
    }

    /// Whether an open call keeps the phase from ending.
    fn is_held(&self) -> bool
        ensures { result ≡ is_held (phase_of self.now.log) self.now.calls }
    {
        self.active.may_leave(self.phase).is_err()
    }

    /// Whether the phase may change, out of memory apart.
    fn may_advance(&self) -> Result<(), AdvanceError>
        ensures ok { OnOk result (advance_refusal self.now ≡ None) }
        ensures err { IfErr result (λ e. advance_refusal self.now ≡ Some e) }
    {
        match self.phase() {
            Phase::Rest => return Err(AdvanceError::AtRest),
            _ => {}
        }
        if self.is_held() {
            return Err(AdvanceError::StillActive);
        }
        if self.is_scanning() {
            return Err(AdvanceError::NotScanned);
        }
        if self.is_log_full() {
            return Err(AdvanceError::LogFull);
        }
        Ok(())
    }

    /// From prepare into resolve: the cut of the checkpoint is made.
    fn resolve(&mut self) -> Result<(), NoMemory>
        requires phase { phase_of self.old.log ≡ Prepare }
        requires free { advance_refusal self.old ≡ None }
        ensures { Enters Resolve self.old self.new result }
    {
        let place = self.log.len() as u64;
        push_token(&mut self.log, Phase::Resolve, self.checkpoint.number)?;
        self.changed.freeze();
        self.checkpoint.place = place;
        self.phase = Phase::Resolve;
        Ok(())
    }

    /// From complete to rest.
    fn rest(&mut self) -> Result<(), NoMemory>
        requires phase { phase_of self.old.log ≡ Complete }
        requires free { advance_refusal self.old ≡ None }
        ensures { Enters Rest self.old self.new result }
    {
        push_token(&mut self.log, Phase::Rest, self.checkpoint.number)?;
        self.store.next_number();
        self.phase = Phase::Rest;
        Ok(())
    }

    /// Whether the checkpoint may be given up, out of memory apart.
    fn may_abandon(&self) -> Result<(), AbandonError>
        ensures ok { OnOk result (abandon_refusal self.now ≡ None) }
        ensures err { IfErr result (λ e. abandon_refusal self.now ≡ Some e) }
    {
        match self.phase() {
            Phase::Resolve | Phase::Capture => {}
            _ => return Err(AbandonError::NotAbandonable),
        }
        match self.checkpoint.way {
            Way::Whole => {}
            Way::Streamed => return Err(AbandonError::WrongWay),
        }
        if self.is_log_full() {
            return Err(AbandonError::LogFull);
        }
        Ok(())
    }

    /// The checkpoint is given up, and its number answered: its keys count as written since the last
    /// finished one, and the open calls as begun at rest.
    ///
    /// It is refused in another phase than resolve and capture (`NotAbandonable`), where it is streamed
    /// (`WrongWay`), by a log of 1,000,000 records (`LogFull`), and for memory (`NoMemory`). A refusal
    /// changes nothing.
    pub fn abandon(&mut self) -> Result<u64, AbandonError>
        ensures abandoned { OnOk result (self.new ≡ abandoned self.old) }
        ensures number { IfOk result (λ n. n ≡ number_of self.old.log) }
        ensures refused { OnErr result (self.new ≡ self.old) }
        ensures refusal { Answers (abandon_refusal self.old) abandoning.NoMemory result }
    {
        self.may_abandon()?;
        let number = self.checkpoint.number;
        match make_abandoned(&mut self.changed, &mut self.log, number) {
            Ok(()) => {}
            Err(NoMemory) => return Err(AbandonError::NoMemory),
        }
        self.store.next_number();
        self.active.restart();
        restart_all(&mut self.calls);
        self.phase = Phase::Rest;
        self.checkpoint.captured.clear();
        self.checkpoint.waiting = None;
        Ok(number)
    }

    /// How many places the scan has visited, of the checkpoint that runs or of the last one that ran.
    pub fn scanned(&self) -> usize
        ensures { result ≡ self.now.checkpoint.cursor }
    {
        self.checkpoint.cursor
    }

    /// The image of the last checkpoint, once, and None where none waits: it is that of its cut.
    pub fn take_image(&mut self) -> Option<Image<A>>
        ensures image { result ≡ self.old.checkpoint.waiting }
        ensures taken { self.new ≡ taken self.old }
        ensures cut { IfSome result (λ i. IsTaken self.old.catalog (table_of self.old.opening) self.old.log i) }
    {
        self.checkpoint.waiting.take()
    }

    /// The header of the last checkpoint, if it was streamed, once, and None where none waits. With the
    /// entries that its scan sent, in their order, it makes the image of the checkpoint's cut.
    pub fn take_header(&mut self) -> Option<Header>
        ensures header { result ≡ self.old.checkpoint.header }
        ensures taken { self.new ≡ header_taken self.old }
        ensures fits { IfSome result (λ h. FitsHeader h self.old.checkpoint.given) }
        ensures cut { IfSome result (λ h. IsTaken self.old.catalog (table_of self.old.opening) self.old.log (assembled h self.old.checkpoint.given)) }
    {
        self.checkpoint.header.take()
    }
}

impl<A: Allocator + Clone> Core<A> {
    /// Enters the phase that follows, which nothing refuses.
    fn enter_next(&mut self) -> Result<(), NoMemory>
        requires { advance_refusal self.old ≡ None }
        ensures { Enters (successor (phase_of self.old.log)) self.old self.new result }
    {
        match self.phase() {
            Phase::Rest => unreachable!(),
            Phase::Prepare => self.resolve(),
            Phase::Resolve => self.begin_scan(),
            Phase::Capture => self.complete(),
            Phase::Complete => self.rest(),
        }
    }

    /// Enters the phase that follows, and returns it: into resolve the checkpoint's cut is made, into
    /// capture its scan begins, into complete its image or its header is finished, and into rest it ends. The log
    /// gets a token that says so.
    ///
    /// It is refused at rest (`AtRest`); in prepare, resolve and complete where an open call started in
    /// another phase (`StillActive`); in capture where the scan has places left (`NotScanned`); by a log of
    /// 1,000,000 records (`LogFull`); and for memory (`NoMemory`). A refusal changes nothing.
    pub fn advance(&mut self) -> Result<Phase, AdvanceError>
        ensures advanced { IfOk result (λ p. AdvancesTo p self.old self.new) }
        ensures phase { IfOk result (λ p. p ≡ successor (phase_of self.old.log)) }
        ensures refused { OnErr result (self.new ≡ self.old) }
        ensures refusal { Answers (advance_refusal self.old) advancing.NoMemory result }
    {
        self.may_advance()?;
        let entered = self.phase().next();
        match self.enter_next() {
            Ok(()) => Ok(entered),
            Err(NoMemory) => Err(AdvanceError::NoMemory),
        }
    }
}
