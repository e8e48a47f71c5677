//! How a call begins.

ghost use Rattle.std.specs.Prelude.{◌≡◌, ◌<◌, ◌≤◌, ◌↔◌, [], IfOk, OnOk, OnErr, IsSome, IsTrue, None, Some, Ok, slice_get, true};
ghost use Rattle.std.specs.Result.{result_err};
ghost use Rattle.procedure.specs.Runs.{at_start};
ghost use Rattle.procedure.specs.declared.limits.TheConstants.{SESSIONS};
ghost use Rattle.commitlog.specs.Histories.{code_of, last_number, phase_of};
ghost use Rattle.steps.specs.inside.CoreFields.{underway};
ghost use Rattle.steps.specs.CoreViews.{open_at, with_call};
ghost use Rattle.steps.specs.Refusals.{Answers, all_fit, begin_refusal};
ghost use Rattle.steps.specs.declared.errors.BeginError.TheVariants as refused;

use crate::arguments::Arguments;
use crate::calls::OpenCall;
use crate::cores::Core;
use crate::errors::BeginError;
use crate::notes::{Room, put_back, room_for};
use phase::Phase;
use procedure::limits::SESSIONS;
use procedure::{Machine, NoMemory, Procedure};
use std::alloc::Allocator;

/// A call at its start, in the room that an earlier call left, if one did.
fn new_call<A: Allocator + Clone>(
    alloc: &A,
    procedure: &Procedure<A>,
    number: u64,
    index: u16,
    start: Phase,
    args: Arguments<A>,
    left: &mut Option<Room<A>>,
) -> Result<OpenCall<A>, NoMemory>
    requires { IsTrue (all_fit args) }
    ensures call { IfOk result (λ c. underway c ≡ record { number = number; procedure = index; args = args; start = start; count = 0 }) }
    ensures progress { IfOk result (λ c. c.machine.progress ≡ at_start procedure.now.code) }
    ensures notes { IfOk result (λ c. c.notes.items ≡ []) }
{
    let values = args.into_values(alloc.clone()?)?;
    let Room { notes, registers } = room_for(alloc, left)?;
    let machine = Machine::start_with(alloc.clone()?, registers, procedure, values)?;
    Ok(OpenCall {
        number,
        procedure: index,
        start,
        executed: 0,
        machine,
        notes,
    })
}

impl<A: Allocator> Core<A> {
    /// The number of a session's last call in the log.
    fn last_number(&self, session: usize) -> Option<u64>
        requires { session < SESSIONS }
        ensures { result ≡ last_number session self.now.log }
    {
        self.last[session]
    }
}

impl<A: Allocator + Clone> Core<A> {
    /// The procedure, where the call may begin.
    fn check_begin(
        &self,
        session: u16,
        number: u64,
        procedure: u16,
        args: &Arguments<A>,
    ) -> Result<&Procedure<A>, BeginError>
        ensures refusal { result_err result ≡ begin_refusal self.now session number procedure args.now }
        ensures procedure { IfOk result (λ p. slice_get self.now.catalog procedure ≡ Some p.now) }
    {
        if session >= SESSIONS {
            return Err(BeginError::NoSession);
        }
        let index = usize::from(session);
        let Some(found) = self.catalog.procedure(usize::from(procedure)) else {
            return Err(BeginError::NoProcedure);
        };
        if usize::from(found.arity) != args.count() {
            return Err(BeginError::Arity);
        }
        if !args.fit() {
            return Err(BeginError::ArgSize);
        }
        if self.calls[index].is_some() {
            return Err(BeginError::SessionBusy);
        }
        match self.last_number(index) {
            Some(last) if number <= last => Err(BeginError::OldNumber),
            _ => Ok(found),
        }
    }

    /// The call at its start, where it may begin.
    fn prepare(
        &self,
        session: u16,
        number: u64,
        procedure: u16,
        args: Arguments<A>,
        left: &mut Option<Room<A>>,
    ) -> Result<OpenCall<A>, BeginError>
        ensures refusal { Answers (begin_refusal self.now session number procedure args) refused.NoMemory result }
        ensures call { IfOk result (λ c. underway c ≡ record { number = number; procedure = procedure; args = args; start = phase_of self.now.log; count = 0 }) }
        ensures progress { IfOk result (λ c. c.machine.progress ≡ at_start (code_of self.now.catalog procedure)) }
        ensures notes { IfOk result (λ c. c.notes.items ≡ []) }
    {
        let start = self.phase();
        let code = self.check_begin(session, number, procedure, &args)?;
        match new_call(&self.alloc, code, number, procedure, start, args, left) {
            Ok(call) => Ok(call),
            Err(NoMemory) => Err(BeginError::NoMemory),
        }
    }

    /// A session begins a call of a procedure, by its index in the catalog. It touches no key yet.
    pub fn begin(
        &mut self,
        session: u16,
        number: u64,
        procedure: u16,
        args: Arguments<A>,
    ) -> Result<(), BeginError>
        ensures begun { OnOk result (self.new ≡ with_call self.old session (Some (record { number = number; procedure = procedure; args = args; start = phase_of self.old.log; count = 0 }))) }
        ensures open { OnOk result (open_at self.new session ≡ Some (record { number = number; procedure = procedure; args = args; start = phase_of self.old.log; count = 0 })) }
        ensures refused { OnErr result (self.new ≡ self.old) }
        ensures refusal { Answers (begin_refusal self.old session number procedure args) refused.NoMemory result }
    {
        let mut left = self.rooms.pop();
        let prepared = self.prepare(session, number, procedure, args, &mut left);
        put_back(&mut self.rooms, left);
        let call = prepared?;
        let index = usize::from(session);
        self.active.set(index, self.phase);
        self.calls[index] = Some(call);
        Ok(())
    }
}
