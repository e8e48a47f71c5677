//! The machine that executes a call one instruction at a time.

ghost use Rattle.std.specs.Prelude.{◌≡◌, IfOk, OnOk, OnErr, IsSome, is_some, option_copied, replicate, slice_set, None};
ghost use Rattle.procedure.specs.Bytes.{Cell};
ghost use Rattle.procedure.specs.Needs.{CopiesValue, HasValue, accessed, becomes_of};
ghost use Rattle.procedure.specs.Runs.{advanced, at_start, ended, next_need};

use crate::actions::{Action, access_of, action_of, becomes, gives_value, need_of};
use crate::instructions::{Code, Procedure};
use crate::memory::NoMemory;
use crate::needs::{Access, Need};
use crate::outcomes::COMMITTED;
use crate::registers::Registers;
use crate::sequences::Sequence;
use crate::values::Value;
use std::alloc::Allocator;
use std::marker::Model;

/// A call in its course, seen by contracts as its arguments and its progress: what is left of the
/// procedure, registers, replies, outcome.
///
/// It sees no table: `next` says which key comes next and `fed` is told what that key holds. So the
/// instructions of several calls may be executed in any order.
#[derive(Drop)]
pub struct Machine<A: Allocator> {
    code: Code<A>,
    args: Sequence<Value<A>, A>,
    place: usize,
    registers: Registers<A>,
    replies: Vec<Option<Value<A>>, A>,
    outcome: u8,
}

impl<A: Allocator> Model for Machine<A> {
    ghost use Rattle.procedure.specs.Runs.{Execution};

    ghost Value = { Execution };

    ghost use Rattle.procedure.specs.Machines.{execution_of, IsRunning};

    ghost view = { execution_of };

    ghost invariant = { IsRunning };
}

impl<A: Allocator + Clone> Machine<A> {
    /// A machine at the start of a call. It shares the procedure's code and makes room for all replies
    /// and registers, so that no step needs any. An argument that the procedure names and that isn't
    /// there is absent.
    #[inline(always)]
    pub fn start(
        alloc: A,
        procedure: &Procedure<A>,
        args: Sequence<Value<A>, A>,
    ) -> Result<Self, NoMemory>
        ensures { IfOk result (λ m. m ≡ record { args = args; progress = at_start procedure.now.code }) }
    {
        let registers = Registers::new(alloc.clone()?)?;
        Machine::start_with(alloc, registers, procedure, args)
    }

    /// As `start`, in the room of the registers of an earlier call, which are cleared.
    #[inline(always)]
    pub fn start_with(
        alloc: A,
        registers: Registers<A>,
        procedure: &Procedure<A>,
        args: Sequence<Value<A>, A>,
    ) -> Result<Self, NoMemory>
        ensures { IfOk result (λ m. m ≡ record { args = args; progress = at_start procedure.now.code }) }
    {
        let mut registers = registers;
        registers.clear();
        let code = procedure.code.clone()?;
        let replies = Vec::with_capacity(alloc, code.read_count())?;
        Ok(Machine {
            code,
            args,
            place: 0,
            registers,
            replies,
            outcome: COMMITTED,
        })
    }

    /// What the next instruction asks for, or how the call ended. Only the copy of a value that is
    /// written takes memory.
    #[inline(always)]
    pub fn next(&self) -> Result<Need<Value<A>>, NoMemory>
        ensures value { IfOk result (λ n. n ≡ next_need self.now.args self.now.progress) }
        ensures memory { OnErr result (HasValue (next_need self.now.args self.now.progress)) }
    {
        match self.code.get(self.place) {
            Some(instruction) => {
                let args = self.args.as_slice();
                let registers = &self.registers;
                need_of(instruction, args, registers)
            }
            None => Ok(Need::Ended(self.outcome)),
        }
    }

    /// What the key of the next instruction becomes, where it holds `found`: a value or absent; None
    /// where it stays. Only the copy of a value that is written takes memory.
    #[inline(always)]
    pub fn becomes(&self, found: Option<&Value<A>>) -> Result<Option<Option<Value<A>>>, NoMemory>
        ensures value { IfOk result (λ b. b ≡ becomes_of (next_need self.now.args self.now.progress) (option_copied found.entry)) }
        ensures memory { OnErr result (HasValue (next_need self.now.args self.now.progress)) }
    {
        match self.code.get(self.place) {
            Some(instruction) => {
                let args = self.args.as_slice();
                let registers = &self.registers;
                becomes(instruction, args, registers, found)
            }
            None => Ok(None),
        }
    }

    /// Executes the next instruction, where its key holds `found` (None where it touches no key).
    /// Only an instruction that reads takes memory. A call that has ended stays as it is.
    #[inline(always)]
    pub fn fed(&mut self, found: Option<&Value<A>>) -> Result<(), NoMemory>
        ensures ok { OnOk result (self.new ≡ record self.old {
          progress = advanced self.old.args self.old.progress (option_copied found.entry);
        }) }
        ensures err { OnErr result (self.new ≡ self.old) }
        ensures memory { OnErr result (CopiesValue (next_need self.old.args self.old.progress)) }
    {
        let end = self.code.len();
        let Some(instruction) = self.code.get(self.place) else {
            return Ok(());
        };
        let args = self.args.as_slice();
        let registers = &self.registers;
        match action_of(instruction, args, registers, found)? {
            Action::Set(register, cell) => {
                self.registers.set(register, cell);
                self.place += 1;
            }
            Action::Load(register, cell, reply) => {
                self.registers.set(register, cell);
                self.replies.push_reserved(reply);
                self.place += 1;
            }
            Action::Pass => self.place += 1,
            Action::End(code) => {
                self.place = end;
                self.outcome = code;
            }
        }
        Ok(())
    }
}

impl<A: Allocator> Machine<A> {
    /// Which key the next instruction touches, or how the call ended.
    pub fn access(&self) -> Access
        ensures { result ≡ accessed (next_need self.now.args self.now.progress) }
    {
        match self.code.get(self.place) {
            Some(instruction) => {
                let args = self.args.as_slice();
                let registers = &self.registers;
                access_of(instruction, args, registers)
            }
            None => Access::Ended(self.outcome),
        }
    }

    /// Whether the next instruction gives a value to its key where that is absent. It takes no
    /// memory, as `next` may.
    pub fn gives_value(&self) -> bool
        ensures { result ≡ is_some (becomes_of (next_need self.now.args self.now.progress) None) }
    {
        match self.code.get(self.place) {
            Some(instruction) => {
                let args = self.args.as_slice();
                let registers = &self.registers;
                gives_value(instruction, args, registers)
            }
            None => false,
        }
    }

    /// Executes the next instruction, which changes its key. It takes no memory, and needs not be told
    /// what the key holds, as `fed` does.
    #[inline(always)]
    pub fn wrote(&mut self)
        ensures { (found : Cell) → IsSome (becomes_of (next_need self.old.args self.old.progress) found) →
            self.new ≡ record self.old { progress = advanced self.old.args self.old.progress found } }
    {
        let end = self.code.len();
        if self.place < end {
            self.place += 1;
        }
    }

    /// The outcome, if the call has ended.
    pub fn ended(&self) -> Option<u8>
        ensures { result ≡ ended self.now.progress }
    {
        if self.place < self.code.len() {
            None
        } else {
            Some(self.outcome)
        }
    }

    /// The replies so far, one of each read.
    pub fn replies(&self) -> &[Option<Value<A>>]
        ensures { result.now ≡ self.now.progress.replies }
    {
        self.replies.as_slice()
    }

    /// The arguments, the replies, and the registers for the room that they have, without taking memory.
    #[inline(always)]
    pub fn into_parts(
        self,
    ) -> (
        Sequence<Value<A>, A>,
        Sequence<Option<Value<A>>, A>,
        Registers<A>,
    )
        ensures args { result.0 ≡ self.args }
        ensures replies { result.1 ≡ self.progress.replies }
        ensures registers { result.2 ≡ self.progress.registers }
    {
        (self.args, Sequence::new(self.replies), self.registers)
    }
}
