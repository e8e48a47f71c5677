//! The commands of a script, in the order in which they are carried out.

ghost use Rattle.std.specs.Prelude.{◌≡◌, ◌∷◌, ◌++◌, [], IfNone, IsSome, List, OnOk, Some, None, option_to_list};
ghost use Rattle.procedure.specs.Bytes.{Bytes};
ghost use Rattle.calcdb.specs.inside.Queues.{beginning, plain};
ghost use Rattle.calcdb.specs.declared.commands.Command.{Command as SpecCommand};

use crate::commands::{Command, CommandLines, NewCall, call_of, command_of};
use crate::faults::unread::Unread;
use crate::instructions::is_word;
use crate::names::Names;
use image::Kind;
use procedure::NoMemory;
use std::alloc::Allocator;
use std::collections::VecDeque;
use std::marker::Model;
use steps::Arguments;

/// A command without the call that it begins.
#[derive(Clone, Copy)]
enum Head {
    Begin,
    Step(u16),
    Finish(u16),
    GiveUp(u16),
    Call,
    Start(Kind),
    Advance,
    Capture,
    Scan,
    TakeImage,
    Reclaim,
    Abandon,
}

/// Commands, seen by contracts as the list of them. The first is taken out first.
///
/// Their calls stand apart, so that a command without one takes 4 bytes. The room of those that were
/// taken out is given back.
#[derive(Drop)]
pub(crate) struct CommandQueue<A: Allocator> {
    heads: VecDeque<Head, A>,
    calls: VecDeque<NewCall<Arguments<A>>, A>,
}

impl<A: Allocator> Model for CommandQueue<A> {
    ghost use Rattle.std.specs.Prelude.{◌≡◌, List, length};
    ghost use Rattle.std.specs.Coded.{codes, coded_list, coded_ℕ};
    ghost use Rattle.procedure.specs.Bytes.{Bytes};
    ghost use Rattle.calcdb.specs.inside.Queues.{calls_of, joined};
    ghost use Rattle.calcdb.specs.declared.commands.Command.{Command as SpecCommand};

    ghost Value = { List (SpecCommand (List Bytes)) };

    ghost coded = { Prim.hlevel (codes, coded_list (coded_list coded_ℕ)) };

    ghost view = { λ q. joined q.heads.items q.calls.items };

    ghost invariant = { λ q. calls_of q.heads.items ≡ length q.calls.items };
}

impl<A: Allocator> CommandQueue<A> {
    /// A command more that begins a call, behind the others.
    #[inline(always)]
    fn push_call(&mut self, head: Head, call: NewCall<Arguments<A>>) -> Result<(), NoMemory>
        requires { plain head ≡ None }
        ensures { OnOk result (self.new ≡ self.old ++ beginning head call ∷ []) }
    {
        self.heads.reserve(1)?;
        // `push_back` would move it once more.
        self.calls.reserve(1)?;
        self.calls.push_back_reserved(call);
        self.heads.push_back_reserved(head);
        Ok(())
    }

    /// A command more that begins no call, behind the others.
    #[inline(always)]
    fn push_head(&mut self, head: Head) -> Result<(), NoMemory>
        requires { IsSome (plain head) }
        ensures { (command : SpecCommand (List Bytes)) → plain head ≡ Some command → OnOk result (self.new ≡ self.old ++ command ∷ []) }
    {
        self.heads.push_back(head)?;
        Ok(())
    }

    /// One command more, behind the others.
    #[inline(always)]
    fn push(&mut self, command: Command<Arguments<A>>) -> Result<(), NoMemory>
        ensures { OnOk result (self.new ≡ self.old ++ command ∷ []) }
    {
        match command {
            Command::Begin(call) => self.push_call(Head::Begin, call),
            Command::Step(session) => self.push_head(Head::Step(session)),
            Command::Finish(session) => self.push_head(Head::Finish(session)),
            Command::GiveUp(session) => self.push_head(Head::GiveUp(session)),
            Command::Call(call) => self.push_call(Head::Call, call),
            Command::Start(kind) => self.push_head(Head::Start(kind)),
            Command::Advance => self.push_head(Head::Advance),
            Command::Capture => self.push_head(Head::Capture),
            Command::Scan => self.push_head(Head::Scan),
            Command::TakeImage => self.push_head(Head::TakeImage),
            Command::Reclaim => self.push_head(Head::Reclaim),
            Command::Abandon => self.push_head(Head::Abandon),
        }
    }

    /// The first command, which is one of them no more; None where there is none. Where room is given back
    /// the allocator is asked for a smaller block; if it refuses, the queue keeps the one that it has.
    #[inline(always)]
    pub(crate) fn next(&mut self) -> Option<Command<Arguments<A>>>
        ensures first { self.old ≡ option_to_list result ++ self.new }
        ensures none { IfNone result (self.old ≡ []) }
    {
        let head = self.heads.pop_front()?;
        trim(&mut self.heads);
        let command = match head {
            Head::Begin => Command::Begin(next_call(&mut self.calls)?),
            Head::Step(session) => Command::Step(session),
            Head::Finish(session) => Command::Finish(session),
            Head::GiveUp(session) => Command::GiveUp(session),
            Head::Call => Command::Call(next_call(&mut self.calls)?),
            Head::Start(kind) => Command::Start(kind),
            Head::Advance => Command::Advance,
            Head::Capture => Command::Capture,
            Head::Scan => Command::Scan,
            Head::TakeImage => Command::TakeImage,
            Head::Reclaim => Command::Reclaim,
            Head::Abandon => Command::Abandon,
        };
        Some(command)
    }
}

/// The first call, which is one of them no more.
#[inline(always)]
fn next_call<V: Drop, A: Allocator>(calls: &mut VecDeque<NewCall<V>, A>) -> Option<NewCall<V>>
    ensures first { calls.old.items ≡ option_to_list result ++ calls.new.items }
    ensures none { IfNone result (calls.old.items ≡ []) }
{
    let call = calls.pop_front()?;
    trim(calls);
    Some(call)
}

/// Gives room back where less than half of it is taken.
#[inline(always)]
fn trim<T, A: Allocator>(queue: &mut VecDeque<T, A>)
    ensures { queue.new.items ≡ queue.old.items }
{
    if queue.len() < queue.capacity() / 2 {
        queue.shrink_to_fit();
    }
}

impl<A: Allocator + Copy> CommandLines<A> for CommandQueue<A> {
    ghost use Rattle.calcdb.specs.Commands.{command_of, with_more};

    ghost none = { [] };

    ghost added = { with_more command_of };

    fn new(alloc: A) -> Self {
        CommandQueue {
            heads: VecDeque::new(alloc),
            calls: VecDeque::new(alloc),
        }
    }

    fn read(&mut self, names: &Names<A>, word: &[u8], rest: &[u8]) -> Result<(), Unread> {
        let alloc = self.heads.allocator().clone()?;
        // Most commands are calls, which go to their place without a move through `Command`.
        if is_word(word, b"call") {
            let call = call_of(alloc, names, rest)?;
            self.push_call(Head::Call, call)?;
            return Ok(());
        }
        let command = command_of(alloc, names, word, rest)?;
        self.push(command)?;
        Ok(())
    }
}
