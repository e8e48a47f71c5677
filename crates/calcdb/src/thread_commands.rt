//! Lines of commands that are carried out in threads.

ghost use Rattle.calcdb.specs.Commands as commands;
ghost use Rattle.calcdb.specs.Lines.{words};
ghost use Rattle.std.specs.Prelude.{◌≡◌, ◌∷◌};
ghost use Rattle.calcdb.specs.Reads.{ReadsAs, ReadsExactly};
ghost use Rattle.calcdb.specs.ThreadCommands as spec;
ghost use Rattle.calcdb.specs.Values.{held_value_of};

use crate::commands::{
    CommandLines, NewCall, kind_of, number_at, procedure_at, session_at, values_of,
};
use crate::faults::misreads::{Misread, Quote};
use crate::faults::unread::Unread;
use crate::instructions::is_word;
use crate::lines::{end_of, word_at};
use crate::names::Names;
use crate::values::key_of;
use image::Kind;
use procedure::limits::SESSIONS;
use procedure::{Key, Sequence, Value};
use std::alloc::Allocator;
use std::marker::Model;

/// The greatest number of a session.
const LAST_SESSION: u16 = SESSIONS - 1;

/// A command of a script that is run in threads. Its arguments are `Sequence<Value<A>, A>` in the program, and
/// lists of byte strings in the definitions of `specs/`.
#[derive(Drop)]
pub(crate) enum ThreadCommand<V> {
    /// The session makes a call.
    Call(NewCall<V>),
    /// A checkpoint of this kind is made.
    Checkpoint(Kind),
    /// A key is looked up beside the calls, and after them.
    View(Key),
}

/// The first word of a command.
#[derive(Clone, Copy)]
enum ThreadCommandName {
    Call,
    Checkpoint,
    View,
}

/// A session, a number, a procedure's name, and its arguments.
#[tactic(auto, unfolding(crate::specs::Commands::new_call_of))]
fn call_of<A: Allocator + Clone>(
    alloc: A,
    names: &Names<A>,
    line: &[u8],
) -> Result<NewCall<Sequence<Value<A>, A>>, Unread>
    ensures { ReadsAs (λ c. c) result (commands.new_call_of 63 held_value_of names.now (words line.now)) }
{
    let (session, rest) = session_at(LAST_SESSION, line)?;
    let (number, rest) = number_at(rest)?;
    let (procedure, rest) = procedure_at(names, rest)?;
    let args = values_of(alloc, procedure.arity(), rest)?;
    Ok(NewCall {
        session,
        number,
        procedure: procedure.number(),
        args,
    })
}

/// A key alone.
#[tactic(auto, unfolding(crate::specs::ThreadCommands::key_alone))]
fn key_alone<A: Allocator>(alloc: A, line: &[u8]) -> Result<Key, Unread>
    ensures { ReadsAs (λ k. k) result (spec.key_alone (words line.now)) }
{
    let (word, rest) = word_at(line)?;
    let key = key_of(alloc, word)?;
    end_of(rest)?;
    Ok(key)
}

fn command_name(word: &[u8]) -> Result<ThreadCommandName, Misread>
    ensures { ReadsExactly (λ c. c) result (spec.thread_command_name word.now) }
{
    if is_word(word, b"call") {
        Ok(ThreadCommandName::Call)
    } else if is_word(word, b"checkpoint") {
        Ok(ThreadCommandName::Checkpoint)
    } else if is_word(word, b"view") {
        Ok(ThreadCommandName::View)
    } else {
        Err(Misread::NoCommand(Quote::of(word)))
    }
}

/// The command that a line is, by its first word and what stands after that.
#[tactic(auto, unfolding(crate::specs::ThreadCommands::thread_command_of))]
fn command_of<A: Allocator + Clone>(
    alloc: A,
    names: &Names<A>,
    word: &[u8],
    rest: &[u8],
) -> Result<ThreadCommand<Sequence<Value<A>, A>>, Unread>
    ensures { ReadsAs (λ c. c) result (spec.thread_command_of names.now (word.now ∷ words rest.now)) }
{
    match command_name(word)? {
        ThreadCommandName::Call => Ok(ThreadCommand::Call(call_of(alloc, names, rest)?)),
        ThreadCommandName::Checkpoint => Ok(ThreadCommand::Checkpoint(kind_of(rest)?)),
        ThreadCommandName::View => Ok(ThreadCommand::View(key_alone(alloc, rest)?)),
    }
}

/// The commands of a script that is run in threads, seen by contracts as the list of them.
#[derive(Drop)]
pub(crate) struct ThreadCommands<A: Allocator> {
    list: Vec<ThreadCommand<Sequence<Value<A>, A>>, A>,
}

impl<A: Allocator> Model for ThreadCommands<A> {
    ghost use Rattle.std.specs.Prelude.{List};
    ghost use Rattle.std.specs.Coded.{codes, coded_list, coded_ℕ};
    ghost use Rattle.procedure.specs.Bytes.{Bytes};
    ghost use Rattle.calcdb.specs.declared.thread_commands.ThreadCommand.{ThreadCommand as SpecCommand};

    ghost Value = { List (SpecCommand (List Bytes)) };

    ghost coded = { Prim.hlevel (codes, coded_list (coded_list coded_ℕ)) };

    ghost view = { λ c. c.list.items };
}

impl<A: Allocator> ThreadCommands<A> {
    pub(crate) fn into_vec(self) -> Vec<ThreadCommand<Sequence<Value<A>, A>>, A>
        ensures { result.items ≡ self }
    {
        self.list
    }
}

impl<A: Allocator + Copy> CommandLines<A> for ThreadCommands<A> {
    ghost use Rattle.std.specs.Prelude.{[]};
    ghost use Rattle.calcdb.specs.Commands.{with_more};
    ghost use Rattle.calcdb.specs.ThreadCommands.{thread_command_of};

    ghost none = { [] };

    ghost added = { with_more thread_command_of };

    fn new(alloc: A) -> Self {
        ThreadCommands {
            list: Vec::new(alloc),
        }
    }

    fn read(&mut self, names: &Names<A>, word: &[u8], rest: &[u8]) -> Result<(), Unread> {
        let alloc = self.list.allocator().clone()?;
        self.list.push(command_of(alloc, names, word, rest)?)?;
        Ok(())
    }
}
