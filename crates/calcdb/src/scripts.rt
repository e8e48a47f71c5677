//! Scripts, checked whole before anything runs.

ghost use Rattle.std.specs.Prelude.{◌≡◌, ◌≤◌, ◌+◌, ◌∷◌, Ok, option_map};
ghost use Rattle.calcdb.specs.LineByLine.{TellsScript, size};
ghost use Rattle.calcdb.specs.Lines.{words};
ghost use Rattle.calcdb.specs.Preambles.{as_preamble};
ghost use Rattle.calcdb.specs.Preambles as preamble;
ghost use Rattle.calcdb.specs.Reads.{ReadsAs};
ghost use Rattle.calcdb.specs.Scripts as spec;

use crate::command_queue::CommandQueue;
use crate::commands::CommandLines;
use crate::faults::misreads::{FaultyLine, Misread};
use crate::faults::unread::Unread;
use crate::line_by_line::{LineReader, read_lines};
use crate::lines::{first_word, is_allowed, is_comment};
use crate::names::Names;
use crate::preambles::{Preamble, read_preamble};
use crate::thread_commands::ThreadCommands;
use procedure::Catalog;
use std::alloc::Allocator;
use std::marker::Model;

/// Bytes of a script, and of any text that the program reads.
pub(crate) const SCRIPT_BYTES: usize = 4_194_304;

/// Why a text is no script, or no text of pairs.
#[derive(Debug, Drop)]
pub(crate) enum ScriptFault {
    Line(FaultyLine),
    /// Over 4,194,304 bytes.
    Size,
    NoMemory,
}

/// The commands that lines have said so far, and the procedures' names.
#[derive(Drop)]
struct Commands<L, A: Allocator> {
    names: Names<A>,
    list: L,
}

impl<L, A: Allocator> Model for Commands<L, A> {
    ghost use Rattle.std.specs.Coded.{codes};
    ghost use Rattle.calcdb.specs.Commands.{names_code};
    ghost use Rattle.calcdb.specs.Scripts.{Commands};

    ghost Value = { Commands L };

    ghost coded = { Prim.hlevel (codes, names_code, L.code) };

    ghost view = { λ c. record { names = c.names; list = c.list } };
}

impl<L: CommandLines<A> + Drop, A: Allocator> Commands<L, A> {
    /// Reads a command, by its first word and what stands after that.
    fn push(&mut self, word: &[u8], rest: &[u8]) -> Result<(), Unread>
        ensures { ReadsAs (λ _. self.new) result (spec.with_command L.added self.old (word.now ∷ words rest.now)) }
    {
        self.list.read(&self.names, word, rest)
    }

    /// A line without a fault of its bytes.
    fn read_words(&mut self, line: &[u8]) -> Result<(), Unread>
        ensures { ReadsAs (λ _. self.new) result (spec.commands_after_words L.added self.old (words line.now)) }
    {
        match first_word(line) {
            Some((word, rest)) if !is_comment(word) => self.push(word, rest),
            _ => Ok(()),
        }
    }
}

impl<L: CommandLines<A> + Drop, A: Allocator> LineReader for Commands<L, A> {
    ghost after = { spec.commands_after L.added };

    fn read_line(&mut self, line: &[u8]) -> Result<(), Unread> {
        if !is_allowed(line) {
            return Err(Unread::Faulty(Misread::Byte));
        }
        self.read_words(line)
    }
}

/// A script: its procedures, and its commands in order.
#[derive(Drop)]
pub(crate) struct Script<L, A: Allocator> {
    pub catalog: Catalog<A>,
    pub commands: L,
}

impl<L, A: Allocator> Model for Script<L, A> {
    ghost use Rattle.std.specs.Coded.{codes};
    ghost use Rattle.calcdb.specs.Scripts.{Script};

    ghost Value = { Script L };

    ghost coded = { Prim.hlevel (codes, L.code) };

    ghost view = { λ s. record { catalog = s.catalog; commands = s.commands } };
}

/// A script of commands that are carried out one after another.
pub(crate) type Schedule<A> = Script<CommandQueue<A>, A>;

/// A script of calls and checkpoints that are made in threads.
pub(crate) type ThreadScript<A> = Script<ThreadCommands<A>, A>;

/// Reads the commands after a preamble.
fn read_commands<L: CommandLines<A> + Drop, A: Allocator>(
    alloc: A,
    preamble: Preamble<'_, A>,
) -> Result<Script<L, A>, ScriptFault>
    requires { preamble.line + size (option_map (λ t. t.now) preamble.left) ≤ SCRIPT_BYTES + 2 }
    ensures { TellsScript (λ s. s) result (spec.script_after L.added L.none (as_preamble preamble.entry)) }
{
    let Preamble {
        names,
        catalog,
        line,
        left,
    } = preamble;
    let mut said = Commands {
        names,
        list: L::new(alloc),
    };
    read_lines(&mut said, line, left)?;
    let Commands { names: _, list } = said;
    Ok(Script {
        catalog,
        commands: list,
    })
}

/// The script that a text is.
fn read_whole<L: CommandLines<A> + Drop, A: Allocator + Copy>(
    alloc: A,
    text: &[u8],
) -> Result<Script<L, A>, ScriptFault>
    ensures { TellsScript (λ s. s) result (spec.script_of L.added L.none text.now) }
{
    let preamble = read_preamble(alloc, text)?;
    read_commands(alloc, preamble)
}

/// The script that a text of at most 4,194,304 bytes is, or its first faulty line. Lines end with a
/// line feed, and words stand between spaces or tabs; docs/FORMATS.md has the language. It takes time
/// and memory in proportion to the text.
pub(crate) fn read_schedule<A: Allocator + Copy>(
    alloc: A,
    text: &[u8],
) -> Result<Schedule<A>, ScriptFault>
    ensures { TellsScript (λ s. s) result (spec.schedule_of text.now) }
{
    read_whole(alloc, text)
}

/// The script that a text is of which the commands are calls, checkpoints and views, as `read_schedule`.
pub(crate) fn read_thread_script<A: Allocator + Copy>(
    alloc: A,
    text: &[u8],
) -> Result<ThreadScript<A>, ScriptFault>
    ensures { TellsScript (λ s. s) result (spec.thread_script_of text.now) }
{
    read_whole(alloc, text)
}

/// The procedures of a text of at most 4,194,304 bytes, or its first faulty line. Lines are looked at up
/// to the first that is out of a block, isn't skipped and doesn't begin with `proc`; what stands from it
/// on may be no script.
pub(crate) fn read_catalog<A: Allocator + Copy>(
    alloc: A,
    text: &[u8],
) -> Result<Catalog<A>, ScriptFault>
    ensures value { TellsScript (λ c. c) result (preamble.catalog_of text.now) }
    // Of a script that can be run they are its procedures.
    ensures schedule { (script : spec.Schedule) → spec.schedule_of text.now ≡ Ok script → TellsScript (λ c. c) result (Ok script.catalog) }
    ensures threads { (script : spec.ThreadScript) → spec.thread_script_of text.now ≡ Ok script → TellsScript (λ c. c) result (Ok script.catalog) }
{
    Ok(read_preamble(alloc, text)?.catalog)
}
