//! Lines of commands.

ghost use Rattle.std.specs.Prelude.{◌≡◌, ◌∷◌, List, map};
ghost use Rattle.calcdb.specs.Reads.{ReadsAs, ReadsExactly};
ghost use Rattle.calcdb.specs.Commands as spec;
ghost use Rattle.calcdb.specs.Lines.{words};
ghost use Rattle.calcdb.specs.Values.{held_value_of, value_of};

use crate::faults::misreads::{Misread, Quote};
use crate::faults::unread::Unread;
use crate::instructions::is_word;
use crate::lines::{end_of, first_word, word_at};
use crate::names::{Defined, Names};
use crate::values::{decimal_of, held_of, value_of};
use image::Kind;
use procedure::{Sequence, Value};
use std::alloc::Allocator;
use steps::Arguments;

/// The call that a command begins.
#[derive(Drop)]
pub(crate) struct NewCall<V> {
    pub number: u64,
    pub args: V,
    pub session: u16,
    pub procedure: u16,
}

/// A command. Its arguments are `Arguments<A>` in the program, and lists of byte strings in the
/// definitions of `specs/`.
#[derive(Drop)]
pub(crate) enum Command<V> {
    /// The call begins.
    Begin(NewCall<V>),
    /// The session's call executes an instruction.
    Step(u16),
    /// The session's call is answered.
    Finish(u16),
    /// The session's call ends without an answer.
    GiveUp(u16),
    /// The call begins, executes its instructions and is answered; or is given up at a refusal.
    Call(NewCall<V>),
    /// A checkpoint of this kind begins.
    Start(Kind),
    /// The checkpoint enters its next phase.
    Advance,
    /// The scan of the checkpoint visits one place.
    Capture,
    /// The scan visits all places that are left.
    Scan,
    /// The finished image is taken.
    TakeImage,
    /// A dead record goes.
    Reclaim,
    /// The checkpoint is given up.
    Abandon,
}

/// The first word of a command.
#[derive(Clone, Copy)]
pub(crate) enum CommandName {
    Begin,
    Step,
    Finish,
    GiveUp,
    Call,
    Start,
    Advance,
    Capture,
    Scan,
    TakeImage,
    Reclaim,
    Abandon,
}

/// Commands that lines add to, one after another.
pub(crate) trait CommandLines<A: Allocator>: Sized {
    ghost use Rattle.std.specs.Prelude.{◌≡◌, ◌∷◌, List, Option};
    ghost use Rattle.procedure.specs.Bytes.{Bytes};
    ghost use Rattle.calcdb.specs.Commands.{Names};
    ghost use Rattle.calcdb.specs.Lines.{words};
    ghost use Rattle.calcdb.specs.Reads.{ReadsAs};

    /// No commands.
    ghost none: { Self };

    /// The commands with the one behind them that words are, where the procedures have these names.
    ghost added: { Names → Self → List Bytes → Option Self };

    fn new(alloc: A) -> Self
        ensures { result ≡ none };

    /// Adds the command that a line is, by its first word and what stands after that.
    fn read(&mut self, names: &Names<A>, word: &[u8], rest: &[u8]) -> Result<(), Unread>
        ensures { ReadsAs (λ _. self.new) result (added names.now self.old (word.now ∷ words rest.now)) };
}

/// A session's number, at most this.
#[inline(always)]
pub(crate) fn session_at(most: u16, line: &[u8]) -> Result<(u16, &[u8]), Misread>
    ensures { ReadsExactly (λ p. (p.0, words p.1.now)) result (spec.session_at most (words line.now)) }
{
    let (word, rest) = word_at(line)?;
    Ok((decimal_of(u64::from(most), word)? as u16, rest))
}

#[inline(always)]
pub(crate) fn number_at(line: &[u8]) -> Result<(u64, &[u8]), Misread>
    ensures { ReadsExactly (λ p. (p.0, words p.1.now)) result (spec.number_at (words line.now)) }
{
    let (word, rest) = word_at(line)?;
    Ok((decimal_of(u64::MAX, word)?, rest))
}

#[inline(always)]
pub(crate) fn procedure_at<'a, A: Allocator>(
    names: &'a Names<A>,
    line: &'a [u8],
) -> Result<(&'a Defined, &'a [u8]), Misread>
    ensures { ReadsExactly (λ p. (p.0.now, words p.1.now)) result (spec.procedure_at names.now (words line.now)) }
{
    let (word, rest) = word_at(line)?;
    match names.procedure_of(word) {
        Some(procedure) => Ok((procedure, rest)),
        None => Err(Misread::NoProcedure(Quote::of(word))),
    }
}

/// The values that the words of a line are, where none is too long for one. Room is made for `likely` of
/// them, so that words need not be counted first; what is too much is given back.
#[inline(always)]
pub(crate) fn values_of<A: Allocator + Clone>(
    alloc: A,
    likely: u8,
    line: &[u8],
) -> Result<Sequence<Value<A>, A>, Unread>
    ensures { ReadsAs (λ v. v) result (spec.values_by held_value_of (words line.now)) }
{
    let mut values = Vec::with_capacity(alloc.clone()?, usize::from(likely))?;
    let mut rest = line;
    while let Some((word, behind)) = first_word(rest) {
        let held = held_of(alloc.clone()?, word)?;
        // `push` would move it once more.
        values.reserve(1)?;
        values.push_reserved(held);
        rest = behind;
    }
    values.shrink_to_fit();
    Ok(Sequence::new(values))
}

/// The bytes of any length that the words of a line are.
fn bytes_of<A: Allocator + Clone>(alloc: A, line: &[u8]) -> Result<Vec<Vec<u8, A>, A>, Unread>
    ensures { ReadsAs (λ v. map (λ b. b.items) v.items) result (spec.values_by value_of (words line.now)) }
{
    let mut values = Vec::new(alloc.clone()?);
    let mut rest = line;
    while let Some((word, behind)) = first_word(rest) {
        values.push(value_of(alloc.clone()?, word)?)?;
        rest = behind;
    }
    values.shrink_to_fit();
    Ok(values)
}

/// The arguments that the words of a line are. Where one is too long for a value, or is none, the line is
/// read again for that.
#[inline(always)]
fn arguments_of<A: Allocator + Clone>(
    alloc: A,
    likely: u8,
    line: &[u8],
) -> Result<Arguments<A>, Unread>
    ensures { ReadsAs (λ a. a) result (spec.values_by value_of (words line.now)) }
{
    match values_of(alloc.clone()?, likely, line) {
        Ok(values) => Ok(Arguments::of_values(values)),
        Err(Unread::NoMemory) => Err(Unread::NoMemory),
        Err(Unread::Faulty(_)) => Ok(Arguments::of_bytes(bytes_of(alloc, line)?)),
    }
}

/// A session, a number, a procedure's name, and its arguments.
#[tactic(auto, unfolding(crate::specs::Commands::new_call_of))]
#[inline(always)]
pub(crate) fn call_of<A: Allocator + Clone>(
    alloc: A,
    names: &Names<A>,
    line: &[u8],
) -> Result<NewCall<Arguments<A>>, Unread>
    ensures { ReadsAs (λ c. c) result (spec.new_call_of 65535 value_of names.now (words line.now)) }
{
    let (session, rest) = session_at(u16::MAX, line)?;
    let (number, rest) = number_at(rest)?;
    let (procedure, rest) = procedure_at(names, rest)?;
    let args = arguments_of(alloc, procedure.arity(), rest)?;
    Ok(NewCall {
        session,
        number,
        procedure: procedure.number(),
        args,
    })
}

/// A session alone.
#[tactic(auto, unfolding(crate::specs::Commands::session_of))]
fn session_of(line: &[u8]) -> Result<u16, Misread>
    ensures { ReadsExactly (λ s. s) result (spec.session_of (words line.now)) }
{
    let (session, rest) = session_at(u16::MAX, line)?;
    end_of(rest)?;
    Ok(session)
}

fn kind_named(word: &[u8]) -> Result<Kind, Misread>
    ensures { ReadsExactly (λ k. k) result (spec.kind_named word.now) }
{
    if is_word(word, b"full") {
        Ok(Kind::Full)
    } else if is_word(word, b"partial") {
        Ok(Kind::Partial)
    } else {
        Err(Misread::NoKind(Quote::of(word)))
    }
}

/// A kind of checkpoint alone.
#[tactic(auto, unfolding(crate::specs::Commands::kind_in))]
pub(crate) fn kind_of(line: &[u8]) -> Result<Kind, Misread>
    ensures { ReadsExactly (λ k. k) result (spec.kind_in (words line.now)) }
{
    let (word, rest) = word_at(line)?;
    let kind = kind_named(word)?;
    end_of(rest)?;
    Ok(kind)
}

/// Whether a command has no word after its name.
fn stands_alone(name: CommandName) -> bool
    ensures { result ≡ spec.stands_alone name }
{
    matches!(
        name,
        CommandName::Advance
            | CommandName::Capture
            | CommandName::Scan
            | CommandName::TakeImage
            | CommandName::Reclaim
            | CommandName::Abandon
    )
}

/// Nothing, where no word is left after the name of a command that has none.
fn end_after(name: CommandName, line: &[u8]) -> Result<(), Misread>
    ensures { ReadsExactly (λ p. p) result (spec.end_after name (words line.now)) }
{
    if stands_alone(name) {
        end_of(line)
    } else {
        Ok(())
    }
}

fn command_name(word: &[u8]) -> Result<CommandName, Misread>
    ensures { ReadsExactly (λ c. c) result (spec.command_name word.now) }
{
    if is_word(word, b"begin") {
        Ok(CommandName::Begin)
    } else if is_word(word, b"step") {
        Ok(CommandName::Step)
    } else if is_word(word, b"finish") {
        Ok(CommandName::Finish)
    } else if is_word(word, b"giveup") {
        Ok(CommandName::GiveUp)
    } else if is_word(word, b"call") {
        Ok(CommandName::Call)
    } else if is_word(word, b"start") {
        Ok(CommandName::Start)
    } else if is_word(word, b"advance") {
        Ok(CommandName::Advance)
    } else if is_word(word, b"capture") {
        Ok(CommandName::Capture)
    } else if is_word(word, b"scan") {
        Ok(CommandName::Scan)
    } else if is_word(word, b"image") {
        Ok(CommandName::TakeImage)
    } else if is_word(word, b"reclaim") {
        Ok(CommandName::Reclaim)
    } else if is_word(word, b"abandon") {
        Ok(CommandName::Abandon)
    } else {
        Err(Misread::NoCommand(Quote::of(word)))
    }
}

/// The command that a line is, by its first word and what stands after that.
#[tactic(auto, unfolding(crate::specs::Commands::command_of))]
pub(crate) fn command_of<A: Allocator + Clone>(
    alloc: A,
    names: &Names<A>,
    word: &[u8],
    rest: &[u8],
) -> Result<Command<Arguments<A>>, Unread>
    ensures { ReadsAs (λ c. c) result (spec.command_of names.now (word.now ∷ words rest.now)) }
{
    let name = command_name(word)?;
    end_after(name, rest)?;
    match name {
        CommandName::Begin => Ok(Command::Begin(call_of(alloc, names, rest)?)),
        CommandName::Step => Ok(Command::Step(session_of(rest)?)),
        CommandName::Finish => Ok(Command::Finish(session_of(rest)?)),
        CommandName::GiveUp => Ok(Command::GiveUp(session_of(rest)?)),
        CommandName::Call => Ok(Command::Call(call_of(alloc, names, rest)?)),
        CommandName::Start => Ok(Command::Start(kind_of(rest)?)),
        CommandName::Advance => Ok(Command::Advance),
        CommandName::Capture => Ok(Command::Capture),
        CommandName::Scan => Ok(Command::Scan),
        CommandName::TakeImage => Ok(Command::TakeImage),
        CommandName::Reclaim => Ok(Command::Reclaim),
        CommandName::Abandon => Ok(Command::Abandon),
    }
}
