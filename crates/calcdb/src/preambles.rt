//! The procedures of a script, which stand before its commands.

ghost use Rattle.std.specs.Prelude.{◌≡◌, ◌⊎◌, ◌<◌, ◌≤◌, ◌∷◌, [], length, Err, IfErr, IfOk, None, false, true, option_map, ◌+◌};
ghost use Rattle.procedure.specs.Catalogs.{procedure_fault};
ghost use Rattle.procedure.specs.declared.limits.TheConstants.{PROCEDURES};
ghost use Rattle.calcdb.specs.Commands.{is_name};
ghost use Rattle.calcdb.specs.LineByLine.{TellsScript, size};
ghost use Rattle.calcdb.specs.Lines.{left_lines, lines, words};
ghost use Rattle.calcdb.specs.Preambles as spec;
ghost use Rattle.calcdb.specs.Preambles.{as_preamble, preamble_after};
ghost use Rattle.calcdb.specs.Reads.{ReadsAs, ReadsExactly};
ghost use Rattle.calcdb.specs.declared.scripts.ScriptFault.TheVariants as fault;
ghost use Rattle.calcdb.specs.declared.scripts.TheConstants.{SCRIPT_BYTES};

use crate::faults::misreads::{FaultyLine, Misread, Quote};
use crate::faults::unread::Unread;
use crate::instructions::{instruction_of, is_word};
use crate::lines::{end_of, first_word, is_allowed, is_skipped, line_at, without_return, word_at};
use crate::names::{Defined, Names, is_name};
use crate::scripts::{SCRIPT_BYTES, ScriptFault};
use crate::values::decimal_of;
use procedure::limits::{ARGUMENTS, INSTRUCTIONS, PROCEDURES};
use procedure::{Catalog, Code, Instr, Key, Procedure, Sequence, Value};
use std::alloc::{AllocError, Allocator};
use std::marker::Model;

/// A procedure's block that has begun.
#[derive(Drop)]
struct Block<A: Allocator> {
    /// The number of its first line.
    line: u64,
    arity: u8,
    code: Vec<Instr<Value<A>>, A>,
}

impl<A: Allocator> Model for Block<A> {
    ghost use Rattle.calcdb.specs.Preambles.{Block, IsLawfulBlock};

    ghost Value = { Block };

    ghost view = { λ b. record { line = b.line; arity = b.arity; code = b.code.items } };

    ghost invariant = { λ b. IsLawfulBlock (record { line = b.line; arity = b.arity; code = b.code.items }) };
}

impl<A: Allocator + Clone> Block<A> {
    fn new(alloc: A, line: u64, arity: u8) -> Self
        requires { arity ≤ 8 }
        ensures { result ≡ record { line = line; arity = arity; code = [] } }
    {
        Block {
            line,
            arity,
            code: Vec::new(alloc),
        }
    }

    /// The block with the instruction that a line is.
    #[tactic(auto, unfolding(crate::specs::Preambles::longer_block))]
    fn with_line(self, line: &[u8]) -> Result<Self, Unread>
        ensures { ReadsAs (λ b. b) result (spec.longer_block self (words line.now)) }
    {
        let Block {
            line: first,
            arity,
            mut code,
        } = self;
        if code.len() >= INSTRUCTIONS {
            return Err(Unread::Faulty(Misread::ManyInstructions));
        }
        let alloc = code.allocator().clone()?;
        code.push(instruction_of(alloc, arity, line)?)?;
        Ok(Block {
            line: first,
            arity,
            code,
        })
    }

    fn into_procedure(self) -> Result<Procedure<A>, AllocError>
        ensures value { IfOk result (λ p. p ≡ record { arity = self.arity; code = self.code }) }
        ensures lawful { IfOk result (λ p. procedure_fault p ≡ None) }
    {
        let Block {
            line: _,
            arity,
            code,
        } = self;
        Ok(Procedure {
            arity,
            code: Code::new(code)?,
        })
    }
}

/// The procedures that lines have said so far.
#[derive(Drop)]
struct Said<A: Allocator> {
    names: Names<A>,
    procedures: Vec<Procedure<A>, A>,
    block: Option<Block<A>>,
}

impl<A: Allocator> Model for Said<A> {
    ghost use Rattle.std.specs.Coded.{codes};
    ghost use Rattle.calcdb.specs.Commands.{names_code};
    ghost use Rattle.calcdb.specs.Preambles.{Said, IsLawfulSaid};

    ghost Value = { Said };

    ghost coded = { Prim.hlevel (codes, names_code) };

    ghost view = { λ s. record { names = s.names; procedures = s.procedures.items; block = s.block } };

    ghost invariant = { λ s. IsLawfulSaid (record { names = s.names; procedures = s.procedures.items; block = s.block }) };
}

/// Whether a line is `end` alone.
fn ends_block(line: &[u8]) -> bool
    ensures { result ≡ spec.ends_block (words line.now) }
{
    match first_word(line) {
        Some((word, rest)) => is_word(word, b"end") && first_word(rest).is_none(),
        None => false,
    }
}

fn begins_block(line: &[u8]) -> bool
    ensures { result ≡ spec.begins_block (words line.now) }
{
    match first_word(line) {
        Some((word, _)) => is_word(word, b"proc"),
        None => false,
    }
}

/// A name that no procedure has.
#[tactic(auto, unfolding(crate::specs::Preambles::new_name))]
fn new_name<'a, A: Allocator>(
    names: &Names<A>,
    line: &'a [u8],
) -> Result<(&'a [u8], &'a [u8]), Misread>
    ensures value { ReadsExactly (λ p. (p.0.now, words p.1.now)) result (spec.new_name names.now (words line.now)) }
    ensures name { IfOk result (λ p. is_name p.0.now ≡ true) }
{
    let (word, rest) = word_at(line)?;
    if !is_name(word) {
        return Err(Misread::NoName(Quote::of(word)));
    }
    match names.procedure_of(word) {
        Some(_) => Err(Misread::SameName(Quote::of(word))),
        None => Ok((word, rest)),
    }
}

/// How many arguments, alone.
#[tactic(auto, unfolding(crate::specs::Preambles::arity_of))]
fn arity_of(line: &[u8]) -> Result<u8, Misread>
    ensures value { ReadsExactly (λ n. n) result (spec.arity_of (words line.now)) }
    ensures fits { IfOk result (λ n. n ≤ 8) }
{
    let (word, rest) = word_at(line)?;
    let arity = decimal_of(u64::from(ARGUMENTS), word)?;
    end_of(rest)?;
    Ok(arity as u8)
}

/// A new name, and how many arguments its procedure takes.
#[tactic(auto, unfolding(crate::specs::Preambles::heading_of))]
fn heading_of<A: Allocator>(names: &Names<A>, line: &[u8]) -> Result<(Key, u8), Misread>
    ensures value { ReadsExactly (λ h. (h.0, h.1)) result (spec.heading_of names.now (words line.now)) }
    ensures fits { IfOk result (λ h. h.1 ≤ 8) }
{
    let (name, rest) = new_name(names, line)?;
    let arity = arity_of(rest)?;
    match Key::new(name) {
        Some(key) => Ok((key, arity)),
        None => Err(Misread::NoName(Quote::of(name))),
    }
}

impl<A: Allocator + Copy> Said<A> {
    fn new(alloc: A) -> Self
        ensures { result ≡ spec.nothing_said }
    {
        Said {
            names: Names::new(alloc),
            procedures: Vec::new(alloc),
            block: None,
        }
    }
}

impl<A: Allocator + Clone> Said<A> {
    fn allocator(&self) -> &A {
        self.procedures.allocator()
    }

    /// `proc` and what stands after it, in this line.
    #[tactic(auto, unfolding(crate::specs::Preambles::said_after_heading))]
    fn open_block(&mut self, number: u64, line: &[u8]) -> Result<(), Unread>
        requires { self.old.block ≡ None }
        ensures { ReadsAs (λ _. self.new) result (spec.said_after_heading self.old number (words line.now)) }
    {
        let (name, arity) = heading_of(&self.names, line)?;
        if self.procedures.len() >= PROCEDURES {
            return Err(Unread::Faulty(Misread::ManyProcedures));
        }
        let alloc = self.allocator().clone()?;
        let defined = Defined::new(self.procedures.len() as u16, arity);
        self.names.insert(name, defined)?;
        self.block = Some(Block::new(alloc, number, arity));
        Ok(())
    }

    /// A line that begins a block.
    #[tactic(auto, unfolding(crate::specs::Preambles::out_of_block))]
    fn read_out_of_block(&mut self, number: u64, line: &[u8]) -> Result<(), Unread>
        requires { self.old.block ≡ None }
        ensures { ReadsAs (λ _. self.new) result (spec.out_of_block self.old number (words line.now)) }
    {
        let (_proc, rest) = word_at(line)?;
        self.open_block(number, rest)
    }

    /// A line in a block, which was taken out.
    #[tactic(auto, unfolding(crate::specs::Preambles::in_block))]
    fn read_in_block(&mut self, block: Block<A>, line: &[u8]) -> Result<(), Unread>
        requires out { self.old.block ≡ None }
        requires room { length self.old.procedures < PROCEDURES }
        ensures { ReadsAs (λ _. self.new) result (spec.in_block self.old block (words line.now)) }
    {
        if ends_block(line) {
            self.procedures.push(block.into_procedure()?)?;
        } else {
            let _ended = self.block.replace(block.with_line(line)?);
        }
        Ok(())
    }

    /// A line without a fault of its bytes.
    fn read_words(&mut self, number: u64, line: &[u8]) -> Result<(), Unread>
        ensures { ReadsAs (λ _. self.new) result (spec.said_after_words self.old number (words line.now)) }
    {
        if is_skipped(line) {
            return Ok(());
        }
        match self.block.take() {
            Some(block) => self.read_in_block(block, line),
            None => self.read_out_of_block(number, line),
        }
    }

    /// One line more.
    fn read_line(&mut self, number: u64, line: &[u8]) -> Result<(), Unread>
        ensures { ReadsAs (λ _. self.new) result (spec.said_after_line self.old number line.now) }
    {
        if !is_allowed(line) {
            return Err(Unread::Faulty(Misread::Byte));
        }
        self.read_words(number, line)
    }

    /// Whether a line is a command's.
    fn ends_before(&self, line: &[u8]) -> bool
        ensures { result ≡ spec.is_command_line self.now (words line.now) }
    {
        self.block.is_none() && !is_skipped(line) && !begins_block(line)
    }

    /// The number of the first line of the block that is open.
    fn open_line(&self) -> Option<u64>
        ensures { result ≡ spec.open_line self.now }
    {
        self.block.as_ref().map(|block| block.line)
    }

    /// What stands before the lines that are left, where no block is open.
    fn into_preamble<'a>(
        self,
        line: u64,
        left: Option<&'a [u8]>,
    ) -> Result<Preamble<'a, A>, ScriptFault>
        ensures says { TellsScript as_preamble result (spec.preamble_said self line (left_lines (option_map (λ t. t.now) left.entry))) }
        ensures left { IfOk result (λ p. (p.line ≡ line) × (p.left ≡ left.entry)) }
        ensures err { IfErr result (λ e. spec.preamble_said self line (left_lines (option_map (λ t. t.now) left.entry)) ≡ Err e) }
    {
        let Said {
            names,
            procedures,
            block,
        } = self;
        match block {
            Some(block) => Err(ScriptFault::Line(unended(block.line))),
            None => match Catalog::new(Sequence::new(procedures)) {
                Ok(catalog) => Ok(Preamble {
                    names,
                    catalog,
                    line,
                    left,
                }),
                Err(_) => unreachable!(),
            },
        }
    }
}

/// The line of this number, which begins a block without an end.
fn unended(number: u64) -> FaultyLine
    ensures { result ≡ number }
{
    FaultyLine {
        number,
        why: Misread::NoEnd,
    }
}

/// Whether one of the lines that are left ends a block.
fn block_ends(text: Option<&[u8]>) -> bool
    ensures { result ≡ spec.block_ends (left_lines (option_map (λ t. t.now) text.entry)) }
{
    let mut rest = text;
    while let Some(left) = rest {
        let (line, behind) = line_at(left);
        if ends_block(without_return(line)) {
            return true;
        }
        rest = behind;
    }
    false
}

/// The first faulty line, where this one is faulty.
fn blamed(first: Option<u64>, faulty: FaultyLine, behind: Option<&[u8]>) -> FaultyLine
    ensures { result ≡ spec.blamed first faulty (left_lines (option_map (λ t. t.now) behind.entry)) }
{
    match first {
        Some(first) if !block_ends(behind) => unended(first),
        _ => faulty,
    }
}

/// Reads one line that is no command's.
#[tactic(auto, unfolding(crate::specs::Preambles::preamble_after))]
fn read_next<A: Allocator + Clone>(
    said: &mut Said<A>,
    number: u64,
    line: &[u8],
    behind: Option<&[u8]>,
) -> Result<(), ScriptFault>
    requires { spec.is_command_line said.old (words line.now) ≡ false }
    ensures ok { IfOk result (λ _. preamble_after said.old number (line.now ∷ left_lines (option_map (λ t. t.now) behind.entry)) ≡ preamble_after said.new (number + 1) (left_lines (option_map (λ t. t.now) behind.entry))) }
    ensures err { IfErr result (λ e. (e ≡ fault.NoMemory) ⊎ (preamble_after said.old number (line.now ∷ left_lines (option_map (λ t. t.now) behind.entry)) ≡ Err e)) }
{
    let first = said.open_line();
    match said.read_line(number, line) {
        Ok(()) => Ok(()),
        Err(Unread::Faulty(why)) => {
            let faulty = FaultyLine { number, why };
            Err(ScriptFault::Line(blamed(first, faulty, behind)))
        }
        Err(Unread::NoMemory) => Err(ScriptFault::NoMemory),
    }
}

/// What stands before the commands of a script, and what is left of its text.
#[derive(Drop)]
pub(crate) struct Preamble<'a, A: Allocator> {
    /// The number of each procedure by its name.
    pub names: Names<A>,
    pub catalog: Catalog<A>,
    /// The number of the first line that is left.
    pub line: u64,
    pub left: Option<&'a [u8]>,
}

/// Reads the lines up to the first command.
fn read_lines<'a, A: Allocator + Copy>(
    alloc: A,
    text: &'a [u8],
) -> Result<Preamble<'a, A>, ScriptFault>
    requires { length text.now ≤ SCRIPT_BYTES }
    ensures says { TellsScript as_preamble result (preamble_after spec.nothing_said 1 (lines text.entry.now)) }
    ensures numbered { IfOk result (λ p. p.line + size (option_map (λ t. t.now) p.left) ≤ SCRIPT_BYTES + 2) }
{
    let mut said = Said::new(alloc);
    let mut number = 1;
    let mut rest = Some(text);
    while let Some(left) = rest {
        let (found, behind) = line_at(left);
        let line = without_return(found);
        if said.ends_before(line) {
            return said.into_preamble(number, rest);
        }
        read_next(&mut said, number, line, behind)?;
        rest = behind;
        number += 1;
    }
    said.into_preamble(number, None)
}

/// The procedures of a text of at most 4,194,304 bytes and where its commands begin, or the first faulty
/// line up to there: up to the first that is out of a block, isn't skipped and doesn't begin with `proc`.
#[tactic(auto, unfolding(crate::specs::Preambles::preamble_of))]
pub(crate) fn read_preamble<'a, A: Allocator + Copy>(
    alloc: A,
    text: &'a [u8],
) -> Result<Preamble<'a, A>, ScriptFault>
    ensures says { TellsScript as_preamble result (spec.preamble_of text.entry.now) }
    ensures numbered { IfOk result (λ p. p.line + size (option_map (λ t. t.now) p.left) ≤ SCRIPT_BYTES + 2) }
{
    if text.len() > SCRIPT_BYTES {
        return Err(ScriptFault::Size);
    }
    read_lines(alloc, text)
}
