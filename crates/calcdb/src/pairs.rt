//! Texts of pairs, which are loaded as opening images.

ghost use Rattle.std.specs.Prelude.{◌≡◌, ◌≢◌, ◌≤◌, IfErr, IfNone, IfOk, IfSome, Ok, Some, option_map};
ghost use Rattle.std.specs.FinMap as map;
ghost use Rattle.std.specs.Io.KnownBytes.{Appends};
ghost use Rattle.procedure.specs.Bytes.{Bytes};
ghost use Rattle.image.specs.declared.limits.TheConstants.{ENTRIES};
ghost use Rattle.calcdb.specs.LineByLine.{TellsScript};
ghost use Rattle.calcdb.specs.Lines.{words};
ghost use Rattle.calcdb.specs.Output.{header_line};
ghost use Rattle.calcdb.specs.Pairs as spec;
ghost use Rattle.calcdb.specs.Pairs.{EndsLoad, image_of_pairs};
ghost use Rattle.calcdb.specs.inside.ListedPairs as listed;
ghost use Rattle.calcdb.specs.Reads.{ReadsAs};
ghost use Rattle.calcdb.specs.declared.faults.Fault.TheVariants as fault;

use crate::faults::misreads::Misread;
use crate::faults::refusals::{refuse, with_header};
use crate::faults::unread::Unread;
use crate::faults::{Fault, Reason};
use crate::line_by_line::{LineReader, read_lines};
use crate::lines::{end_of, is_allowed, is_skipped, word_at};
use crate::scripts::{SCRIPT_BYTES, ScriptFault};
use crate::values::{held_of, key_of};
use image::limits::ENTRIES;
use image::{Entry, Image, Kind, OpeningError};
use procedure::streams::{self, read_past};
use procedure::{Key, KeyMap, NoMemory, Table, Value};
use std::alloc::Allocator;
use std::io::{Read, Write};
use std::marker::Model;

/// The key and the value that a line is.
#[tactic(auto, unfolding(crate::specs::Pairs::pair_of))]
#[inline(always)]
fn pair_of<A: Allocator + Clone>(alloc: A, line: &[u8]) -> Result<(Key, Value<A>), Unread>
    ensures { ReadsAs (λ p. (p.0, p.1)) result (spec.pair_of (words line.now)) }
{
    let (first, rest) = word_at(line)?;
    let key = key_of(alloc.clone()?, first)?;
    let (second, rest) = word_at(rest)?;
    let held = held_of(alloc, second)?;
    end_of(rest)?;
    Ok((key, held))
}

/// The pair that a line is; None of one that is skipped.
#[inline(always)]
fn pair_in<A: Allocator + Clone>(alloc: &A, line: &[u8]) -> Result<Option<(Key, Value<A>)>, Unread>
    ensures { ReadsAs (option_map (λ p. (p.0, p.1))) result (spec.pair_in line.now) }
{
    if !is_allowed(line) {
        return Err(Unread::Faulty(Misread::Byte));
    }
    if is_skipped(line) {
        return Ok(None);
    }
    Ok(Some(pair_of(alloc.clone()?, line)?))
}

/// The pairs that lines have said so far, and what the memory for more is taken from.
#[derive(Drop)]
struct Pairs<A: Allocator> {
    alloc: A,
    table: Table<A>,
}

impl<A: Allocator> Model for Pairs<A> {
    ghost use Rattle.procedure.specs.Table.{Table};
    ghost use Rattle.image.specs.Tables.{table_code};

    ghost Value = { Table };

    ghost coded = { table_code };

    ghost view = { λ p. p.table };
}

impl<A: Allocator + Clone> Pairs<A> {
    /// Adds a pair of a new key.
    fn add(&mut self, key: Key, held: Value<A>) -> Result<(), Unread>
        ensures { ReadsAs (λ _. self.new) result (spec.with_pair self.old (key, held)) }
    {
        if self.table.len() >= ENTRIES {
            return Err(Unread::Faulty(Misread::ManyPairs));
        }
        // A faulty text leaves no table, so the pair may go in before it is refused.
        match self.table.insert(key, held)? {
            None => Ok(()),
            Some(_before) => Err(Unread::Faulty(Misread::SameKey)),
        }
    }
}

impl<A: Allocator + Clone> LineReader for Pairs<A> {
    ghost after = { spec.table_after_line };

    fn read_line(&mut self, line: &[u8]) -> Result<(), Unread> {
        match pair_in(&self.alloc, line)? {
            Some((key, held)) => self.add(key, held),
            None => Ok(()),
        }
    }
}

/// The table of a text of at most 4,194,304 bytes, or its first faulty line.
#[tactic(auto, unfolding(crate::specs::Pairs::table_of_pairs))]
fn read_pairs<A: Allocator + Copy>(alloc: A, text: &[u8]) -> Result<Table<A>, ScriptFault>
    ensures value { TellsScript (λ t. t) result (spec.table_of_pairs text.now) }
    ensures few { IfOk result (λ t. map.len t ≤ ENTRIES) }
{
    if text.len() > SCRIPT_BYTES {
        return Err(ScriptFault::Size);
    }
    let mut said = Pairs {
        alloc,
        table: KeyMap::new(alloc),
    };
    read_lines(&mut said, 1, Some(text))?;
    let Pairs { alloc: _, table } = said;
    Ok(table)
}

/// The entries that lines have said so far, and what the memory for more is taken from.
#[derive(Drop)]
struct Listed<A: Allocator> {
    alloc: A,
    entries: Vec<Entry<A>, A>,
}

impl<A: Allocator> Model for Listed<A> {
    ghost use Rattle.std.specs.Prelude.{List};
    ghost use Rattle.image.specs.Images.{Entry};

    ghost Value = { List Entry };

    ghost view = { λ l. l.entries.items };
}

impl<A: Allocator + Clone> Listed<A> {
    /// Adds a pair.
    #[inline(always)]
    fn add(&mut self, key: Key, held: Value<A>) -> Result<(), Unread>
        ensures { ReadsAs (λ _. self.new) result (listed.with_pair self.old (key, held)) }
    {
        if self.entries.len() >= ENTRIES {
            return Err(Unread::Faulty(Misread::ManyPairs));
        }
        self.entries.push(Entry {
            key,
            cell: Some(held),
        })?;
        Ok(())
    }
}

impl<A: Allocator + Clone> LineReader for Listed<A> {
    ghost after = { listed.after_line };

    fn read_line(&mut self, line: &[u8]) -> Result<(), Unread> {
        match pair_in(&self.alloc, line)? {
            Some((key, held)) => self.add(key, held),
            None => Ok(()),
        }
    }
}

/// The opening image of a text of which no key stands twice. None of any other, and of one with a fault.
// Such a text needs no table: its entries are sorted in their place. Any other is read again.
fn read_distinct<A: Allocator + Copy>(alloc: A, text: &[u8]) -> Result<Option<Image<A>>, NoMemory>
    ensures image { IfOk result (λ read. IfSome read (λ i. image_of_pairs text.now ≡ Ok i)) }
    ensures none { IfOk result (λ read. IfNone read (listed.IsDistinct text.now → ⊥)) }
{
    if text.len() > SCRIPT_BYTES {
        return Ok(None);
    }
    let mut said = Listed {
        alloc,
        entries: Vec::new(alloc),
    };
    match read_lines(&mut said, 1, Some(text)) {
        Ok(()) => {}
        Err(ScriptFault::NoMemory) => return Err(NoMemory),
        Err(_) => return Ok(None),
    }
    let Listed { alloc: _, entries } = said;
    Ok(Image::captured(Kind::Full, 0, 0, 0, entries))
}

/// The opening image of the pairs of a text, by a table of them, or the text's first fault.
fn read_by_table<A: Allocator + Copy>(alloc: A, text: &[u8]) -> Result<Image<A>, ScriptFault>
    ensures { TellsScript (λ i. i) result (image_of_pairs text.now) }
{
    match Image::opening(alloc, read_pairs(alloc, text)?) {
        Ok(image) => Ok(image),
        Err(OpeningError::TooMany) => unreachable!(),
        Err(OpeningError::NoMemory) => Err(ScriptFault::NoMemory),
    }
}

/// The opening image of the pairs of a text.
fn read_image<A: Allocator + Copy>(alloc: A, text: &[u8]) -> Result<Image<A>, ScriptFault>
    ensures { TellsScript (λ i. i) result (image_of_pairs text.now) }
{
    match read_distinct(alloc, text) {
        Ok(Some(image)) => Ok(image),
        Ok(None) => read_by_table(alloc, text),
        Err(NoMemory) => Err(ScriptFault::NoMemory),
    }
}

/// Loads the pairs of a text.
fn load_text<W: Write, A: Allocator + Copy>(
    alloc: A,
    writer: &mut W,
    text: &[u8],
) -> Result<Image<A>, Fault>
    ensures ok { IfOk result (λ i. (image_of_pairs text.now ≡ Ok i) × Appends (W.contents writer.old) (W.contents writer.new) (header_line i)) }
    ensures err { IfErr result (λ f. EndsLoad (image_of_pairs text.now) (W.contents writer.old) (W.contents writer.new) f) }
    ensures unread { IfErr result (λ f. f ≢ fault.Read) }
{
    match read_image(alloc, text) {
        Ok(image) => with_header(alloc, writer, image),
        Err(fault) => Err(refuse(alloc, writer, Fault::from(fault))),
    }
}

/// Makes the opening image of the pairs that a reader gives, and writes its header line. Where the text
/// is faulty or there is no memory, one line says so and nothing else is written. A read or write that
/// fails, by an interruption too, and a write of no byte end it.
pub(crate) fn load<R: Read, W: Write, A: Allocator + Copy>(
    alloc: A,
    reader: &mut R,
    writer: &mut W,
) -> Result<Image<A>, Fault>
    // Where the reader tells its bytes: the image is that of their pairs, and its header was written.
    ensures image { IfOk result (λ i. (source : Bytes) → R.remaining reader.old ≡ Some source → (image_of_pairs source ≡ Ok i) × Appends (W.contents writer.old) (W.contents writer.new) (header_line i)) }
    // And else the one line of the fault, or a beginning of a line.
    ensures fault { IfErr result (λ f. (source : Bytes) → R.remaining reader.old ≡ Some source → EndsLoad (image_of_pairs source) (W.contents writer.old) (W.contents writer.new) f) }
{
    let text = match read_past(alloc, reader, SCRIPT_BYTES) {
        Ok(text) => text,
        Err(streams::Unread::ReadFault) => return Err(Fault::Read),
        Err(streams::Unread::NoMemory) => {
            let refused = Fault::Refused(Reason::NoMemory);
            return Err(refuse(alloc, writer, refused));
        }
    };
    load_text(alloc, writer, text.as_slice())
}
