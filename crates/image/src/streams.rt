//! Images that go to a writer, and come from a reader.

ghost use Rattle.std.specs.Prelude.{◌≡◌, ◌≤◌, ◌+◌, Err, IfErr, IfOk, OnErr, OnOk, Some, length};
ghost use Rattle.std.specs.List.{AllByRecursion};
ghost use Rattle.std.specs.Vec.{vec_capacity};
ghost use Rattle.std.specs.Io.KnownBytes.{Appends, Consumes, IsAtEnd};
ghost use Rattle.std.specs.declared.result.Result.{Result};
ghost use Rattle.procedure.specs.Bytes.{Bytes};
ghost use Rattle.procedure.specs.declared.limits.TheConstants.{KEY_BYTES, VALUE_BYTES};
ghost use Rattle.image.specs.declared.limits.TheConstants.{BLOCK};
ghost use Rattle.image.specs.EntryBytes.{entry_bytes};
ghost use Rattle.image.specs.Images.{Image as SpecImage};
ghost use Rattle.image.specs.ImageBytes.{IsWithin, IsWritable, block_bytes, block_count, block_digest, blocks_bytes, entries_bytes, version_2};
ghost use Rattle.image.specs.Refusals.{IsAnswer};
ghost use Rattle.image.specs.declared.errors.ReadError.{ReadError as SpecReadError};
ghost use Rattle.procedure.specs.declared.streams.WriteError.TheVariants as write_refused;
ghost use Rattle.procedure.specs.Streams.{IsBegun};
ghost use Rattle.image.specs.Streams.{BlocksFit, IsAnswerFrom, TellsFrom, read_from_error_text, unread_as};
ghost use Rattle.image.specs.declared.errors.ReadError.TheVariants as refused;
ghost use Rattle.image.specs.declared.streams.ReadFromError.TheVariants as read_refused;

use crate::entries::Entry;
use crate::errors::ReadError;
use crate::images::Image;
use crate::reading::read_image;
use crate::sealing::{first_block, write_block, write_signed_header};
pub use procedure::streams::WriteError;
use procedure::streams::{Unread, read_all, write_out};
use std::alloc::{AllocError, Allocator};
use std::error::Error;
use std::fmt;
use std::io::{Read, Write};

/// Why an image isn't read from a reader.
#[derive(Clone, Copy, Debug, PartialEq, Eq)]
pub enum ReadFromError {
    /// A read failed.
    ReadFault,
    /// All was read, and isn't an image; or there was no memory.
    Image(ReadError),
}

impl fmt::Display for ReadFromError {
    ghost output = { λ e. Some (read_from_error_text e) };

    fn fmt<W: fmt::Write>(&self, f: &mut fmt::Formatter<W>) -> fmt::Result {
        match self {
            ReadFromError::ReadFault => write!(f, "read fault"),
            ReadFromError::Image(refused) => write!(f, "{refused}"),
        }
    }
}

impl Error for ReadFromError {}

impl From<Unread> for ReadFromError {
    ghost from_gives = { λ u e. e ≡ unread_as u };

    fn from(unread: Unread) -> Self {
        match unread {
            Unread::ReadFault => ReadFromError::ReadFault,
            Unread::NoMemory => ReadFromError::Image(ReadError::NoMemory),
        }
    }
}

impl From<AllocError> for ReadFromError {
    ghost from_gives = { λ _ e. e ≡ read_refused.Image refused.NoMemory };

    fn from(_refused: AllocError) -> Self {
        ReadFromError::Image(ReadError::NoMemory)
    }
}

/// How many bytes an entry has: its key, its value, and four for their lengths and the tag.
fn entry_length<A: Allocator>(entry: &Entry<A>) -> usize
    ensures value { result ≡ length (entry_bytes entry.now) }
    ensures most { result ≤ KEY_BYTES + VALUE_BYTES + 4 }
{
    let cell = match &entry.cell {
        None => 1,
        Some(value) => 3 + value.as_bytes().len(),
    };
    1 + entry.key.as_bytes().len() + cell
}

/// How many bytes a block has with its digest.
fn block_length<A: Allocator>(entries: &[Entry<A>]) -> usize
    requires { length entries.now ≤ BLOCK }
    ensures { result ≡ length (entries_bytes entries.now) + 32 }
{
    let mut length = 32;
    for entry in entries {
        length += entry_length(entry);
    }
    length
}

/// How many bytes the longest block has with its digest.
fn longest_block<A: Allocator>(entries: &[Entry<A>]) -> usize
    ensures { BlocksFit result (block_count (length entries.now)) entries.now }
{
    let mut longest: usize = 0;
    let mut rest = entries;
    while !rest.is_empty() {
        let (block, after) = first_block(rest);
        longest = longest.max(block_length(block));
        rest = after;
    }
    longest
}

/// Writes a block by way of the buffer, which has room for it, and returns its digest.
fn write_out_block<W: Write, A: Allocator, B: Allocator>(
    writer: &mut W,
    buffer: &mut Vec<u8, B>,
    before: &[u8; 32],
    entries: &[Entry<A>],
) -> Result<[u8; 32], WriteError>
    requires { length (entries_bytes entries.now) + 32 ≤ vec_capacity buffer.old }
    ensures ok { OnOk result (Appends (W.contents writer.old) (W.contents writer.new) (block_bytes before.now entries.now)) }
    ensures err { OnErr result (IsBegun (W.contents writer.old) (W.contents writer.new) (block_bytes before.now entries.now)) }
    ensures fault { IfErr result (λ e. e ≡ write_refused.WriteFault) }
    ensures digest { IfOk result (λ d. d ≡ block_digest before.now entries.now) }
    ensures fits { OnOk result (AllByRecursion (IsWithin VALUE_BYTES) entries.now) }
    ensures capacity { vec_capacity buffer.old ≤ vec_capacity buffer.new }
{
    buffer.clear();
    let digest = write_block(buffer, before, entries)?;
    write_out(writer, buffer.as_slice())?;
    Ok(digest)
}

/// Writes blocks by way of the buffer, which has room for each of them.
fn write_out_blocks<W: Write, A: Allocator, B: Allocator>(
    writer: &mut W,
    buffer: &mut Vec<u8, B>,
    before: [u8; 32],
    entries: &[Entry<A>],
) -> Result<(), WriteError>
    requires { BlocksFit (vec_capacity buffer.old) (block_count (length entries.now)) entries.now }
    ensures ok { OnOk result (Appends (W.contents writer.old) (W.contents writer.new) (blocks_bytes (block_count (length entries.now)) before entries.now)) }
    ensures err { OnErr result (IsBegun (W.contents writer.old) (W.contents writer.new) (blocks_bytes (block_count (length entries.now)) before entries.now)) }
    ensures fault { IfErr result (λ e. e ≡ write_refused.WriteFault) }
    ensures fits { OnOk result (AllByRecursion (IsWithin VALUE_BYTES) entries.now) }
{
    let mut digest = before;
    let mut rest = entries;
    while !rest.is_empty() {
        let (block, after) = first_block(rest);
        digest = write_out_block(writer, buffer, &digest, block)?;
        rest = after;
    }
    Ok(())
}

/// Writes an image in version 2, a block at a time, as `seal` makes its bytes. After an error, what went
/// out is a beginning of them; memory for the longest block is taken first, so that after `NoMemory`
/// nothing went out.
#[tactic(auto, using(crate::proofs::Written::never_ok))]
pub fn seal_to<W: Write, A: Allocator>(
    alloc: A,
    writer: &mut W,
    image: &Image<A>,
) -> Result<(), WriteError>
    ensures ok { OnOk result (Appends (W.contents writer.old) (W.contents writer.new) (version_2 image.now)) }
    ensures err { OnErr result (IsBegun (W.contents writer.old) (W.contents writer.new) (version_2 image.now)) }
    ensures memory { result ≡ Err write_refused.NoMemory → W.contents writer.new ≡ W.contents writer.old }
    ensures fits { OnOk result (IsWritable VALUE_BYTES image.now) }
{
    let mut buffer = Vec::with_capacity(alloc, longest_block(image.entries()))?;
    let digest = write_signed_header(&mut buffer, image)?;
    write_out(writer, buffer.as_slice())?;
    write_out_blocks(writer, &mut buffer, digest, image.entries())
}

/// Reads an image as `read_image` reads all that the reader gives.
pub fn read_from<R: Read, A: Allocator + Clone>(
    alloc: A,
    reader: &mut R,
) -> Result<Image<A>, ReadFromError>
    ensures answer { IsAnswerFrom (R.remaining reader.old) (R.remaining reader.new) result }
    // Where the bytes are known, their one answer is given unless a read fails or memory runs out.
    ensures exact { (text : Bytes) (answer : Result SpecImage SpecReadError) → R.remaining reader.old ≡ Some text → IsAnswer text answer → TellsFrom result answer }
{
    let text = read_all(alloc.clone()?, reader)?;
    match read_image(alloc, text.as_slice()) {
        Ok(image) => Ok(image),
        Err(refused) => Err(ReadFromError::Image(refused)),
    }
}
