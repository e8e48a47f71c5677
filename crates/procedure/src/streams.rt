//! Bytes that come from a reader, or go to a writer. A call that is interrupted is a failed one: no call
//! is tried again.

ghost use Rattle.std.specs.Prelude.{◌≡◌, ◌≤◌, [], IfOk, IsOk, OnErr, OnOk, length, Some};
ghost use Rattle.std.specs.Io.KnownBytes.{Appends, Consumes, IsAtEnd};
ghost use Rattle.procedure.specs.Streams.{IsBegun, write_error_text};
ghost use Rattle.procedure.specs.declared.streams.WriteError.TheVariants as write_refused;
ghost use Rattle.procedure.specs.declared.streams.Unread.TheVariants as unread;

use crate::memory::NoMemory;
use std::alloc::{AllocError, Allocator};
use std::error::Error;
use std::fmt;
use std::io::{Read, Write};

/// A write failed, or took no byte.
#[derive(Clone, Copy, Debug, PartialEq, Eq)]
pub struct WriteFault;

/// Why a text isn't written whole.
#[derive(Clone, Copy, Debug, PartialEq, Eq)]
pub enum WriteError {
    /// A write failed, or took no byte.
    WriteFault,
    NoMemory,
}

impl fmt::Display for WriteError {
    ghost output = { λ e. Some (write_error_text e) };

    fn fmt<W: fmt::Write>(&self, f: &mut fmt::Formatter<W>) -> fmt::Result {
        f.write_str(match self {
            WriteError::WriteFault => "write fault",
            WriteError::NoMemory => "no memory",
        })
    }
}

impl Error for WriteError {}

impl From<NoMemory> for WriteError {
    ghost from_gives = { λ _ e. e ≡ write_refused.NoMemory };

    fn from(_refused: NoMemory) -> Self {
        WriteError::NoMemory
    }
}

impl From<AllocError> for WriteError {
    ghost from_gives = { λ _ e. e ≡ write_refused.NoMemory };

    fn from(_refused: AllocError) -> Self {
        WriteError::NoMemory
    }
}

impl From<WriteFault> for WriteError {
    ghost from_gives = { λ _ e. e ≡ write_refused.WriteFault };

    fn from(_refused: WriteFault) -> Self {
        WriteError::WriteFault
    }
}

/// Why a text isn't read.
#[derive(Clone, Copy, Debug, PartialEq, Eq)]
pub enum Unread {
    /// A read failed.
    ReadFault,
    NoMemory,
}

impl From<AllocError> for Unread {
    ghost from_gives = { λ _ e. e ≡ unread.NoMemory };

    fn from(_refused: AllocError) -> Self {
        Unread::NoMemory
    }
}

/// Writes all of the bytes. The first write that fails ends it, and then a beginning of them went out.
/// Where there are none, nothing is written, and nothing fails.
pub fn write_out<W: Write>(writer: &mut W, bytes: &[u8]) -> Result<(), WriteFault>
    ensures ok { OnOk result (Appends (W.contents writer.old) (W.contents writer.new) bytes.now) }
    ensures err { OnErr result (IsBegun (W.contents writer.old) (W.contents writer.new) bytes.now) }
    ensures nothing { bytes.now ≡ [] → IsOk result }
{
    let mut rest = bytes;
    while !rest.is_empty() {
        let taken = match writer.write(rest) {
            Ok(taken) => taken,
            Err(_) => return Err(WriteFault),
        };
        if taken == 0 {
            return Err(WriteFault);
        }
        let (_taken, left) = rest.split_at(taken);
        rest = left;
    }
    Ok(())
}

/// What one read takes at most.
const CHUNK: usize = 65_536;

/// Reads to the end of the reader, or until the text has more than `most` bytes. The first read that
/// fails ends it.
pub fn read_past<R: Read, A: Allocator>(
    alloc: A,
    reader: &mut R,
    most: usize,
) -> Result<Vec<u8, A>, Unread>
    ensures read { IfOk result (λ text. Consumes (R.remaining reader.old) (R.remaining reader.new) text.items) }
    ensures end { IfOk result (λ text. length text.items ≤ most → IsAtEnd (R.remaining reader.new)) }
{
    let mut text = Vec::new(alloc);
    let mut chunk = [0; CHUNK];
    while text.len() <= most {
        let taken = match reader.read(&mut chunk) {
            Ok(taken) => taken,
            Err(_) => return Err(Unread::ReadFault),
        };
        if taken == 0 {
            return Ok(text);
        }
        text.extend_from_slice(&chunk[..taken])?;
    }
    Ok(text)
}

/// Reads to the end of the reader.
pub fn read_all<R: Read, A: Allocator>(alloc: A, reader: &mut R) -> Result<Vec<u8, A>, Unread>
    ensures read { IfOk result (λ text. Consumes (R.remaining reader.old) (R.remaining reader.new) text.items) }
    ensures end { OnOk result (IsAtEnd (R.remaining reader.new)) }
{
    read_past(alloc, reader, usize::MAX)
}
