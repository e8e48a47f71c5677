//! Logs that go to a writer, and come from a reader.

ghost use Rattle.std.specs.Prelude.{◌≡◌, ◌≤◌, ℕ, Err, IfErr, IfOk, Some, OnErr, OnOk, length};
ghost use Rattle.std.specs.List.{AllByRecursion};
ghost use Rattle.std.specs.Io.KnownBytes.{Appends, Consumes, IsAtEnd};
ghost use Rattle.commitlog.specs.declared.limits.TheConstants.{LOG_RECORDS};
ghost use Rattle.commitlog.specs.declared.formats.Version.TheVariants.{Two};
ghost use Rattle.procedure.specs.declared.streams.WriteError.TheVariants as write_refused;
ghost use Rattle.commitlog.specs.LogBytes.{Fits, log_bytes, next_digest, record_bytes, records_bytes};
ghost use Rattle.procedure.specs.Bytes.{Bytes};
ghost use Rattle.commitlog.specs.LogReadings.{Damaged, IsReading, NotALog, Reading};
ghost use Rattle.commitlog.specs.StoredLogs.{reading_of};
ghost use Rattle.commitlog.specs.declared.decoding.LogError.TheVariants as refused;
ghost use Rattle.commitlog.specs.declared.streams.ReadError.TheVariants as read_refused;
ghost use Rattle.procedure.specs.Streams.{IsBegun};
ghost use Rattle.commitlog.specs.Streams.{IsAnswerFrom, ReadsAs, TellsFrom, log_read_error_text, unread_as};

use crate::decoding::{LogError, StoredLog, read_whole};
use crate::encoding::{longest_body, write_header, write_record};
use crate::formats::{LogHeader, Version};
use crate::records::Record;
pub use procedure::streams::WriteError;
use procedure::streams::{Unread, read_all, write_out};
use sha2::{Digest, Sha256};
use std::alloc::{AllocError, Allocator};
use std::error::Error;
use std::fmt;
use std::io::{Read, Write};

/// Why a log isn't read.
#[derive(Clone, Copy, Debug, PartialEq, Eq)]
pub enum ReadError {
    /// A read failed.
    ReadFault,
    /// All was read, and isn't a log; or there was no memory.
    Log(LogError),
}

impl fmt::Display for ReadError {
    ghost output = { λ e. Some (log_read_error_text e) };

    fn fmt<W: fmt::Write>(&self, f: &mut fmt::Formatter<W>) -> fmt::Result {
        match self {
            ReadError::ReadFault => write!(f, "read fault"),
            ReadError::Log(refused) => write!(f, "{refused}"),
        }
    }
}

impl Error for ReadError {}

impl From<Unread> for ReadError {
    ghost from_gives = { λ u e. e ≡ unread_as u };

    fn from(unread: Unread) -> Self {
        match unread {
            Unread::ReadFault => ReadError::ReadFault,
            Unread::NoMemory => ReadError::Log(LogError::NoMemory),
        }
    }
}

impl From<AllocError> for ReadError {
    ghost from_gives = { λ _ e. e ≡ read_refused.Log refused.NoMemory };

    fn from(_refused: AllocError) -> Self {
        ReadError::Log(LogError::NoMemory)
    }
}

/// Writes a record by way of the buffer, and returns its digest.
fn write_out_record<W: Write, A: Allocator>(
    writer: &mut W,
    buffer: &mut Vec<u8, A>,
    digest: &[u8; 32],
    record: &Record<A>,
) -> Result<[u8; 32], WriteError>
    ensures ok { OnOk result (Appends (W.contents writer.old) (W.contents writer.new) (record_bytes digest.now «record».now)) }
    ensures err { OnErr result (IsBegun (W.contents writer.old) (W.contents writer.new) (record_bytes digest.now «record».now)) }
    ensures digest { IfOk result (λ d. d ≡ next_digest digest.now «record».now) }
    ensures memory { result ≡ Err write_refused.NoMemory → W.contents writer.new ≡ W.contents writer.old }
{
    buffer.clear();
    let digest = write_record(buffer, digest, record)?;
    write_out(writer, buffer.as_slice())?;
    Ok(digest)
}

fn write_out_records<W: Write, A: Allocator>(
    writer: &mut W,
    buffer: &mut Vec<u8, A>,
    digest: [u8; 32],
    records: &[Record<A>],
) -> Result<(), WriteError>
    ensures ok { OnOk result (Appends (W.contents writer.old) (W.contents writer.new) (records_bytes digest records.now)) }
    ensures err { OnErr result (IsBegun (W.contents writer.old) (W.contents writer.new) (records_bytes digest records.now)) }
{
    let mut digest = digest;
    for record in records {
        digest = write_out_record(writer, buffer, &digest, record)?;
    }
    Ok(())
}

/// Writes a log in version 2, a record at a time, as `encode` makes its bytes. It keeps the bytes of one
/// record in memory. After an error, what went out is a beginning of the log's bytes, and is read again as
/// any front of them is.
pub fn encode_to<W: Write, A: Allocator>(
    alloc: A,
    writer: &mut W,
    header: &LogHeader,
    records: &[Record<A>],
) -> Result<(), WriteError>
    requires { length records.now ≤ LOG_RECORDS }
    ensures ok { OnOk result (Appends (W.contents writer.old) (W.contents writer.new) (log_bytes Two header.now records.now)) }
    ensures err { OnErr result (IsBegun (W.contents writer.old) (W.contents writer.new) (log_bytes Two header.now records.now)) }
    ensures fits { AllByRecursion (Fits Two) records.now }
{
    let mut buffer = Vec::new(alloc);
    // Room for the longest record at once.
    buffer.reserve(4 + longest_body(records) + 32)?;
    write_header(&mut buffer, Version::Two, header)?;
    let digest = Sha256::digest(buffer.as_slice());
    write_out(writer, buffer.as_slice())?;
    write_out_records(writer, &mut buffer, digest, records)
}

fn answer_from<R: Read, A: Allocator + Clone>(
    alloc: A,
    reader: &mut R,
) -> Result<StoredLog<A>, ReadError>
    ensures { IsAnswerFrom (R.remaining reader.old) (R.remaining reader.new) result }
{
    let text = read_all(alloc.clone()?, reader)?;
    match read_whole(&alloc, text.as_slice()) {
        Ok(log) => Ok(log),
        Err(refused) => Err(ReadError::Log(refused)),
    }
}

/// Reads a log as `read_log` reads all that the reader gives.
pub fn read_log_from<R: Read, A: Allocator + Clone>(
    alloc: A,
    reader: &mut R,
) -> Result<StoredLog<A>, ReadError>
    ensures read { IfOk result (λ log. ReadsAs (R.remaining reader.old) (R.remaining reader.new) (reading_of log)) }
    ensures not_a_log { result ≡ Err (read_refused.Log refused.NotALog) → ReadsAs (R.remaining reader.old) (R.remaining reader.new) NotALog }
    ensures damaged { (i : ℕ) → result ≡ Err (read_refused.Log (refused.Damaged i)) → ReadsAs (R.remaining reader.old) (R.remaining reader.new) (Damaged i) }
    // Where the bytes are known, their one reading is answered unless a read fails or memory runs out.
    ensures only { (text : Bytes) (r : Reading) → R.remaining reader.old ≡ Some text → IsReading text r → TellsFrom result r }
{
    answer_from(alloc, reader)
}
