//! A log that goes to a writer record by record, while the calls are made.

ghost use Rattle.std.specs.Prelude.{◌≡◌, ◌++◌, ◌∷◌, [], IfErr, IfOk, IsErr, List, OnErr, OnOk, Option, true};
ghost use Rattle.std.specs.Io.KnownBytes.{Appends, Keeps};
ghost use Rattle.sha2.specs.Hashers.{Holds256};
ghost use Rattle.procedure.specs.Bytes.{Bytes};
ghost use Rattle.procedure.specs.Streams.{IsBegun};
ghost use Rattle.commitlog.specs.Records.{Record as SpecRecord};
ghost use Rattle.commitlog.specs.LogBytes.{log_header_bytes, next_digest, record_bytes};
ghost use Rattle.commitlog.specs.LogWriters.{HasSent, HasStopped};
ghost use Rattle.commitlog.specs.Pieces.{Sends};
ghost use Rattle.commitlog.specs.declared.formats.LogHeader.{LogHeader as SpecHeader};
ghost use Rattle.commitlog.specs.declared.formats.Version.TheVariants.{Two};

use crate::body_writing::write_body;
use crate::encoding::body_length;
use crate::formats::{LogHeader, Version};
use crate::pieces::Pieces;
use crate::records::Record;
use byteorder::{BigEndian, ByteOrder};
use procedure::streams::{WriteFault, write_out};
use sha2::{Digest, Sha256};
use std::alloc::Allocator;
use std::io::Write;
use std::marker::Model;

/// A writer, and a hasher of the pieces that it takes. Once a write has failed nothing more goes out.
#[derive(Drop)]
struct Tap<W: Write + Drop> {
    writer: W,
    hasher: Sha256,
    is_faulty: bool,
}

impl<W: Write + Drop> Pieces for Tap<W> {
    ghost use Rattle.commitlog.specs.LogWriters.{Passes, passes_more, passes_nothing};

    ghost Takes = { λ old new x. Passes (W.contents old.writer) (W.contents new.writer) old new x };

    ghost nothing = { λ a. passes_nothing (W.contents a.writer) a };

    ghost more = { λ a b c x y f g. passes_more (W.contents a.writer) (W.contents b.writer) (W.contents c.writer) a b c x y f g };

    fn take(&mut self, bytes: &[u8]) {
        self.hasher.update(bytes);
        self.send(bytes);
    }
}

impl<W: Write + Drop> Tap<W> {
    fn new(writer: W) -> Self
        ensures writer { W.contents result.writer ≡ W.contents writer }
        ensures empty { Holds256 result.hasher [] }
    {
        Tap {
            writer,
            hasher: Sha256::new(),
            is_faulty: false,
        }
    }

    /// Writes bytes that aren't hashed.
    fn send(&mut self, bytes: &[u8])
        ensures sent { Sends (W.contents self.old.writer) (W.contents self.new.writer) self.old.is_faulty self.new.is_faulty bytes.now }
        ensures hasher { self.new.hasher ≡ self.old.hasher }
    {
        if !self.is_faulty {
            self.is_faulty = write_out(&mut self.writer, bytes).is_err();
        }
    }

    /// Has the writer keep nothing back.
    fn flush(&mut self)
        ensures { Sends (W.contents self.old.writer) (W.contents self.new.writer) self.old.is_faulty self.new.is_faulty [] }
    {
        if !self.is_faulty {
            self.is_faulty = self.writer.flush().is_err();
        }
    }

    /// Writes a record after the digest of those before it, and returns its own.
    fn send_record<A: Allocator>(&mut self, digest: &[u8; 32], record: &Record<A>) -> [u8; 32]
        ensures sent { Sends (W.contents self.old.writer) (W.contents self.new.writer) self.old.is_faulty self.new.is_faulty (record_bytes digest.now «record».now) }
        ensures digest { result ≡ next_digest digest.now «record».now }
    {
        let mut length = [0u8; 4];
        BigEndian::write_u32(&mut length, body_length(record) as u32);
        self.send(&length);
        self.hasher = Sha256::new_with_prefix(digest.as_slice());
        write_body(self, record);
        let digest = self.hasher.finalize_reset();
        self.send(&digest);
        self.flush();
        digest
    }
}

/// A log in version 2 that goes to a writer record by record. It takes no memory. Each record is with the
/// writer, which was told to keep nothing back, when `append` returns; how safe it is then depends on the
/// writer. After the first write that fails the log is no longer written: what went out is a front of the
/// log's bytes, and is read again as any front of them is.
///
/// Contracts see what the writer holds, the digest that the next record is chained to, and whether a write
/// has failed.
#[derive(Drop)]
pub struct LogWriter<W: Write + Drop> {
    tap: Tap<W>,
    digest: [u8; 32],
}

impl<W: Write + Drop> Model for LogWriter<W> {
    ghost use Rattle.commitlog.specs.LogWriters.{Sent};

    ghost Value = { Sent };

    ghost view = { λ l. record { bytes = W.contents l.tap.writer; digest = l.digest; is_faulty = l.tap.is_faulty } };
}

impl<W: Write + Drop> LogWriter<W> {
    /// Writes the header of a log. Where it can't be written the writer comes back, with a beginning of it.
    pub fn new(writer: W, header: &LogHeader) -> Result<Self, W>
        ensures ok { IfOk result (λ log. HasSent (W.contents writer) log header.now []) }
        ensures err { IfErr result (λ back. IsBegun (W.contents writer) (W.contents back) (log_header_bytes Two header.now)) }
    {
        let mut tap = Tap::new(writer);
        tap.take(&Version::Two.magic());
        tap.take(&header.catalog);
        tap.take(&header.opening);
        let digest = tap.hasher.finalize_reset();
        tap.flush();
        if tap.is_faulty {
            return Err(tap.writer);
        }
        Ok(LogWriter { tap, digest })
    }

    /// Writes a record. An error tells that a write failed, now or before.
    pub fn append<A: Allocator>(&mut self, record: &Record<A>) -> Result<(), WriteFault>
        ensures ok { (start : Option Bytes) (h : SpecHeader) (rs : List SpecRecord) → HasSent start self.old h rs → OnOk result (HasSent start self.new h (rs ++ «record».now ∷ [])) }
        // Those before it are there whole, and of this one a beginning.
        ensures err { (start : Option Bytes) (h : SpecHeader) (rs : List SpecRecord) → HasSent start self.old h rs → OnErr result (HasStopped start self.new h rs («record».now ∷ [])) }
        ensures stopped { self.old.is_faulty ≡ true → IsErr result × (self.new.is_faulty ≡ true) × Keeps self.old.bytes self.new.bytes }
    {
        let digest = self.tap.send_record(&self.digest, record);
        if self.tap.is_faulty {
            return Err(WriteFault);
        }
        self.digest = digest;
        Ok(())
    }

    /// Writes records one after another, up to the first write that fails (`WriteFault`). What was sent is then
    /// a beginning of the log with all of them, and nothing more is.
    pub fn append_all<A: Allocator>(&mut self, records: &[Record<A>]) -> Result<(), WriteFault>
        ensures ok { (start : Option Bytes) (h : SpecHeader) (rs : List SpecRecord) → HasSent start self.old h rs → OnOk result (HasSent start self.new h (rs ++ records.now)) }
        ensures err { (start : Option Bytes) (h : SpecHeader) (rs : List SpecRecord) → HasSent start self.old h rs → OnErr result (HasStopped start self.new h rs records.now) }
    {
        for record in records {
            self.append(record)?;
        }
        Ok(())
    }

    /// The writer, such as a file that is to be put on disk.
    pub fn writer(&self) -> &W
        ensures { W.contents result.now ≡ self.now.bytes }
    {
        &self.tap.writer
    }

    /// The writer, with all that was sent to it.
    pub fn into_writer(self) -> W
        ensures { W.contents result ≡ self.bytes }
    {
        let LogWriter { tap, .. } = self;
        tap.writer
    }
}
