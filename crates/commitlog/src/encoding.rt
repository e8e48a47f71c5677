//! Logs written as bytes.

ghost use Rattle.std.specs.Prelude.{◌≡◌, ◌≢◌, Err, ◌*◌, ◌≤◌, ◌<◌, ◌↔◌, ◌++◌, IfOk, IsTrue, OnOk, length, Some};
ghost use Rattle.std.specs.List.{AllByRecursion, flat_map};
ghost use Rattle.byteorder.specs.Endian.{big_bytes};
ghost use Rattle.procedure.specs.declared.limits.TheConstants.{ARGUMENTS};
ghost use Rattle.commitlog.specs.declared.limits.TheConstants.{BODY_BYTES, LOG_RECORDS, REPLIES};
ghost use Rattle.commitlog.specs.declared.formats.Version.TheVariants.{One, Two};
ghost use Rattle.sha2.specs.Sha256.{sha256};
ghost use Rattle.commitlog.specs.Records.{IsInRange, Token, call_of};
ghost use Rattle.commitlog.specs.declared.encoding.EncodeError.TheVariants as refused;
ghost use Rattle.commitlog.specs.LogBytes.{Fits, IsReply, IsValue, IsWithin, answer_bytes, arguments_bytes, body, call_head, first_digest, log_header_bytes, log_bytes, next_digest, phase_code, record_bytes, records_bytes, reply_bytes, value_bytes};
ghost use Rattle.commitlog.specs.LogTexts.{encode_error_text};

use crate::body_writing::write_body;
use crate::formats::{LogHeader, Version};
use crate::limits::VALUE_BYTES_V1;
use crate::records::{Entry, Record};
use procedure::bytes::{chained_digest, write_u32};
use procedure::{Call, NoMemory, Sequence, Value};
use sha2::{Digest, Sha256};
use std::alloc::{AllocError, AllocFailed, Allocator};
use std::error::Error;
use std::fmt;

/// Why a log isn't written in version 1.
#[derive(Clone, Copy, Debug, PartialEq, Eq)]
pub enum EncodeError {
    /// An argument or reply has over 256 bytes.
    TooLarge,
    NoMemory,
}

impl fmt::Display for EncodeError {
    ghost output = { λ e. Some (encode_error_text e) };

    fn fmt<W: fmt::Write>(&self, f: &mut fmt::Formatter<W>) -> fmt::Result {
        f.write_str(match self {
            EncodeError::TooLarge => "too large",
            EncodeError::NoMemory => "no memory",
        })
    }
}

impl Error for EncodeError {}

impl From<NoMemory> for EncodeError {
    ghost from_gives = { λ _ e. e ≡ refused.NoMemory };

    fn from(_refused: NoMemory) -> Self {
        EncodeError::NoMemory
    }
}

/// The bytes of arguments.
fn values_length<A: Allocator>(values: &[Value<A>]) -> usize
    requires { length values.now ≤ ARGUMENTS }
    ensures length { result ≡ length (flat_map value_bytes values.now) }
    ensures fits { AllByRecursion (IsValue Two) values.now }
    ensures most { result ≤ 8 * 65_537 }
{
    let mut total = 0;
    for value in values {
        total += 2 + value.as_bytes().len();
    }
    total
}

fn reply_length<A: Allocator>(reply: &Option<Value<A>>) -> usize
    ensures length { result ≡ length (reply_bytes reply.now) }
    ensures fits { IsReply Two reply.now }
    ensures most { result ≤ 65_538 }
{
    match reply {
        None => 1,
        Some(value) => 3 + value.as_bytes().len(),
    }
}

/// The bytes of replies.
fn replies_length<A: Allocator>(replies: &[Option<Value<A>>]) -> usize
    requires { length replies.now ≤ REPLIES }
    ensures length { result ≡ length (flat_map reply_bytes replies.now) }
    ensures fits { AllByRecursion (IsReply Two) replies.now }
    ensures most { result ≤ 64 * 65_538 }
{
    let mut total = 0;
    for reply in replies {
        total += reply_length(reply);
    }
    total
}

/// The bytes of a record's body.
pub(crate) fn body_length<A: Allocator>(record: &Record<A>) -> usize
    ensures length { result ≡ length (body «record».now) }
    ensures fits { Fits Two «record».now }
    ensures most { result ≤ BODY_BYTES }
{
    match record.entry() {
        Entry::Token { number, .. } => {
            // Read, it is known to be below 2^64, as its 8 bytes need.
            let _number = *number;
            10
        }
        Entry::Call {
            call,
            outcome,
            replies,
        } => call_length(call, *outcome, replies.as_slice()),
    }
}

fn call_length<A: Allocator>(call: &Call<A>, outcome: u8, replies: &[Option<Value<A>>]) -> usize
    requires arguments { length call.now.args ≤ ARGUMENTS }
    requires replies { length replies.now ≤ REPLIES }
    ensures length { result ≡ length (body (call_of call.now outcome replies.now)) }
    ensures fits { IsWithin Two (call_of call.now outcome replies.now) }
    ensures most { result ≤ BODY_BYTES }
{
    // Read, it is known to be below 2^64, as its 8 bytes need.
    let _number = call.number;
    16 + values_length(call.args.as_slice()) + replies_length(replies)
}

/// The bytes of the longest body.
pub(crate) fn longest_body<A: Allocator>(records: &[Record<A>]) -> usize
    ensures longest { AllByRecursion (λ r. length (body r) ≤ result) records.now }
    ensures fits { AllByRecursion (Fits Two) records.now }
    ensures most { result ≤ BODY_BYTES }
{
    let mut longest = 0;
    for record in records {
        let length = body_length(record);
        if longest < length {
            longest = length;
        }
    }
    longest
}

/// Writes a record after the digest of those before it, and returns its own. Room is made before.
pub(crate) fn write_record<A: Allocator>(
    out: &mut Vec<u8, A>,
    digest: &[u8; 32],
    record: &Record<A>,
) -> Result<[u8; 32], NoMemory>
    ensures bytes { OnOk result (out.new.items ≡ out.old.items ++ record_bytes digest.now «record».now) }
    ensures digest { IfOk result (λ d. d ≡ next_digest digest.now «record».now) }
    ensures fits { Fits Two «record».now }
{
    let length = body_length(record);
    out.reserve(4 + length + 32)?;
    write_u32(out, length as u32)?;
    let start = out.len();
    write_body(out, record);
    // Room was made for it. A piece that found none would be missing.
    if out.len() < start + length {
        return Err(NoMemory);
    }
    let digest = chained_digest(digest, &out[start..]);
    out.extend_from_slice(&digest)?;
    Ok(digest)
}

fn write_records<A: Allocator>(
    out: &mut Vec<u8, A>,
    digest: [u8; 32],
    records: &[Record<A>],
) -> Result<(), NoMemory>
    ensures bytes { OnOk result (out.new.items ≡ out.old.items ++ records_bytes digest records.now) }
    ensures fits { OnOk result (AllByRecursion (Fits Two) records.now) }
{
    let mut digest = digest;
    for record in records {
        digest = write_record(out, &digest, record)?;
    }
    Ok(())
}

pub(crate) fn write_header<A: Allocator>(
    out: &mut Vec<u8, A>,
    version: Version,
    header: &LogHeader,
) -> Result<(), NoMemory>
    ensures { OnOk result (out.new.items ≡ out.old.items ++ log_header_bytes version header.now) }
{
    out.extend_from_slice(&version.magic())?;
    out.extend_from_slice(&header.catalog)?;
    out.extend_from_slice(&header.opening)?;
    Ok(())
}

fn write_log<A: Allocator>(
    alloc: A,
    version: Version,
    header: &LogHeader,
    records: &[Record<A>],
) -> Result<Sequence<u8, A>, NoMemory>
    ensures bytes { IfOk result (λ bytes. bytes ≡ log_bytes version header.now records.now) }
    ensures fits { OnOk result (AllByRecursion (Fits Two) records.now) }
{
    let mut out = Vec::new(alloc);
    write_header(&mut out, version, header)?;
    let digest = Sha256::digest(out.as_slice());
    write_records(&mut out, digest, records)?;
    Ok(Sequence::new(out))
}

fn are_small<A: Allocator>(values: &[Value<A>]) -> bool
    ensures { IsTrue result ↔ AllByRecursion (IsValue One) values.now }
{
    for value in values {
        if value.as_bytes().len() > VALUE_BYTES_V1 {
            return false;
        }
    }
    true
}

fn is_small_reply<A: Allocator>(reply: &Option<Value<A>>) -> bool
    ensures { IsTrue result ↔ IsReply One reply.now }
{
    match reply {
        None => true,
        Some(value) => value.as_bytes().len() <= VALUE_BYTES_V1,
    }
}

fn are_small_replies<A: Allocator>(replies: &[Option<Value<A>>]) -> bool
    ensures { IsTrue result ↔ AllByRecursion (IsReply One) replies.now }
{
    for reply in replies {
        if !is_small_reply(reply) {
            return false;
        }
    }
    true
}

/// Whether the record has no argument and no reply over 256 bytes.
fn is_small<A: Allocator>(record: &Record<A>) -> bool
    ensures { IsTrue result ↔ Fits One «record».now }
{
    match record.entry() {
        Entry::Token { number, .. } => {
            // Read, it is known to be below 2^64, as its 8 bytes need.
            let _number = *number;
            true
        }
        Entry::Call {
            call,
            outcome,
            replies,
        } => {
            let (_number, _outcome) = (call.number, *outcome);
            are_small(call.args.as_slice()) && are_small_replies(replies.as_slice())
        }
    }
}

fn all_small<A: Allocator>(records: &[Record<A>]) -> bool
    ensures { IsTrue result ↔ AllByRecursion (Fits One) records.now }
{
    for record in records {
        if !is_small(record) {
            return false;
        }
    }
    true
}

/// A log in version 2: `CALCLOG2`, the two digests of the header, and of each record the length of its
/// body, the body, and the SHA-256 of the digest before it (at first that of the header) and the body.
pub fn encode<A: Allocator>(
    alloc: A,
    header: &LogHeader,
    records: &[Record<A>],
) -> Result<Sequence<u8, A>, NoMemory>
    requires { length records.now ≤ LOG_RECORDS }
    ensures bytes { IfOk result (λ bytes. bytes ≡ log_bytes Two header.now records.now) }
    ensures fits { OnOk result (AllByRecursion (Fits Two) records.now) }
{
    write_log(alloc, Version::Two, header, records)
}

/// A log in version 1: as `encode` writes it, but for the letters `CALCLOG1`.
pub fn encode_v1<A: Allocator>(
    alloc: A,
    header: &LogHeader,
    records: &[Record<A>],
) -> Result<Sequence<u8, A>, EncodeError>
    requires { length records.now ≤ LOG_RECORDS }
    ensures bytes { IfOk result (λ bytes. bytes ≡ log_bytes One header.now records.now) }
    ensures too_large { result ≡ Err refused.TooLarge → AllByRecursion (Fits One) records.now → ⊥ }
    ensures fits { result ≢ Err refused.TooLarge → AllByRecursion (Fits One) records.now }
{
    if !all_small(records) {
        return Err(EncodeError::TooLarge);
    }
    Ok(write_log(alloc, Version::One, header, records)?)
}
