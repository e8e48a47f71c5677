//! The body of a record, read from its bytes.

ghost use Rattle.std.specs.Prelude.{◌≡◌, ◌↔◌, ◌==◌, Err, IfErr, IfOk, IsOk, None, Some, if◌then◌else◌, length};
ghost use Rattle.commitlog.specs.Records.{IsInRange, record_of};
ghost use Rattle.commitlog.specs.LogBytes.{Fits, body, greatest_value};
ghost use Rattle.commitlog.specs.BodyReading.{Gives, arguments_in, byte_in, call_in, many, number_in, phase_in, record_in, replies_in, reply_in, token_in, value_in};
ghost use Rattle.commitlog.specs.LogReadings.{IsNoBody};
ghost use Rattle.commitlog.specs.declared.bodies.BodyError.TheVariants as errors;

use crate::formats::Version;
use crate::records::{Entry, Record};
use byteorder::{BigEndian, ByteOrder};
use phase::Phase;
use procedure::{Call, NoMemory, Sequence, Value};
use std::alloc::{AllocError, AllocFailed, Allocator};

/// Why bytes give no record.
#[derive(Debug, Drop)]
pub(crate) enum BodyError {
    /// They are the body of no record.
    Malformed,
    NoMemory,
}

impl From<AllocError> for BodyError {
    ghost from_gives = { λ _ e. e ≡ errors.NoMemory };

    fn from(_refused: AllocError) -> Self {
        BodyError::NoMemory
    }
}

impl<T: Drop> From<AllocFailed<T>> for BodyError {
    ghost from_gives = { λ _ e. e ≡ errors.NoMemory };

    fn from(_refused: AllocFailed<T>) -> Self {
        BodyError::NoMemory
    }
}

pub(crate) fn byte_of(bytes: &[u8]) -> Result<(u8, &[u8]), BodyError>
    ensures value { Gives (λ x. (x.0, x.1.now)) result (byte_in bytes.now) }
    ensures malformed { IfErr result (λ e. e ≡ errors.Malformed) }
{
    match bytes {
        [] => Err(BodyError::Malformed),
        [byte, rest @ ..] => Ok((*byte, rest)),
    }
}

pub(crate) fn u16_of(bytes: &[u8]) -> Result<(u16, &[u8]), BodyError>
    ensures value { Gives (λ x. (x.0, x.1.now)) result (number_in 2 bytes.now) }
    ensures malformed { IfErr result (λ e. e ≡ errors.Malformed) }
{
    if bytes.len() < 2 {
        return Err(BodyError::Malformed);
    }
    Ok((BigEndian::read_u16(bytes), &bytes[2..]))
}

pub(crate) fn u64_of(bytes: &[u8]) -> Result<(u64, &[u8]), BodyError>
    ensures value { Gives (λ x. (x.0, x.1.now)) result (number_in 8 bytes.now) }
    ensures malformed { IfErr result (λ e. e ≡ errors.Malformed) }
{
    if bytes.len() < 8 {
        return Err(BodyError::Malformed);
    }
    Ok((BigEndian::read_u64(bytes), &bytes[8..]))
}

#[tactic(auto, unfolding(crate::specs::BodyReading::value_in))]
fn value_of<'a, A: Allocator + Clone>(
    alloc: &A,
    version: Version,
    bytes: &'a [u8],
) -> Result<(Value<A>, &'a [u8]), BodyError>
    ensures value { Gives (λ x. (x.0, x.1.now)) result (value_in (greatest_value version) bytes.now) }
    ensures malformed { value_in (greatest_value version) bytes.now ≡ None → result ≡ Err errors.Malformed }
{
    let (length, rest) = u16_of(bytes)?;
    let length = usize::from(length);
    if length > version.greatest_value() || rest.len() < length {
        return Err(BodyError::Malformed);
    }
    let (value, rest) = rest.split_at(length);
    match Value::from_slice(alloc.clone()?, value)? {
        Some(value) => Ok((value, rest)),
        None => Err(BodyError::Malformed),
    }
}

#[tactic(auto, unfolding(crate::specs::BodyReading::reply_in))]
fn reply_of<'a, A: Allocator + Clone>(
    alloc: &A,
    version: Version,
    bytes: &'a [u8],
) -> Result<(Option<Value<A>>, &'a [u8]), BodyError>
    ensures value { Gives (λ x. (x.0, x.1.now)) result (reply_in (greatest_value version) bytes.now) }
    ensures malformed { reply_in (greatest_value version) bytes.now ≡ None → result ≡ Err errors.Malformed }
{
    match bytes {
        [0, rest @ ..] => Ok((None, rest)),
        [1, rest @ ..] => {
            let (value, rest) = value_of(alloc, version, rest)?;
            Ok((Some(value), rest))
        }
        _ => Err(BodyError::Malformed),
    }
}

#[tactic(auto, using(crate::proofs::Manys::ends))]
fn values_of<'a, A: Allocator + Clone>(
    alloc: &A,
    version: Version,
    count: u8,
    bytes: &'a [u8],
) -> Result<(Vec<Value<A>, A>, &'a [u8]), BodyError>
    ensures { Gives (λ x. (x.0.items, x.1.now)) result (many (value_in (greatest_value version)) count bytes.now) }
{
    let mut values = Vec::with_capacity(alloc.clone()?, usize::from(count))?;
    let mut rest = bytes;
    for _ in 0..count {
        let (value, after) = value_of(alloc, version, rest)?;
        values.push(value)?;
        rest = after;
    }
    Ok((values, rest))
}

#[tactic(auto, using(crate::proofs::Manys::ends))]
fn cells_of<'a, A: Allocator + Clone>(
    alloc: &A,
    version: Version,
    count: u8,
    bytes: &'a [u8],
) -> Result<(Vec<Option<Value<A>>, A>, &'a [u8]), BodyError>
    ensures { Gives (λ x. (x.0.items, x.1.now)) result (many (reply_in (greatest_value version)) count bytes.now) }
{
    let mut cells = Vec::with_capacity(alloc.clone()?, usize::from(count))?;
    let mut rest = bytes;
    for _ in 0..count {
        let (cell, after) = reply_of(alloc, version, rest)?;
        cells.push(cell)?;
        rest = after;
    }
    Ok((cells, rest))
}

#[tactic(auto, unfolding(crate::specs::BodyReading::arguments_in))]
fn arguments_of<'a, A: Allocator + Clone>(
    alloc: &A,
    version: Version,
    bytes: &'a [u8],
) -> Result<(Sequence<Value<A>, A>, &'a [u8]), BodyError>
    ensures { Gives (λ x. (x.0, x.1.now)) result (arguments_in (greatest_value version) bytes.now) }
{
    let (count, rest) = byte_of(bytes)?;
    let (values, rest) = values_of(alloc, version, count, rest)?;
    Ok((Sequence::new(values), rest))
}

#[tactic(auto, unfolding(crate::specs::BodyReading::replies_in))]
fn replies_of<'a, A: Allocator + Clone>(
    alloc: &A,
    version: Version,
    bytes: &'a [u8],
) -> Result<(Sequence<Option<Value<A>>, A>, &'a [u8]), BodyError>
    ensures { Gives (λ x. (x.0, x.1.now)) result (replies_in (greatest_value version) bytes.now) }
{
    let (count, rest) = byte_of(bytes)?;
    let (cells, rest) = cells_of(alloc, version, count, rest)?;
    Ok((Sequence::new(cells), rest))
}

pub(crate) fn phase_of(code: u8) -> Result<Phase, BodyError>
    ensures value { Gives (λ p. p) result (phase_in code) }
    ensures malformed { IfErr result (λ e. e ≡ errors.Malformed) }
{
    match code {
        0 => Ok(Phase::Rest),
        1 => Ok(Phase::Prepare),
        2 => Ok(Phase::Resolve),
        3 => Ok(Phase::Capture),
        4 => Ok(Phase::Complete),
        _ => Err(BodyError::Malformed),
    }
}

/// What was read, where nothing stands after it.
fn ended<A: Allocator>(entry: Entry<A>, rest: &[u8]) -> Result<Entry<A>, BodyError>
    ensures value { Gives record_of result (if length rest.now == 0 then Some (record_of entry) else None) }
    ensures malformed { IfErr result (λ e. e ≡ errors.Malformed) }
{
    if !rest.is_empty() {
        return Err(BodyError::Malformed);
    }
    Ok(entry)
}

#[tactic(auto, unfolding(crate::specs::BodyReading::token_in))]
fn token_of<A: Allocator>(bytes: &[u8]) -> Result<Entry<A>, BodyError>
    ensures value { Gives record_of result (token_in bytes.now) }
    ensures malformed { IfErr result (λ e. e ≡ errors.Malformed) }
{
    let (code, rest) = byte_of(bytes)?;
    let phase = phase_of(code)?;
    let (number, rest) = u64_of(rest)?;
    ended(Entry::Token { phase, number }, rest)
}

#[tactic(auto, unfolding(crate::specs::BodyReading::call_in))]
fn call_of<A: Allocator + Clone>(
    alloc: &A,
    version: Version,
    bytes: &[u8],
) -> Result<Entry<A>, BodyError>
    ensures { Gives record_of result (call_in (greatest_value version) bytes.now) }
{
    let (session, rest) = u16_of(bytes)?;
    let (number, rest) = u64_of(rest)?;
    let (procedure, rest) = u16_of(rest)?;
    let (args, rest) = arguments_of(alloc, version, rest)?;
    let (outcome, rest) = byte_of(rest)?;
    let (replies, left) = replies_of(alloc, version, rest)?;
    let entry = Entry::Call {
        call: Call {
            session,
            number,
            procedure,
            args,
        },
        outcome,
        replies,
    };
    ended(entry, left)
}

#[tactic(auto, unfolding(crate::specs::BodyReading::record_in))]
fn entry_of<A: Allocator + Clone>(
    alloc: &A,
    version: Version,
    bytes: &[u8],
) -> Result<Entry<A>, BodyError>
    ensures { Gives record_of result (record_in (greatest_value version) bytes.now) }
{
    match bytes {
        [0, rest @ ..] => token_of(rest),
        [1, rest @ ..] => call_of(alloc, version, rest),
        _ => Err(BodyError::Malformed),
    }
}

fn record_of_entry<A: Allocator>(entry: Entry<A>) -> Result<Record<A>, BodyError>
    ensures value { IfOk result (λ r. r ≡ record_of entry) }
    ensures ranges { IsOk result ↔ IsInRange (record_of entry) }
    ensures malformed { IfErr result (λ e. e ≡ errors.Malformed) }
{
    match entry {
        Entry::Token { phase, number } => Ok(Record::token(phase, number)),
        Entry::Call {
            call,
            outcome,
            replies,
        } => Record::call(call, outcome, replies).ok_or(BodyError::Malformed),
    }
}

/// The record whose body the bytes are, all of them.
pub(crate) fn record_of_body<A: Allocator + Clone>(
    alloc: &A,
    version: Version,
    bytes: &[u8],
) -> Result<Record<A>, BodyError>
    ensures value { IfOk result (λ r. body r ≡ bytes.now) }
    ensures fits { IfOk result (λ r. Fits version r) }
    ensures malformed { result ≡ Err errors.Malformed → IsNoBody version bytes.now }
{
    let entry = entry_of(alloc, version, bytes)?;
    Ok(record_of_entry(entry)?)
}
