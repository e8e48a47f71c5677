//! Tests of large tables and logs, and of values that version 1 has no room for.
use super::*;
use crate::tests::{CATALOG, NEW, SET, catalog, log_of};
use commitlog::{LogHeader, Record, encode_v1};
use image::{Entry, Image, Kind, seal, seal_v1};
use procedure::{Call, Catalog, Key, NoMemory, Sequence, Value};
use sha2::{Digest, Sha256};
use std::alloc::Global;
use std::test::Fail;

/// The keys of a full table.
const FULL: u32 = 100_000;

fn entry(alloc: Global, number: u32, len: usize) -> Result<Entry<Global>, Fail> {
    let bytes = vec![in alloc; 7u8; len]?;
    Ok(Entry {
        key: Key::new(&number.to_be_bytes()).ok_or("no key")?,
        cell: Some(Value::new(bytes).ok_or("too long")?),
    })
}

/// An opening of `keys` keys, each with a value of `len` bytes.
fn opening(alloc: Global, keys: u32, len: usize) -> Result<Image<Global>, Fail> {
    let mut entries = Vec::new(alloc);
    for number in 0..keys {
        entries.push(entry(alloc, number, len)?)?;
    }
    Ok(Image::new(Kind::Full, 0, 0, 0, entries).ok_or("not lawful")?)
}

fn header_of(alloc: Global, opening: &Image<Global>) -> Result<LogHeader, NoMemory> {
    let bytes = seal(alloc, opening)?;
    Ok(LogHeader {
        catalog: CATALOG,
        opening: Sha256::digest(bytes.as_slice()),
    })
}

fn first_header(alloc: Global, opening: &Image<Global>) -> Result<LogHeader, Fail> {
    let opening = match seal_v1(alloc, opening) {
        Ok(bytes) => Sha256::digest(bytes.as_slice()),
        Err(_) => [0; 32],
    };
    Ok(LogHeader {
        catalog: CATALOG,
        opening,
    })
}

/// Call i of a session, by a procedure that writes i at a key.
fn write(
    alloc: Global,
    number: u64,
    procedure: u16,
    key: u32,
    outcome: u8,
) -> Result<Record<Global>, Fail> {
    let mut args = Vec::new(alloc);
    args.push(Value::new(Vec::from_slice(alloc, &key.to_be_bytes())?).ok_or("too long")?)?;
    args.push(Value::of_number(number))?;
    let call = Call {
        session: 0,
        number,
        procedure,
        args: Sequence::new(args),
    };
    Ok(Record::call(call, outcome, Sequence::empty(alloc)).ok_or("out of range")?)
}

/// Why a log isn't recovered from these images, and why it doesn't pass with the first of them.
fn refusals(
    alloc: Global,
    catalog: &Catalog<Global>,
    images: &[Image<Global>],
    bytes: &[u8],
) -> (Option<RecoverError>, Option<AuditError>) {
    let found = recover(alloc, catalog, images, bytes).err();
    match images.first() {
        Some(opening) => (found, audit(alloc, catalog, opening, bytes).err()),
        None => (found, None),
    }
}

/// The log of these calls, each its number, procedure, key and outcome.
fn log_of_calls(
    alloc: Global,
    header: &LogHeader,
    calls: &[(u64, u16, u32, u8)],
) -> Result<Sequence<u8, Global>, Fail> {
    let mut records = Vec::new(alloc);
    for (number, procedure, key, outcome) in calls {
        records.push(write(alloc, *number, *procedure, *key, *outcome)?)?;
    }
    log_of(alloc, header, records.as_slice())
}

/// Calls over a full table: another value for a key that it has, an insert of that, and a key more.
const CALLS: [(u64, u16, u32, u8); 3] = [(1, SET, 5, 0), (2, NEW, 5, 1), (3, NEW, FULL, 0)];

/// What is refused of the first `calls` of them.
fn full_table_refusals(
    alloc: Global,
    catalog: &Catalog<Global>,
    images: &[Image<Global>],
    calls: usize,
) -> Result<(Option<RecoverError>, Option<AuditError>), Fail> {
    let header = header_of(alloc, images.first().ok_or("no opening")?)?;
    let calls = CALLS.get(..calls).ok_or("no calls")?;
    let log = log_of_calls(alloc, &header, calls)?;
    Ok(refusals(alloc, catalog, images, log.as_slice()))
}

/// A full table takes the first two, but not one key more.
#[test]
fn full_table(rt: HostRuntime) -> Result<(), Fail> {
    let catalog = catalog(rt.alloc())?;
    let images = vec![in rt.alloc(); opening(rt.alloc(), FULL, 1)?]?;
    let two = full_table_refusals(rt.alloc(), &catalog, images.as_slice(), 2)?;
    assert_eq!(rt; two, (None, None));
    let three = full_table_refusals(rt.alloc(), &catalog, images.as_slice(), 3)?;
    let too_many = (Some(RecoverError::TooMany), Some(AuditError::TooMany));
    assert_eq!(rt; three, too_many);
    Ok(())
}

/// What is refused of empty logs over an opening of a value of `len` bytes: in version 2, and in 1.
fn refusals_of_value(
    alloc: Global,
    len: usize,
) -> Result<[(Option<RecoverError>, Option<AuditError>); 2], Fail> {
    let catalog = catalog(alloc)?;
    let images = vec![in alloc; opening(alloc, 1, len)?]?;
    let header = header_of(alloc, &images[0])?;
    let first = first_header(alloc, &images[0])?;
    let log = log_of(alloc, &header, &[])?;
    let first_log = encode_v1(alloc, &first, &[])?;
    Ok([
        refusals(alloc, &catalog, &images, log.as_slice()),
        refusals(alloc, &catalog, &images, first_log.as_slice()),
    ])
}

/// An opening with a value over 256 bytes has no spelling in version 1.
#[test]
fn no_first_spelling(rt: HostRuntime) -> Result<(), Fail> {
    let wrong = (
        Some(RecoverError::WrongOpening),
        Some(AuditError::WrongOpening),
    );
    assert_eq!(rt; refusals_of_value(rt.alloc(), 256)?, [(None, None); 2]);
    assert_eq!(rt; refusals_of_value(rt.alloc(), 257)?, [(None, None), wrong]);
    Ok(())
}

/// The records of 143,000 calls over 50,000 keys.
fn many_records(alloc: Global) -> Result<Vec<Record<Global>, Global>, Fail> {
    let mut records = Vec::new(alloc);
    for number in 0..143_000u32 {
        let procedure = if number < 50_000 { NEW } else { SET };
        records.push(write(alloc, u64::from(number), procedure, number % 50_000, 0)?)?;
    }
    Ok(records)
}

/// The log of them over these images.
fn many_calls_log(
    alloc: Global,
    catalog: &Catalog<Global>,
    images: &[Image<Global>],
) -> Result<Sequence<u8, Global>, Fail> {
    let header = header_of(alloc, images.first().ok_or("no opening")?)?;
    let records = many_records(alloc)?;
    log_of(alloc, &header, records.as_slice())
}

#[test]
fn many_calls(rt: HostRuntime) -> Result<(), Fail> {
    let catalog = catalog(rt.alloc())?;
    let images = vec![in rt.alloc(); opening(rt.alloc(), 0, 0)?]?;
    let log = many_calls_log(rt.alloc(), &catalog, images.as_slice())?;
    let found = recover(rt.alloc(), &catalog, &images, log.as_slice())?;
    let shape = (found.calls, found.torn, found.state.len());
    assert_eq!(rt; shape, (143_000, false, 50_000));
    Ok(())
}
