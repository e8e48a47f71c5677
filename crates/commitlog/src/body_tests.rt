//! Tests of bodies with their right digest: which of them are records.
use super::*;
use crate::log_bytes_tests::{FIRST, SECOND, Seen, outcome_of};
use sha2::{Digest, Sha256};
use std::alloc::{AllocError, Global};
use std::process::Abort;
use std::test::Fail;

/// A call of session 0 with number 1 of procedure 0, without arguments, committed, without replies.
const CALL: [u8; 16] = [1, 0, 0, 0, 0, 0, 0, 0, 0, 0, 1, 0, 0, 0, 0, 0];

/// A token of prepare with number 1.
const TOKEN: [u8; 10] = [0, 1, 0, 0, 0, 0, 0, 0, 0, 1];

/// Adds a record's bytes, and returns its digest.
fn add(bytes: &mut Vec<u8>, signed: &mut Vec<u8>, body: &[u8]) -> Result<(), AllocError> {
    signed.extend_from_slice(body)?;
    let digest = Sha256::digest(signed.as_slice());
    bytes.extend_from_slice(&(body.len() as u64).to_be_bytes()[4..])?;
    bytes.extend_from_slice(body)?;
    bytes.extend_from_slice(&digest)?;
    signed.clear();
    signed.extend_from_slice(&digest)
}

/// What is read of these bodies after a header.
fn read_of(alloc: Global, header: &[u8], bodies: &[&[u8]]) -> Result<Seen, AllocError> {
    let mut bytes = Vec::from_slice(alloc, header)?;
    let mut signed = Vec::from_slice(alloc, &Sha256::digest(header))?;
    for body in bodies {
        add(&mut bytes, &mut signed, body)?;
    }
    Ok(outcome_of(read_log(alloc, bytes.as_slice())))
}

/// Whether a body is a record's, as the first one and after another; None where the two differ, or
/// something else is read.
fn is_record(alloc: Global, log: &[u8; 203], body: &[u8]) -> Result<Option<bool>, AllocError> {
    let header = &log[..72];
    let first = read_of(alloc, header, &[body])?;
    let second = read_of(alloc, header, &[CALL.as_slice(), body])?;
    Ok(match (first, second) {
        (Seen::Clean(1), Seen::Clean(2)) => Some(true),
        (Seen::Refused(LogError::Damaged(0)), Seen::Refused(LogError::Damaged(1))) => Some(false),
        _ => None,
    })
}

/// Whether a body is a record's, in version 1 and in version 2.
fn in_both(alloc: Global, body: &[u8]) -> Result<(Option<bool>, Option<bool>), AllocError> {
    Ok((
        is_record(alloc, &FIRST, body)?,
        is_record(alloc, &SECOND, body)?,
    ))
}

/// The body with another byte at a place.
fn with_byte(alloc: Global, body: &[u8], place: usize, byte: u8) -> Result<Vec<u8>, AllocError> {
    let mut other = Vec::from_slice(alloc, body)?;
    if let Some(found) = other.get_mut(place) {
        *found = byte;
    }
    Ok(other)
}

/// A place in the call, the byte there, and whether that is a record: the tag, the session, the
/// procedure, the counts of arguments and of replies, the outcome.
const CALLS: [(usize, u8, bool); 15] = [
    (0, 2, false),
    (0, 0, false),
    (1, 1, false),
    (2, 63, true),
    (2, 64, false),
    (11, 1, false),
    (12, 63, true),
    (12, 64, false),
    (13, 1, false),
    (14, 6, true),
    (14, 7, false),
    (14, 15, false),
    (14, 16, true),
    (14, 255, true),
    (15, 1, false),
];

/// Compares what is read of a body with another byte at each of these places.
fn check_altered<R: Abort + AllocGlobal>(
    rt: &R,
    body: &[u8],
    rows: &[(usize, u8, bool)],
) -> Result<(), Fail> {
    for (place, byte, wanted) in rows {
        let altered = with_byte(rt.alloc(), body, *place, *byte)?;
        let found = in_both(rt.alloc(), altered.as_slice())?;
        assert_eq!(rt; found, (Some(*wanted), Some(*wanted)), "{place}: {byte}");
    }
    Ok(())
}

#[test]
fn calls(rt: HostRuntime) -> Result<(), Fail> {
    check_altered(&rt, &CALL, &CALLS)
}

/// A place in the token, the byte there, and whether that is a record: the tag, the phase.
const TOKENS: [(usize, u8, bool); 5] = [
    (0, 1, false),
    (0, 2, false),
    (1, 0, true),
    (1, 4, true),
    (1, 5, false),
];

#[test]
fn tokens(rt: HostRuntime) -> Result<(), Fail> {
    check_altered(&rt, &TOKEN, &TOKENS)
}

/// The body of a call with empty arguments and absent replies, and bytes after it.
fn counted(alloc: Global, args: u8, replies: u8, more: u8) -> Result<Vec<u8>, AllocError> {
    let mut body = Vec::from_slice(alloc, &CALL[..13])?;
    body.push(args)?;
    let arguments_end = 14 + 2 * usize::from(args);
    body.resize(arguments_end, 0)?;
    body.extend_from_slice(&[0, replies])?;
    body.resize(
        arguments_end + 2 + usize::from(replies) + usize::from(more),
        0,
    )?;
    Ok(body)
}

/// How many arguments, how many replies, how many bytes after them, and whether that is a record.
const COUNTS: [(u8, u8, u8, bool); 5] = [
    (8, 64, 0, true),
    (9, 0, 0, false),
    (0, 65, 0, false),
    (0, 0, 1, false),
    (8, 64, 1, false),
];

#[test]
fn counts(rt: HostRuntime) -> Result<(), Fail> {
    for (args, replies, more, wanted) in COUNTS {
        let body = counted(rt.alloc(), args, replies, more)?;
        let found = in_both(rt.alloc(), body.as_slice())?;
        assert_eq!(rt;
            found,
            (Some(wanted), Some(wanted)),
            "{args} {replies} {more}"
        );
    }
    Ok(())
}

/// The body of a call with a value of some length between two parts of it.
fn valued(alloc: Global, before: &[u8], length: u16, after: &[u8]) -> Result<Vec<u8>, AllocError> {
    let mut body = Vec::from_slice(alloc, &CALL[..13])?;
    body.extend_from_slice(before)?;
    body.extend_from_slice(&length.to_be_bytes())?;
    let end = body.len() + usize::from(length);
    body.resize(end, 7)?;
    body.extend_from_slice(after)?;
    Ok(body)
}

/// The length of a value, and whether a call with it is a record of version 1. It is one of version 2.
const LENGTHS: [(u16, bool); 3] = [(256, true), (257, false), (1000, false)];

#[test]
fn lengths(rt: HostRuntime) -> Result<(), Fail> {
    for (length, wanted) in LENGTHS {
        let argument = valued(rt.alloc(), &[1], length, &[0, 0])?;
        let found = in_both(rt.alloc(), argument.as_slice())?;
        assert_eq!(rt;
            found,
            (Some(wanted), Some(true)),
            "an argument of {length}"
        );
        let reply = valued(rt.alloc(), &[0, 0, 1, 1], length, &[])?;
        let found = in_both(rt.alloc(), reply.as_slice())?;
        assert_eq!(rt; found, (Some(wanted), Some(true)), "a reply of {length}");
    }
    Ok(())
}

/// The bytes of a log of 1,000,000 tokens, and the digest of its last record.
fn full_log(alloc: Global) -> Result<(Vec<u8>, Vec<u8>), AllocError> {
    let mut bytes = Vec::from_slice(alloc, &SECOND[..72])?;
    let mut signed = Vec::from_slice(alloc, &Sha256::digest(&SECOND[..72]))?;
    for _ in 0..1_000_000 {
        add(&mut bytes, &mut signed, &TOKEN)?;
    }
    Ok((bytes, signed))
}

/// What is read of a full log, of one with a whole record after it, and with a part of one.
fn read_of_full(alloc: Global) -> Result<[Seen; 3], AllocError> {
    let (mut bytes, mut signed) = full_log(alloc)?;
    let full = outcome_of(read_log(alloc, bytes.as_slice()));
    add(&mut bytes, &mut signed, &TOKEN)?;
    let more = outcome_of(read_log(alloc, bytes.as_slice()));
    let _last = bytes.pop();
    let torn = outcome_of(read_log(alloc, bytes.as_slice()));
    Ok([full, more, torn])
}

#[test]
fn at_the_limit(rt: HostRuntime) -> Result<(), Fail> {
    let wanted = [
        Seen::Clean(1_000_000),
        Seen::Refused(LogError::Damaged(1_000_000)),
        Seen::Torn(1_000_000),
    ];
    assert_eq!(rt; read_of_full(rt.alloc())?, wanted);
    Ok(())
}
