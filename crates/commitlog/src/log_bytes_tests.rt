//! Tests of logs as bytes. The bytes were made by another program.
use super::*;
use phase::Phase;
use procedure::{Call, Sequence, Value};
use std::alloc::{AllocError, Global};
use std::test::Fail;

const HEADER: LogHeader = LogHeader {
    catalog: [0x11; 32],
    opening: [0x22; 32],
};

/// In version 1: call 1 of session 0 of procedure 1 with the arguments `a` and the number 5, committed
/// without replies; and call 2 of procedure 0 with `a`, committed, with the number 5 replied.
pub(crate) const FIRST: [u8; 203] = [
    0x43, 0x41, 0x4c, 0x43, 0x4c, 0x4f, 0x47, 0x31, 0x11, 0x11, 0x11, 0x11, 0x11, 0x11, 0x11, 0x11,
    0x11, 0x11, 0x11, 0x11, 0x11, 0x11, 0x11, 0x11, 0x11, 0x11, 0x11, 0x11, 0x11, 0x11, 0x11, 0x11,
    0x11, 0x11, 0x11, 0x11, 0x11, 0x11, 0x11, 0x11, 0x22, 0x22, 0x22, 0x22, 0x22, 0x22, 0x22, 0x22,
    0x22, 0x22, 0x22, 0x22, 0x22, 0x22, 0x22, 0x22, 0x22, 0x22, 0x22, 0x22, 0x22, 0x22, 0x22, 0x22,
    0x22, 0x22, 0x22, 0x22, 0x22, 0x22, 0x22, 0x22, 0x00, 0x00, 0x00, 0x1d, 0x01, 0x00, 0x00, 0x00,
    0x00, 0x00, 0x00, 0x00, 0x00, 0x00, 0x01, 0x00, 0x01, 0x02, 0x00, 0x01, 0x61, 0x00, 0x08, 0x00,
    0x00, 0x00, 0x00, 0x00, 0x00, 0x00, 0x05, 0x00, 0x00, 0x47, 0x07, 0x8a, 0x45, 0xbf, 0xdd, 0xa6,
    0x86, 0xa3, 0xd7, 0x01, 0xc0, 0x46, 0x75, 0x1a, 0xf6, 0x48, 0x80, 0xaa, 0xf0, 0x27, 0xcd, 0xc9,
    0xcb, 0x27, 0xc3, 0xb1, 0x34, 0xb8, 0x80, 0x5e, 0x61, 0x00, 0x00, 0x00, 0x1e, 0x01, 0x00, 0x00,
    0x00, 0x00, 0x00, 0x00, 0x00, 0x00, 0x00, 0x02, 0x00, 0x00, 0x01, 0x00, 0x01, 0x61, 0x00, 0x01,
    0x01, 0x00, 0x08, 0x00, 0x00, 0x00, 0x00, 0x00, 0x00, 0x00, 0x05, 0x11, 0x06, 0xc8, 0xf5, 0x8a,
    0xd6, 0xb9, 0x3d, 0x1f, 0xe1, 0x4a, 0x7d, 0x8c, 0x22, 0xc9, 0xea, 0xf5, 0x64, 0x83, 0x31, 0x21,
    0xf9, 0x95, 0x50, 0x79, 0x48, 0x69, 0x37, 0xd7, 0xe2, 0x38, 0xd1,
];

/// The same in version 2.
pub(crate) const SECOND: [u8; 203] = [
    0x43, 0x41, 0x4c, 0x43, 0x4c, 0x4f, 0x47, 0x32, 0x11, 0x11, 0x11, 0x11, 0x11, 0x11, 0x11, 0x11,
    0x11, 0x11, 0x11, 0x11, 0x11, 0x11, 0x11, 0x11, 0x11, 0x11, 0x11, 0x11, 0x11, 0x11, 0x11, 0x11,
    0x11, 0x11, 0x11, 0x11, 0x11, 0x11, 0x11, 0x11, 0x22, 0x22, 0x22, 0x22, 0x22, 0x22, 0x22, 0x22,
    0x22, 0x22, 0x22, 0x22, 0x22, 0x22, 0x22, 0x22, 0x22, 0x22, 0x22, 0x22, 0x22, 0x22, 0x22, 0x22,
    0x22, 0x22, 0x22, 0x22, 0x22, 0x22, 0x22, 0x22, 0x00, 0x00, 0x00, 0x1d, 0x01, 0x00, 0x00, 0x00,
    0x00, 0x00, 0x00, 0x00, 0x00, 0x00, 0x01, 0x00, 0x01, 0x02, 0x00, 0x01, 0x61, 0x00, 0x08, 0x00,
    0x00, 0x00, 0x00, 0x00, 0x00, 0x00, 0x05, 0x00, 0x00, 0x51, 0x32, 0x0d, 0xbd, 0xb9, 0xff, 0x0b,
    0x76, 0x82, 0x71, 0x1f, 0xba, 0x0b, 0xcc, 0x12, 0x93, 0x52, 0xd7, 0x3d, 0xdd, 0x0b, 0xc2, 0xe1,
    0x41, 0x04, 0x54, 0xf3, 0x65, 0x13, 0x52, 0x31, 0xd9, 0x00, 0x00, 0x00, 0x1e, 0x01, 0x00, 0x00,
    0x00, 0x00, 0x00, 0x00, 0x00, 0x00, 0x00, 0x02, 0x00, 0x00, 0x01, 0x00, 0x01, 0x61, 0x00, 0x01,
    0x01, 0x00, 0x08, 0x00, 0x00, 0x00, 0x00, 0x00, 0x00, 0x00, 0x05, 0x3b, 0x1d, 0x74, 0x5f, 0xd0,
    0x4c, 0x76, 0x0e, 0x2f, 0x4d, 0x07, 0x57, 0x29, 0xe9, 0xe0, 0xf9, 0x59, 0x0c, 0x55, 0xb2, 0x1b,
    0x62, 0xd9, 0xb6, 0xaf, 0xd7, 0x4a, 0xe6, 0x25, 0x3b, 0x8f, 0xdb,
];

/// What was read of bytes: how they end, after how many records, or why they aren't a log.
#[derive(Clone, Copy, Debug, PartialEq, Eq)]
pub(crate) enum Seen {
    Clean(usize),
    Torn(usize),
    Refused(LogError),
}

pub(crate) fn outcome_of(read: Result<StoredLog<Global>, LogError>) -> Seen {
    match read {
        Ok(log) => match log.ending {
            Ending::Clean => Seen::Clean(log.records.len()),
            Ending::Torn => Seen::Torn(log.records.len()),
        },
        Err(refused) => Seen::Refused(refused),
    }
}

/// How many bytes a log has beside its header and the length and digest of one record, and what is read
/// of it.
fn body_and_reading(alloc: Global, log: &[u8]) -> (usize, Seen) {
    let body = log.len().saturating_sub(72 + 4 + 32);
    (body, outcome_of(read_log(alloc, log)))
}

fn value(alloc: Global, len: usize) -> Result<Value<Global>, Fail> {
    let mut bytes = Vec::new(alloc);
    for _ in 0..len {
        bytes.push(7)?;
    }
    Ok(Value::new(bytes).ok_or("too long")?)
}

/// So many values of a length.
fn values(
    alloc: Global,
    count: usize,
    len: usize,
) -> Result<Sequence<Value<Global>, Global>, Fail> {
    let mut made = Vec::new(alloc);
    for _ in 0..count {
        made.push(value(alloc, len)?)?;
    }
    Ok(Sequence::new(made))
}

fn replies(
    alloc: Global,
    count: usize,
    len: usize,
) -> Result<Sequence<Option<Value<Global>>, Global>, Fail> {
    let mut made = Vec::new(alloc);
    for _ in 0..count {
        made.push(Some(value(alloc, len)?))?;
    }
    Ok(Sequence::new(made))
}

/// A log of one call, of so many arguments and replies of these lengths.
pub(crate) fn one_call(
    alloc: Global,
    args: (usize, usize),
    reply: (usize, usize),
) -> Result<Vec<Record<Global>>, Fail> {
    let call = Call {
        session: 63,
        number: u64::MAX,
        procedure: 63,
        args: values(alloc, args.0, args.1)?,
    };
    let made = Record::call(call, 255, replies(alloc, reply.0, reply.1)?);
    let mut records = Vec::new(alloc);
    records.push(made.ok_or("out of range")?)?;
    Ok(records)
}

fn text(alloc: Global, bytes: &[u8]) -> Result<Value<Global>, Fail> {
    Ok(Value::new(Vec::from_slice(alloc, bytes)?).ok_or("too long")?)
}

/// The record of a committed call of session 0.
fn committed(
    number: u64,
    procedure: u16,
    args: Vec<Value<Global>, Global>,
    replies: Sequence<Option<Value<Global>>, Global>,
) -> Result<Record<Global>, Fail> {
    let call = Call {
        session: 0,
        number,
        procedure,
        args: Sequence::new(args),
    };
    Ok(Record::call(call, 0, replies).ok_or("out of range")?)
}

pub(crate) fn two_calls(alloc: Global) -> Result<Vec<Record<Global>>, Fail> {
    let args = vec![in alloc; text(alloc, b"a")?, Value::of_number(5)]?;
    let mut records = vec![in alloc; committed(1, 1, args, Sequence::empty(alloc))?]?;
    let args = vec![in alloc; text(alloc, b"a")?]?;
    let replied = vec![in alloc; Some(Value::of_number(5))]?;
    records.push(committed(2, 0, args, Sequence::new(replied))?)?;
    Ok(records)
}

fn written(alloc: Global, records: &[Record<Global>]) -> Result<Sequence<u8, Global>, Fail> {
    if records.len() > limits::LOG_RECORDS {
        return Err("too many".into());
    }
    Ok(encode(alloc, &HEADER, records)?)
}

fn written_v1(
    alloc: Global,
    records: &[Record<Global>],
) -> Result<Result<Sequence<u8, Global>, EncodeError>, Fail> {
    if records.len() > limits::LOG_RECORDS {
        return Err("too many".into());
    }
    Ok(encode_v1(alloc, &HEADER, records))
}

#[test]
fn written_in_both_versions(rt: HostRuntime) -> Result<(), Fail> {
    let alloc = rt.alloc();
    let records = two_calls(alloc)?;
    let first = written_v1(alloc, &records)??;
    assert_eq!(rt; first.as_slice(), FIRST.as_slice());
    let second = written(alloc, &records)?;
    assert_eq!(rt; second.as_slice(), SECOND.as_slice());
    Ok(())
}

#[test]
fn read_in_both_versions(rt: HostRuntime) -> Result<(), Fail> {
    let alloc = rt.alloc();
    for (bytes, version) in [(&FIRST, Version::One), (&SECOND, Version::Two)] {
        let log = read_log(alloc, bytes.as_slice())?;
        assert_eq!(rt;
            (log.version, log.header, log.ending),
            (version, HEADER, Ending::Clean)
        );
        let again = encode(alloc, &log.header, log.records.as_slice())?;
        assert_eq!(rt; again.as_slice(), SECOND.as_slice());
    }
    Ok(())
}

/// From this length on, the bytes of a log that is cut off are read so.
const CUTS: [(usize, Seen); 6] = [
    (0, Seen::Refused(LogError::NotALog)),
    (72, Seen::Clean(0)),
    (73, Seen::Torn(0)),
    (137, Seen::Clean(1)),
    (138, Seen::Torn(1)),
    (203, Seen::Clean(2)),
];

/// The last row that begins at or before a place.
fn row_at(rows: &[(usize, Seen)], place: usize) -> Option<Seen> {
    let mut found = None;
    for (from, seen) in rows {
        if *from <= place {
            found = Some(*seen);
        }
    }
    found
}

#[test]
fn cut_off(rt: HostRuntime) {
    let alloc = rt.alloc();
    for bytes in [&FIRST, &SECOND] {
        for length in 0..=bytes.len() {
            let wanted = row_at(&CUTS, length);
            assert_eq!(rt;
                Some(outcome_of(read_log(alloc, &bytes[..length]))),
                wanted,
                "{length}"
            );
        }
    }
}

/// From this place on, a log with another byte there is read so. The lengths, of which another byte may
/// state a record that isn't whole, have rows of their own.
const ALTERED: [(usize, Seen); 5] = [
    (0, Seen::Refused(LogError::NotALog)),
    (8, Seen::Refused(LogError::Damaged(0))),
    (76, Seen::Refused(LogError::Damaged(0))),
    (137, Seen::Clean(2)),
    (141, Seen::Refused(LogError::Damaged(1))),
];

fn is_length(place: usize) -> bool {
    (72..76).contains(&place) || (137..141).contains(&place)
}

#[test]
fn altered_bytes(rt: HostRuntime) {
    let alloc = rt.alloc();
    for bytes in [FIRST, SECOND] {
        for place in 0..bytes.len() {
            if !is_length(place) {
                let mut altered = bytes;
                altered[place] ^= 0x80;
                let wanted = row_at(&ALTERED, place);
                assert_eq!(rt;
                    Some(outcome_of(read_log(alloc, &altered))),
                    wanted,
                    "{place}"
                );
            }
        }
    }
}

/// A place in the log of version 1, the byte there, and what is read.
const BYTES: [(usize, u8, Seen); 6] = [
    (7, b'2', Seen::Refused(LogError::Damaged(0))),
    (7, b'3', Seen::Refused(LogError::NotALog)),
    (137, 1, Seen::Refused(LogError::Damaged(1))),
    (140, 29, Seen::Refused(LogError::Damaged(1))),
    (140, 30, Seen::Clean(2)),
    (140, 31, Seen::Torn(1)),
];

#[test]
fn single_bytes(rt: HostRuntime) {
    for (place, byte, wanted) in BYTES {
        let mut altered = FIRST;
        altered[place] = byte;
        assert_eq!(rt;
            outcome_of(read_log(rt.alloc(), &altered)),
            wanted,
            "{place}: {byte}"
        );
    }
}

/// A log of version 2 with its letters altered to version 1.
#[test]
fn another_version(rt: HostRuntime) {
    let mut altered = SECOND;
    altered[7] = b'1';
    let read = outcome_of(read_log(rt.alloc(), &altered));
    assert_eq!(rt; read, Seen::Refused(LogError::Damaged(0)));
}

/// A stated length after a header, and what is read of it in version 1 and in version 2.
const STATED: [(u32, Seen, Seen); 5] = [
    (0, Seen::Torn(0), Seen::Torn(0)),
    (18_656, Seen::Torn(0), Seen::Torn(0)),
    (18_657, Seen::Refused(LogError::Damaged(0)), Seen::Torn(0)),
    (
        4_718_744,
        Seen::Refused(LogError::Damaged(0)),
        Seen::Torn(0),
    ),
    (
        4_718_745,
        Seen::Refused(LogError::Damaged(0)),
        Seen::Refused(LogError::Damaged(0)),
    ),
];

fn stated(alloc: Global, log: &[u8; 203], length: u32) -> Result<Seen, AllocError> {
    let mut bytes = Vec::from_slice(alloc, &log[..72])?;
    bytes.extend_from_slice(&length.to_be_bytes())?;
    Ok(outcome_of(read_log(alloc, &bytes)))
}

#[test]
fn stated_lengths(rt: HostRuntime) -> Result<(), Fail> {
    for (length, first, second) in STATED {
        assert_eq!(rt; stated(rt.alloc(), &FIRST, length)?, first, "{length}");
        assert_eq!(rt; stated(rt.alloc(), &SECOND, length)?, second, "{length}");
    }
    Ok(())
}

#[test]
fn token(rt: HostRuntime) -> Result<(), Fail> {
    let alloc = rt.alloc();
    let mut records = Vec::new(alloc);
    records.push(Record::token(Phase::Complete, u64::MAX))?;
    let made = written(alloc, &records)?;
    let found = body_and_reading(alloc, made.as_slice());
    assert_eq!(rt; found, (10, Seen::Clean(1)));
    let body = made.as_slice().get(72..86).ok_or("short")?;
    assert_eq!(rt;
        body,
        b"\0\0\0\x0a\0\x04\xff\xff\xff\xff\xff\xff\xff\xff".as_slice()
    );
    Ok(())
}

/// How many arguments of how many bytes, replies likewise, and the bytes of the body.
const BODIES: [((usize, usize), (usize, usize), usize); 4] = [
    ((0, 0), (0, 0), 16),
    ((1, 32), (64, 256), 16_626),
    ((8, 256), (64, 256), 18_656),
    ((8, 65_535), (64, 65_535), 4_718_744),
];

#[test]
fn sizes(rt: HostRuntime) -> Result<(), Fail> {
    let alloc = rt.alloc();
    for (args, reply, length) in BODIES {
        let records = one_call(alloc, args, reply)?;
        let found = body_and_reading(alloc, written(alloc, &records)?.as_slice());
        assert_eq!(rt; found, (length, Seen::Clean(1)));
        // The longest has values that version 1 doesn't take.
        if length <= 18_656 {
            let first = written_v1(alloc, &records)??;
            assert_eq!(rt; body_and_reading(alloc, first.as_slice()), found);
        }
    }
    Ok(())
}

#[test]
fn too_large_for_version_1(rt: HostRuntime) -> Result<(), Fail> {
    let alloc = rt.alloc();
    for (args, reply) in [((1, 257), (0, 0)), ((0, 0), (1, 257))] {
        let records = one_call(alloc, args, reply)?;
        let refused = written_v1(alloc, &records)?.err();
        assert_eq!(rt; refused, Some(EncodeError::TooLarge));
    }
    Ok(())
}
