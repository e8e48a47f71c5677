//! Tests of the ranges, the order and the limit of a log.
use super::*;
use crate::limits::{LOG_RECORDS, REPLIES};
use phase::Phase;
use procedure::{Call, Sequence, Value};
use std::alloc::Global;
use std::test::Fail;

/// Session, procedure, arguments, outcome, replies, and whether such a call may stand in a log.
const RANGES: [(u16, u16, usize, u8, usize, bool); 12] = [
    (0, 0, 0, 0, 0, true),
    (63, 63, 8, 6, REPLIES, true),
    (63, 63, 8, 16, REPLIES, true),
    (0, 0, 0, 255, 0, true),
    (64, 0, 0, 0, 0, false),
    (0, 64, 0, 0, 0, false),
    (0, 0, 9, 0, 0, false),
    (0, 0, 0, 7, 0, false),
    (0, 0, 0, 15, 0, false),
    (0, 0, 0, 0, REPLIES + 1, false),
    (65_535, 0, 0, 0, 0, false),
    (0, 65_535, 0, 0, 0, false),
];

fn values(alloc: Global, len: usize) -> Result<Sequence<Value<Global>, Global>, Fail> {
    let mut made = Vec::new(alloc);
    for _ in 0..len {
        made.push(Value::empty())?;
    }
    Ok(Sequence::new(made))
}

fn replies(alloc: Global, len: usize) -> Result<Sequence<Option<Value<Global>>, Global>, Fail> {
    let mut made = Vec::new(alloc);
    for _ in 0..len {
        made.push(None)?;
    }
    Ok(Sequence::new(made))
}

fn call(alloc: Global, session: u16, procedure: u16, args: usize) -> Result<Call<Global>, Fail> {
    Ok(Call {
        session,
        number: 1,
        procedure,
        args: values(alloc, args)?,
    })
}

#[test]
fn ranges(rt: HostRuntime) -> Result<(), Fail> {
    let alloc = rt.alloc();
    for (session, procedure, args, outcome, length, may_stand) in RANGES {
        let made = Record::call(
            call(alloc, session, procedure, args)?,
            outcome,
            replies(alloc, length)?,
        );
        assert_eq!(rt;
            made.is_some(),
            may_stand,
            "session {session}, outcome {outcome}"
        );
    }
    Ok(())
}

/// The phase and number of a token.
fn token_of(record: Option<&Record<Global>>) -> Option<(Phase, u64)> {
    match record?.entry() {
        Entry::Token { phase, number } => Some((*phase, *number)),
        Entry::Call { .. } => None,
    }
}

/// The session and outcome of a call.
fn call_of(record: Record<Global>) -> Option<(u16, u8)> {
    match record.into_entry() {
        Entry::Token { .. } => None,
        Entry::Call { call, outcome, .. } => Some((call.session, outcome)),
    }
}

#[test]
fn pushed_in_order(rt: HostRuntime) -> Result<(), Fail> {
    let alloc = rt.alloc();
    let mut log = Log::new(alloc);
    assert!(rt; log.is_empty() && !log.is_full());
    log.push(Record::token(Phase::Prepare, 1))?;
    log.make_room()?;
    log.push(Record::token(Phase::Resolve, 1))?;
    assert_eq!(rt;
        (log.len(), log.records().len(), log.is_empty()),
        (2, 2, false)
    );
    assert_eq!(rt; token_of(log.get(0)), Some((Phase::Prepare, 1)));
    assert_eq!(rt; token_of(log.get(1)), Some((Phase::Resolve, 1)));
    assert!(rt; log.get(2).is_none());
    Ok(())
}

#[test]
fn record_of_a_call(rt: HostRuntime) -> Result<(), Fail> {
    let alloc = rt.alloc();
    let made = Record::call(call(alloc, 5, 0, 1)?, 16, replies(alloc, 2)?);
    assert_eq!(rt; call_of(made.ok_or("out of range")?), Some((5, 16)));
    Ok(())
}

#[test]
fn full_log(rt: HostRuntime) -> Result<(), Fail> {
    let mut log = Log::new(rt.alloc());
    for _ in 0..LOG_RECORDS {
        assert!(rt; !log.is_full());
        log.push(Record::token(Phase::Prepare, 1))?;
    }
    assert!(rt; log.is_full());
    let refused = log.push(Record::token(Phase::Prepare, 1)).err();
    assert_eq!(rt; refused, Some(PushError::LogFull));
    assert_eq!(rt; log.len(), 1_000_000);
    Ok(())
}
