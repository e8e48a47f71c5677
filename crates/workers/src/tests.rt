//! Tests of workers.

use crate::errors::GatherError;
use crate::gathering::gather;
use crate::shares::{Given, Response, Share};
use commitlog::Record;
use phase::Phase;
use procedure::{Call, Sequence, Value};
use std::alloc::Global;
use std::test::*;
use steps::Answer;

/// A reply: a value of one byte, or none.
fn replies(alloc: Global, reply: u8) -> Result<Sequence<Option<Value<Global>>, Global>, Fail> {
    let value = match reply {
        0 => None,
        byte => Value::new(vec![in alloc; byte]?),
    };
    Ok(Sequence::new(vec![in alloc; value]?))
}

/// A call in the log, of procedure 0.
fn call(
    alloc: Global,
    session: u16,
    number: u64,
    outcome: u8,
    reply: u8,
) -> Result<Record<Global>, Fail> {
    let call = Call {
        session,
        number,
        procedure: 0,
        args: Sequence::empty(alloc),
    };
    Ok(Record::call(call, outcome, replies(alloc, reply)?).ok_or("out of range")?)
}

/// A log of a call of session 3, a token and a call of session 5.
fn log(alloc: Global) -> Result<Vec<Record<Global>, Global>, Fail> {
    let mut records = Vec::new(alloc);
    records.push(call(alloc, 3, 7, 0, b'v')?)?;
    records.push(Record::token(Phase::Prepare, 1))?;
    records.push(call(alloc, 5, 1, 16, 0)?)?;
    Ok(records)
}

/// An answer: session, number, place, outcome and reply.
type Told = (u16, u64, usize, u8, u8);

const FIRST: Told = (3, 7, 0, 0, b'v');

const SECOND: Told = (5, 1, 2, 16, 0);

const GATHERED: [(&[Told], Result<(), GatherError>); 13] = [
    (&[FIRST, SECOND], Ok(())),
    (&[SECOND, FIRST], Ok(())),
    (&[], Err(GatherError::Missing(0))),
    (&[SECOND], Err(GatherError::Missing(0))),
    (&[FIRST], Err(GatherError::Missing(2))),
    (&[FIRST, SECOND, FIRST], Err(GatherError::Double)),
    (
        &[FIRST, FIRST, (3, 7, 9, 0, b'v')],
        Err(GatherError::Double),
    ),
    (&[(3, 7, 1, 0, b'v')], Err(GatherError::Stranger)),
    (
        &[(3, 7, 3, 0, b'v'), FIRST, FIRST],
        Err(GatherError::Stranger),
    ),
    (&[(4, 7, 0, 0, b'v'), SECOND], Err(GatherError::Stranger)),
    (&[FIRST, (5, 2, 2, 16, 0)], Err(GatherError::Stranger)),
    (&[FIRST, (5, 1, 2, 17, 0)], Err(GatherError::Stranger)),
    (&[(3, 7, 0, 0, b'w'), SECOND], Err(GatherError::Stranger)),
];

fn answer(alloc: Global, told: &Told) -> Result<Answer<Global>, Fail> {
    let replies = replies(alloc, told.4)?;
    Ok(Answer {
        place: told.2,
        outcome: told.3,
        replies,
    })
}

/// An answer after one without a place.
fn answers(alloc: Global, told: &Told) -> Result<Vec<Response<Global>, Global>, Fail> {
    let mut answers = Vec::new(alloc);
    answers.push(Response {
        number: 0,
        given: Given::TurnsOut,
    })?;
    answers.push(Response {
        number: told.1,
        given: Given::Answered(answer(alloc, told)?),
    })?;
    Ok(answers)
}

/// A share for each answer.
fn shares(alloc: Global, told: &[Told]) -> Result<Vec<Share<(), Global>, Global>, Fail> {
    let mut all = Vec::new(alloc);
    for one in told {
        all.push(Share {
            session: one.0,
            answers: answers(alloc, one)?,
            tally: (),
        })?;
    }
    Ok(all)
}

fn gathered(alloc: Global, told: &[Told]) -> Result<Result<(), GatherError>, Fail> {
    let records = log(alloc)?;
    let shares = shares(alloc, told)?;
    Ok(gather(alloc, records.as_slice(), shares))
}

/// Answers to the calls of one log, and what is told of them.
#[test]
fn answers_and_calls(rt: HostRuntime) -> Result<(), Fail> {
    for (told, expected) in GATHERED.iter() {
        assert_eq!(rt; gathered(rt.alloc(), told)?, *expected);
    }
    Ok(())
}
