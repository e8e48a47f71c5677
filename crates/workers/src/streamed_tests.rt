//! Tests of runs whose checkpoint is streamed: that its image is what the calls before the cut left, and
//! why there is none.

use crate::errors::{CheckpointRefusal, GatherError, StreamError};
use crate::gates::Open;
use crate::gathering::gather;
use crate::run_tests::{GET, Line, SET, SWAP, held, opened, resolve_in, scripts};
use crate::streamed_runs::{StreamReport, run_streamed};
use commitlog::{Entry, Record};
use image::{Image, Kind};
use procedure::Key;
use std::alloc::Global;
use std::sync::Wait;
use std::test::Fail;
use std::thread::Threads;
use steps::{Core, StartError};

/// Sessions that put bytes at four keys, and meet there.
const LINES: [&[Line]; 3] = [
    &[
        (1, SET, b'a', 1),
        (2, SET, b'b', 2),
        (3, SWAP, b'a', 3),
        (4, GET, b'b', 0),
    ],
    &[(1, SET, b'c', 4), (2, SWAP, b'b', 5), (3, SET, b'd', 6)],
    &[(1, SWAP, b'a', 7), (2, SWAP, b'd', 8), (3, SET, b'c', 9)],
];

/// The byte that a call puts at a key, if it does.
fn put_by(found: &Record<Global>, letter: u8) -> Option<u8> {
    match found.entry() {
        Entry::Call { call, .. } if call.procedure != GET => {
            let key = call.args.get(0)?;
            let value = call.args.get(1)?;
            if key.as_bytes() == [letter].as_slice() {
                value.as_bytes().first().copied()
            } else {
                None
            }
        }
        _ => None,
    }
}

/// The byte that the calls before a place leave at a key.
fn left_at(records: &[Record<Global>], place: usize, letter: u8) -> Option<u8> {
    let mut left = None;
    for found in records.iter().take(place) {
        if let Some(byte) = put_by(found, letter) {
            left = Some(byte);
        }
    }
    left
}

/// The byte that an image has at a key.
fn byte_in(image: &Image<Global>, letter: u8) -> Option<u8> {
    let key = Key::new(&[letter])?;
    match image.get(&key)? {
        Some(value) => value.as_bytes().first().copied(),
        None => None,
    }
}

/// The kind, number and place of an image, and whether it has at each key what the calls before the cut
/// left, and no other keys.
fn shown(image: &Image<Global>, records: &[Record<Global>]) -> (Kind, u64, bool) {
    let Some(cut) = resolve_in(records) else {
        return (image.kind(), image.number(), false);
    };
    let mut keys = 0usize;
    let mut same = image.place() == cut as u64;
    for letter in [b'a', b'b', b'c', b'd'] {
        let left = left_at(records, cut, letter);
        same = same && byte_in(image, letter) == left;
        if left.is_some() {
            keys = keys.wrapping_add(1);
        }
    }
    (
        image.kind(),
        image.number(),
        same && image.entries().len() == keys,
    )
}

/// What a run came to: whether the answers are the calls of the log, and the image.
type Outcome = (
    Result<(), GatherError>,
    Result<(Kind, u64, bool), StreamError>,
);

/// What a report tells.
fn outcome_of(alloc: Global, report: StreamReport<Global>) -> Outcome {
    let StreamReport {
        core,
        shares,
        image,
    } = report;
    let records = core.records();
    let image = match image {
        Ok(image) => Ok(shown(&image, records)),
        Err(refused) => Err(refused),
    };
    let outcome = (gather(alloc, records, shares), image);
    drop(core);
    outcome
}

fn ran<R: Threads + Wait + Sync>(
    rt: &R,
    alloc: Global,
    core: Core<Global>,
    lines: &[&[Line]],
    kind: Kind,
    turns: u64,
) -> Result<Outcome, Fail> {
    let scripts = scripts(alloc, lines)?;
    let report = run_streamed(rt, alloc, core, scripts, kind, 1, turns, &Open);
    Ok(outcome_of(alloc, report))
}

/// A full and a partial checkpoint through a ring of one entry, beside three sessions; and no turn at all.
#[test]
fn streamed_beside_sessions(rt: HostRuntime) -> Result<(), Fail> {
    let rows = [
        (Kind::Full, 1_000_000, Ok((Kind::Full, 1, true))),
        (Kind::Partial, 1_000_000, Ok((Kind::Partial, 1, true))),
        (Kind::Full, 0, Err(StreamError::TurnsOut)),
    ];
    for (kind, turns, image) in rows {
        let core = opened(rt.alloc())?;
        let told = ran(&rt, rt.alloc(), core, &LINES, kind, turns)?;
        assert_eq!(rt; told, (Ok(()), image));
    }
    Ok(())
}

/// A core whose checkpoint runs.
fn running(alloc: Global) -> Result<Core<Global>, Fail> {
    let mut core = opened(alloc)?;
    match core.start(Kind::Full) {
        Ok(_) => Ok(core),
        Err(refused) => {
            drop(core);
            Err(refused.into())
        }
    }
}

/// A run over a core whose checkpoint runs already, and one over a core with a call that stays open.
fn ran_in_vain<R: Threads + Wait + Sync>(rt: &R, alloc: Global) -> Result<[Outcome; 2], Fail> {
    let running = running(alloc)?;
    let beside_a_checkpoint = ran(rt, alloc, running, &LINES, Kind::Full, 9)?;
    let held = held(alloc)?;
    let beside_a_call = ran(rt, alloc, held, &[], Kind::Full, 9)?;
    Ok([beside_a_checkpoint, beside_a_call])
}

#[test]
fn not_streamed(rt: HostRuntime) -> Result<(), Fail> {
    let told = ran_in_vain(&rt, rt.alloc())?;
    let refusal = CheckpointRefusal::Start(StartError::NotAtRest);
    let wanted = [
        (Ok(()), Err(StreamError::Refused(refusal))),
        (Ok(()), Err(StreamError::TurnsOut)),
    ];
    assert_eq!(rt; told, wanted);
    Ok(())
}
