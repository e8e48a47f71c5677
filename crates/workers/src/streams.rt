//! The workers of a streamed checkpoint: one sends what its scan gives, the other drains it.

ghost use Rattle.pipe.specs.Rings.{SameDrain, SameTap};

use crate::errors::CheckpointRefusal;
use crate::gates::{Gate, Point};
use crate::keepers::{Beginning, Keeper};
use crate::shared::Shared;
use image::Kind;
use image::limits::ENTRIES;
use phase::Phase;
use pipe::{Drain, Tap};
use std::alloc::Allocator;
use std::sync::Wait;
use std::sync::atomic::{AtomicBool, Ordering};
use std::thread;
use steps::{AdvanceError, CaptureToError, Captured};

/// How far a streamed checkpoint came.
#[derive(Clone, Copy, Debug, PartialEq, Eq)]
pub(crate) enum Streamed {
    /// It ended.
    Done,
    /// No turn was left.
    TurnsOut,
    Refused(CheckpointRefusal),
}

/// How it came on.
#[derive(Clone, Copy, Debug, PartialEq, Eq)]
enum Reached {
    Rest,
    /// An open call has to end first, or the ring is full.
    Waits,
}

/// How many phases a checkpoint that began enters.
const MOVES: usize = 4;

/// Visits the places that the scan has left, at most this many. It stops where the ring is full.
fn send_rest<L: Beginning<K>, A: Allocator + Clone, K: Keeper<A> + Drop, R: Wait, G: Gate>(
    rt: &R,
    shared: &Shared<L, K, A>,
    tap: &mut Tap<A>,
    places: usize,
    gate: &G,
) -> Result<Captured, CaptureToError>
    ensures { SameTap tap.old tap.new }
{
    for _ in 0..=places {
        gate.pass(Point::Capture);
        let captured = shared.lock.lock(rt).capture_to(tap);
        match captured {
            Ok(Captured::Slot) => {}
            _ => return captured,
        }
    }
    Ok(Captured::Slot)
}

/// Sends what the scan has left, and enters the next phase.
fn move_on<L: Beginning<K>, A: Allocator + Clone, K: Keeper<A> + Drop, R: Wait, G: Gate>(
    rt: &R,
    shared: &Shared<L, K, A>,
    tap: &mut Tap<A>,
    gate: &G,
) -> Result<Phase, CheckpointRefusal>
    ensures { SameTap tap.old tap.new }
{
    let phase = shared.lock.lock(rt).phase();
    if phase == Phase::Capture {
        send_rest(rt, shared, tap, ENTRIES, gate)?;
    }
    gate.pass(Point::Advance);
    let advanced = shared.lock.lock(rt).advance();
    Ok(advanced?)
}

/// Enters one phase after another.
fn go_on<L: Beginning<K>, A: Allocator + Clone, K: Keeper<A> + Drop, R: Wait, G: Gate>(
    rt: &R,
    shared: &Shared<L, K, A>,
    tap: &mut Tap<A>,
    gate: &G,
) -> Result<Reached, CheckpointRefusal>
    ensures { SameTap tap.old tap.new }
{
    for _ in 0..MOVES {
        match move_on(rt, shared, tap, gate) {
            Ok(Phase::Rest) => return Ok(Reached::Rest),
            Ok(_) => {}
            Err(CheckpointRefusal::Advance(AdvanceError::StillActive)) => break,
            Err(CheckpointRefusal::CaptureTo(CaptureToError::RingFull)) => break,
            Err(refusal) => return Err(refusal),
        }
    }
    Ok(Reached::Waits)
}

/// Brings a streamed checkpoint to its end, while another drains.
fn stream<L: Beginning<K>, A: Allocator + Clone, K: Keeper<A> + Drop, R: Wait, G: Gate>(
    rt: &R,
    shared: &Shared<L, K, A>,
    tap: &mut Tap<A>,
    turns: u64,
    gate: &G,
) -> Streamed
    ensures { SameTap tap.old tap.new }
{
    for _ in 0..turns {
        match go_on(rt, shared, tap, gate) {
            Ok(Reached::Rest) => return Streamed::Done,
            Ok(Reached::Waits) => thread::yield_now(),
            Err(refusal) => return Streamed::Refused(refusal),
        }
    }
    Streamed::TurnsOut
}

/// Begins a streamed checkpoint and brings it to its end, while another drains. Without turns none begins.
fn begin<L: Beginning<K>, A: Allocator + Clone, K: Keeper<A> + Drop, R: Wait, G: Gate>(
    rt: &R,
    shared: &Shared<L, K, A>,
    kind: Kind,
    tap: &mut Tap<A>,
    turns: u64,
    gate: &G,
) -> Streamed
    ensures { SameTap tap.old tap.new }
{
    if turns == 0 {
        return Streamed::TurnsOut;
    }
    gate.pass(Point::Advance);
    let started = shared.lock.lock(rt).start_streamed(kind);
    match started {
        Ok(_) => stream(rt, shared, tap, turns, gate),
        Err(refusal) => Streamed::Refused(CheckpointRefusal::Start(refusal)),
    }
}

/// Makes a streamed checkpoint, and then tells the end to the one who drains.
pub(crate) fn stream_beside<
    L: Beginning<K>,
    A: Allocator + Clone,
    K: Keeper<A> + Drop,
    R: Wait,
    G: Gate,
>(
    rt: &R,
    shared: &Shared<L, K, A>,
    kind: Kind,
    tap: Tap<A>,
    ended: &AtomicBool,
    turns: u64,
    gate: &G,
) -> (Tap<A>, Streamed)
    ensures { SameTap tap result.0 }
{
    let mut tap = tap;
    let streamed = begin(rt, shared, kind, &mut tap, turns, gate);
    ended.store(true, Ordering::Release);
    (tap, streamed)
}

/// Takes an entry, where one is found.
fn take_one<A: Allocator>(drain: &mut Drain<A>) -> bool
    ensures { SameDrain drain.old drain.new }
{
    drain.take().is_some()
}

/// Takes what is in the ring, at most this many entries.
fn take_all<A: Allocator>(drain: &mut Drain<A>, most: usize)
    ensures { SameDrain drain.old drain.new }
{
    for _ in 0..most {
        if !take_one(drain) {
            break;
        }
    }
}

/// Takes what is sent, until the sender has ended, or as many times as it has turns.
pub(crate) fn drain_beside<A: Allocator>(
    drain: Drain<A>,
    ended: &AtomicBool,
    turns: u64,
) -> Drain<A>
    ensures { SameDrain drain result }
{
    let mut drain = drain;
    for _ in 0..turns {
        take_all(&mut drain, ENTRIES);
        if ended.load(Ordering::Acquire) {
            break;
        }
        thread::yield_now();
    }
    drain
}

/// Brings a streamed checkpoint to its end, and drains in between.
fn stream_alone<L: Beginning<K>, A: Allocator + Clone, K: Keeper<A> + Drop, R: Wait, G: Gate>(
    rt: &R,
    shared: &Shared<L, K, A>,
    tap: &mut Tap<A>,
    drain: &mut Drain<A>,
    turns: u64,
    gate: &G,
) -> Streamed
    ensures tap { SameTap tap.old tap.new }
    ensures drain { SameDrain drain.old drain.new }
{
    for _ in 0..turns {
        take_all(drain, ENTRIES);
        match go_on(rt, shared, tap, gate) {
            Ok(Reached::Rest) => return Streamed::Done,
            Ok(Reached::Waits) => {}
            Err(refusal) => return Streamed::Refused(refusal),
        }
    }
    Streamed::TurnsOut
}

/// Brings a checkpoint to its end for which no turn was left.
pub(crate) fn stream_left<
    L: Beginning<K>,
    A: Allocator + Clone,
    K: Keeper<A> + Drop,
    R: Wait,
    G: Gate,
>(
    rt: &R,
    shared: &Shared<L, K, A>,
    streamed: Streamed,
    tap: &mut Tap<A>,
    drain: &mut Drain<A>,
    turns: u64,
    gate: &G,
) -> Streamed
    ensures tap { SameTap tap.old tap.new }
    ensures drain { SameDrain drain.old drain.new }
{
    match streamed {
        Streamed::TurnsOut => stream_alone(rt, shared, tap, drain, turns, gate),
        _ => streamed,
    }
}
