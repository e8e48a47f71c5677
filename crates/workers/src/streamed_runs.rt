//! A run with one streamed checkpoint, in a thread of its own, which the caller drains.

ghost use Rattle.std.specs.Prelude.{◌≡◌, ◌+◌, ◌<◌, ◌≤◌, [], Err, IfOk, vec_capacity, vec_len};
ghost use Rattle.image.specs.Merges.{table_of};
ghost use Rattle.pipe.specs.Rings.{IsPair, SameDrain, SameTap};
ghost use Rattle.pipe.specs.declared.limits.TheConstants.{CAPACITY};
ghost use Rattle.workers.specs.Checkpointed.{IsFrom, KeepsOrigin, call_count};
ghost use Rattle.workers.specs.Shares.{all_answered};
ghost use Rattle.workers.specs.Streams.{IsStreamed};
ghost use Rattle.workers.specs.declared.errors.StreamError.TheVariants as refused;
ghost use denote.Param.Send.{IsSync};

use crate::errors::StreamError;
use crate::gates::Gate;
use crate::keepers::{Beginning, Keeper, NoKeeper};
use crate::runs::{Room, Script, Work, prepare, run_each};
use crate::shared::{Shared, Tally};
use crate::shares::Share;
use crate::streams::{Streamed, drain_beside, stream_beside, stream_left};
use image::{AssembleError, Image, Kind, assemble};
use pipe::{Drain, NoRing, Tap, ring};
use std::alloc::Allocator;
use std::marker::Brand;
use std::sync::Wait;
use std::sync::atomic::AtomicBool;
use std::sync::ledger::Blank;
use std::thread;
use std::thread::Threads;
use steps::Core;
use steps::laws::headers_law;

/// What a run leaves whose checkpoint is streamed.
#[derive(Drop)]
pub struct StreamReport<A: Allocator> {
    pub core: Core<A>,
    /// What each session was answered, in the order of the scripts.
    pub shares: Vec<Share<(), A>, A>,
    /// The image of the checkpoint, or why there is none.
    pub image: Result<Image<A>, StreamError>,
}

/// What threads leave.
#[derive(Drop)]
struct Ran<A: Allocator> {
    core: Core<A>,
    shares: Vec<Share<(), A>, A>,
    tap: Tap<A>,
    drain: Drain<A>,
    streamed: Streamed,
}

/// Runs the scripts in threads, while the caller drains.
fn run_beside<
    L: Beginning<K> + Send + Sync,
    A: Allocator + Clone + Send + Sync,
    K: Keeper<A> + Drop + Send,
    R: Threads + Wait + Sync,
    G: Gate + Sync,
>(
    rt: &R,
    shared: &Shared<L, K, A>,
    works: Vec<Work<A>, A>,
    tally: Tally<L>,
    shares: Vec<Share<(), A>, A>,
    gate: &G,
    drain: Drain<A>,
    ended: &AtomicBool,
    turns: u64,
) -> ((Vec<Share<(), A>, A>, Tally<L>), Drain<A>)
    requires parts { vec_len works < tally.part.parts }
    requires room { vec_len shares + vec_len works ≤ vec_capacity shares }
    ensures parts { result.0.1.part.parts ≡ tally.part.parts }
    ensures amount { result.0.1.part.amount + all_answered shares.items ≡ tally.part.amount + all_answered result.0.0.items }
    ensures len { vec_len result.0.0 ≡ vec_len shares + vec_len works }
    ensures drain { SameDrain drain result.1 }
{
    let sessions = move || -> (Vec<Share<(), A>, A>, Tally<L>)
        requires { IsSync R.row × (vec_len works < tally.part.parts) × (vec_len shares + vec_len works ≤ vec_capacity shares) }
        ensures { (vec_len result.0 ≡ vec_len shares + vec_len works) × (result.1.part.parts ≡ tally.part.parts) × (result.1.part.amount + all_answered shares.items ≡ tally.part.amount + all_answered result.0.items) }
    { run_each(rt, shared, works, tally, shares, gate) };
    let takes = move || -> Drain<A>
        ensures { SameDrain drain result }
    { drain_beside(drain, ended, turns) };
    thread::join(rt, sessions, takes)
}

/// Runs the scripts and makes the checkpoint, which is ended alone where the turns ran out.
fn stream_in<
    L: Beginning<NoKeeper> + Send + Sync,
    A: Allocator + Clone + Send + Sync,
    R: Threads + Wait + Sync,
    G: Gate + Sync,
>(
    rt: &R,
    blank: Blank,
    core: Core<A>,
    room: Room<A>,
    ends: (Tap<A>, Drain<A>),
    kind: Kind,
    turns: u64,
    gate: &G,
) -> Ran<A>
    requires name { blank.name ≡ L.name }
    requires parts { (blank.parts ≡ L.parts) × (vec_len room.works < L.parts) }
    requires origin { IsFrom L.catalog L.opening core }
    requires room { vec_len room.shares + vec_len room.works ≤ vec_capacity room.shares }
    requires empty { (room.shares.items ≡ []) × (room.images.items ≡ []) }
    requires ring { IsPair ends.0 ends.1 }
    ensures calls { call_count result.core.log ≡ call_count core.log + all_answered result.shares.items }
    ensures origin { IsFrom L.catalog L.opening result.core }
    ensures len { vec_len result.shares ≡ vec_len room.shares + vec_len room.works }
    ensures ring { IsPair result.tap result.drain }
{
    let Room {
        images,
        shares,
        works,
        parts: _,
    } = room;
    let (tap, drain) = ends;
    let (shared, tally) = Shared::<L, NoKeeper, A>::new(core, images, blank, NoKeeper);
    let lent = &shared;
    let ended = AtomicBool::new(false);
    let over = &ended;
    let sends = move || -> (Tap<A>, Streamed)
        ensures { SameTap tap result.0 }
    { stream_beside(rt, lent, kind, tap, over, turns, gate) };
    let rest = move || -> ((Vec<Share<(), A>, A>, Tally<L>), Drain<A>)
        requires { IsSync R.row × (vec_len works < tally.part.parts) × (vec_len shares + vec_len works ≤ vec_capacity shares) }
        ensures { (vec_len result.0.0 ≡ vec_len shares + vec_len works) × (result.0.1.part.parts ≡ tally.part.parts) × (result.0.1.part.amount + all_answered shares.items ≡ tally.part.amount + all_answered result.0.0.items) × SameDrain drain result.1 }
    { run_beside(rt, lent, works, tally, shares, gate, drain, over, turns) };
    let ((mut tap, streamed), ((shares, tally), mut drain)) = thread::join(rt, sends, rest);
    let streamed = stream_left(rt, &shared, streamed, &mut tap, &mut drain, turns, gate);
    let (core, _images, _) = shared.close(tally);
    Ran {
        core,
        shares,
        tap,
        drain,
        streamed,
    }
}

/// The image of the header that waits in the core, and of what was sent.
fn image_of<A: Allocator + Clone>(
    alloc: A,
    core: &mut Core<A>,
    tap: Tap<A>,
    drain: Drain<A>,
) -> Result<Image<A>, StreamError>
    requires { IsPair tap drain }
    ensures log { core.new.log ≡ core.old.log }
    ensures origin { KeepsOrigin core.old core.new }
    ensures image { IfOk result (IsStreamed core.new) }
    ensures ring { result ≡ Err refused.NoRing → ⊥ }
{
    headers_law();
    let Some(header) = core.take_header() else {
        return Err(StreamError::NoEnd);
    };
    let Some(end) = tap.end() else {
        return Err(StreamError::NoEnd);
    };
    let entries = drain.all_after(end);
    match assemble(alloc, &header, entries.as_slice()) {
        Ok(image) => Ok(image),
        Err(AssembleError::BadForm) => Err(StreamError::BadForm),
        Err(AssembleError::NoMemory) => Err(StreamError::NoMemory),
    }
}

/// What is reported where there is no image.
fn without_image<A: Allocator>(
    core: Core<A>,
    shares: Vec<Share<(), A>, A>,
    why: StreamError,
) -> StreamReport<A>
    ensures core { result.core ≡ core }
    ensures shares { result.shares ≡ shares }
    ensures image { result.image ≡ Err why }
{
    StreamReport {
        core,
        shares,
        image: Err(why),
    }
}

/// The image of what ran, or why there is none.
fn report_of<A: Allocator + Clone>(alloc: A, ran: Ran<A>) -> StreamReport<A>
    requires { IsPair ran.tap ran.drain }
    ensures log { result.core.log ≡ ran.core.log }
    ensures origin { KeepsOrigin ran.core result.core }
    ensures shares { result.shares ≡ ran.shares }
    ensures image { IfOk result.image (IsStreamed result.core) }
    ensures ring { result.image ≡ Err refused.NoRing → ⊥ }
{
    let Ran {
        mut core,
        shares,
        tap,
        drain,
        streamed,
    } = ran;
    match streamed {
        Streamed::Done => {
            let image = image_of(alloc, &mut core, tap, drain);
            StreamReport {
                core,
                shares,
                image,
            }
        }
        Streamed::TurnsOut => without_image(core, shares, StreamError::TurnsOut),
        Streamed::Refused(refusal) => {
            without_image(core, shares, StreamError::of_refusal(refusal))
        }
    }
}

/// Runs each script in a thread of its own, with 1,000,000 turns, and makes one streamed checkpoint in
/// another, which is started first. Its entries go through a ring with room for `capacity` of them, at least
/// 1 and at most 4,096; the caller drains it, and then assembles the image. Where a thread can't be started
/// the caller does its work, after the others were started.
///
/// Each time that an open call has to end first, or that the ring is full, is a turn of the checkpoint, and
/// each time that the ring is empty one of the drain. Once all have ended the caller goes on with the
/// checkpoint alone, with as many turns again.
///
/// There is no image where there is no memory for the ring (`NoRing`) or for the scripts (`NoMemory`), and
/// then nothing was started; where the core refuses, as one that isn't at rest (`Refused`); where turns or
/// memory ran out. Then the entries are lost, and the core stands where it stopped: the tap of another ring
/// can take the captures that are left, and a chain of images goes on only from a later full one.
pub fn run_streamed<A: Allocator + Copy + Send + Sync, R: Threads + Wait + Sync, G: Gate + Sync>(
    rt: &R,
    alloc: A,
    core: Core<A>,
    scripts: Vec<Script<A>, A>,
    kind: Kind,
    capacity: usize,
    turns: u64,
    gate: &G,
) -> StreamReport<A>
    requires capacity { (0 < capacity) × (capacity ≤ CAPACITY) }
    ensures calls { call_count result.core.log ≡ call_count core.log + all_answered result.shares.items }
    ensures origin { KeepsOrigin core result.core }
    ensures image { IfOk result.image (IsStreamed result.core) }
    ensures ring { result.image ≡ Err refused.NoRing → (result.core ≡ core) × (result.shares.items ≡ []) }
{
    let Ok(ends) = ring(alloc, capacity) else {
        return without_image(core, Vec::new(alloc), StreamError::NoRing);
    };
    let Ok(room) = prepare(&alloc, scripts) else {
        return without_image(core, Vec::new(alloc), StreamError::NoMemory);
    };
    let blank = Blank::new(room.parts);
    let ran = stream_in::<Brand, A, R, G>(rt, blank, core, room, ends, kind, turns, gate);
    report_of(alloc, ran)
}
