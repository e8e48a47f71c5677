//! A thread for each session, and one for the checkpoints.

ghost use Rattle.std.specs.Prelude.{◌≡◌, ◌+◌, ◌<◌, ◌≤◌, [], IfErr, IfOk, IfSome, length, vec_capacity, vec_len};
ghost use Rattle.view.specs.Views.{published};
ghost use Rattle.workers.specs.Checkpointed.{AreCuts, IsFrom, KeepsOrigin, call_count};
ghost use Rattle.workers.specs.Positions.{IsWithin};
ghost use Rattle.workers.specs.Shares.{all_answered, answered};
ghost use denote.Param.Send.{IsSync};

use crate::checkpointing::{Listener, make_from};
use crate::checkpoints::Progress;
use crate::copies::copy_of_image;
use crate::gates::Gate;
use crate::keepers::{Beginning, Keeper, NoKeeper};
use crate::publishing::Publishing;
use crate::sessions::run_session;
use crate::shared::{Shared, Tally};
use crate::shares::{Response, Share};
use image::{Image, Kind};
use left_right::Absorb;
use procedure::{Call, NoMemory};
use std::alloc::Allocator;
use std::marker::Brand;
use std::sync::Wait;
use std::sync::ledger::Blank;
use std::thread;
use std::thread::Threads;
use steps::Core;
use view::tables::{Appended, Shown};
use view::{Naming, Publisher, Told};

/// How many turns each worker has.
pub const TURNS: u64 = 1_000_000;

/// The calls of a session.
#[derive(Drop)]
pub struct Script<A: Allocator> {
    pub session: u16,
    pub calls: Vec<Call<A>, A>,
}

/// A script, with the empty list for the answers to it.
#[derive(Drop)]
pub(crate) struct Work<A: Allocator> {
    script: Script<A>,
    answers: Vec<Response<A>, A>,
    ghost empty: { answers.items ≡ [] },
}

fn run_work<L: Beginning<K>, A: Allocator + Clone, K: Keeper<A> + Drop, R: Wait, G: Gate>(
    rt: &R,
    shared: &Shared<L, K, A>,
    tally: Tally<L>,
    work: Work<A>,
    gate: &G,
) -> Share<Tally<L>, A>
    requires { 0 < tally.part.parts }
    ensures parts { result.tally.part.parts ≡ tally.part.parts }
    ensures amount { result.tally.part.amount ≡ tally.part.amount + answered result.answers.items }
{
    let Work { script, answers } = work;
    run_session(
        rt,
        answers,
        shared,
        tally,
        script.session,
        script.calls.as_slice(),
        TURNS,
        gate,
    )
}

/// A thread for each script. Their shares go behind those that are there, and their tallies into the one
/// that is left.
pub(crate) fn run_each<
    L: Beginning<K> + Send + Sync,
    A: Allocator + Clone + Send + Sync,
    K: Keeper<A> + Drop + Send,
    R: Threads + Wait + Sync,
    G: Gate + Sync,
>(
    rt: &R,
    shared: &Shared<L, K, A>,
    works: Vec<Work<A>, A>,
    tally: Tally<L>,
    shares: Vec<Share<(), A>, A>,
    gate: &G,
) -> (Vec<Share<(), A>, A>, Tally<L>)
    requires parts { vec_len works < tally.part.parts }
    requires room { vec_len shares + vec_len works ≤ vec_capacity shares }
    ensures len { vec_len result.0 ≡ vec_len shares + vec_len works }
    ensures capacity { vec_capacity result.0 ≡ vec_capacity shares }
    ensures parts { result.1.part.parts ≡ tally.part.parts }
    ensures amount { result.1.part.amount + all_answered shares.items ≡ tally.part.amount + all_answered result.0.items }
{
    let mut works = works;
    let Some(work) = works.pop() else {
        return (shares, tally);
    };
    let mut tally = tally;
    let mine = Tally {
        part: tally.part.split_off(1, 0),
    };
    let there = move || -> Share<Tally<L>, A>
        requires { (mine.part.parts ≡ 1) × (mine.part.amount ≡ 0) }
        ensures { (result.tally.part.parts ≡ 1) × (result.tally.part.amount ≡ answered result.answers.items) }
    { run_work(rt, shared, mine, work, gate) };
    let here = move || -> (Vec<Share<(), A>, A>, Tally<L>)
        requires { IsSync R.row × (vec_len works < tally.part.parts) × (vec_len shares + vec_len works ≤ vec_capacity shares) }
        ensures { (vec_len result.0 ≡ vec_len shares + vec_len works) × (vec_capacity result.0 ≡ vec_capacity shares) × (result.1.part.parts ≡ tally.part.parts) × (result.1.part.amount + all_answered shares.items ≡ tally.part.amount + all_answered result.0.items) }
    { run_each(rt, shared, works, tally, shares, gate) };
    let (share, (mut shares, mut tally)) = thread::join(rt, there, here);
    let Share {
        session,
        answers,
        tally: Tally { part },
    } = share;
    tally.part.merge(part);
    shares.push_reserved(Share {
        session,
        answers,
        tally: (),
    });
    (shares, tally)
}

/// What threads leave.
#[derive(Drop)]
struct Ran<K: Drop, A: Allocator> {
    core: Core<A>,
    shares: Vec<Share<(), A>, A>,
    images: Vec<Image<A>, A>,
    checkpoints: Progress,
    keeper: K,
}

/// Runs the scripts and makes the checkpoints. Those that are left when the sessions have ended are made then.
fn run_in<
    L: Beginning<K> + Send + Sync,
    A: Allocator + Clone + Send + Sync,
    K: Keeper<A> + Drop + Send,
    P: Listener<Image<A>> + Send,
    R: Threads + Wait + Sync,
    G: Gate + Sync,
>(
    rt: &R,
    blank: Blank,
    core: Core<A>,
    images: Vec<Image<A>, A>,
    works: Vec<Work<A>, A>,
    kinds: &[Kind],
    shares: Vec<Share<(), A>, A>,
    listener: &mut P,
    gate: &G,
    keeper: K,
) -> Ran<K, A>
    requires name { blank.name ≡ L.name }
    requires parts { (blank.parts ≡ L.parts) × (vec_len works < L.parts) }
    requires origin { IsFrom L.catalog L.opening core }
    requires room { vec_len shares + vec_len works ≤ vec_capacity shares }
    requires empty { (shares.items ≡ []) × (images.items ≡ []) }
    requires kept { ∥ IfSome L.begun (λ b. K.Has b keeper core.log []) ∥₁ }
    ensures calls { call_count result.core.log ≡ call_count core.log + all_answered result.shares.items }
    ensures cuts { AreCuts result.core result.images.items }
    ensures origin { IsFrom L.catalog L.opening result.core }
    ensures len { vec_len result.shares ≡ vec_len shares + vec_len works }
    ensures within { IsWithin (length kinds.now) result.checkpoints }
    ensures kept { ∥ IfSome L.begun (λ b. K.Has b result.keeper result.core.log result.images.items) ∥₁ }
{
    let (shared, tally) = Shared::<L, K, A>::new(core, images, blank, keeper);
    let lent = &shared;
    let heard = &mut *listener;
    let watch = move || -> Progress
        ensures { IsWithin (length kinds.entry.now) result }
    { make_from(rt, lent, kinds, 0, TURNS, gate, heard) };
    let rest = move || -> (Vec<Share<(), A>, A>, Tally<L>)
        requires { IsSync R.row × (vec_len works < tally.part.parts) × (vec_len shares + vec_len works ≤ vec_capacity shares) }
        ensures { (vec_len result.0 ≡ vec_len shares + vec_len works) × (result.1.part.parts ≡ tally.part.parts) × (result.1.part.amount + all_answered shares.items ≡ tally.part.amount + all_answered result.0.items) }
    { run_each(rt, lent, works, tally, shares, gate) };
    let (progress, (shares, tally)) = thread::join(rt, watch, rest);
    let checkpoints = match progress {
        Progress::TurnsOut(from) => { make_from(rt, &shared, kinds, from, TURNS, gate, listener) }
        _ => progress,
    };
    let (core, images, keeper) = shared.close(tally);
    Ran {
        core,
        shares,
        images,
        checkpoints,
        keeper,
    }
}

fn make_room<A: Allocator + Clone>(
    alloc: &A,
    count: usize,
) -> Result<Vec<Share<(), A>, A>, NoMemory>
    ensures { IfOk result (λ v. (v.items ≡ []) × (vec_len v ≡ 0) × (count ≤ vec_capacity v)) }
{
    Ok(Vec::with_capacity(alloc.clone()?, count)?)
}

/// Each script with an empty list for its answers.
fn make_works<A: Allocator + Clone>(
    alloc: &A,
    scripts: Vec<Script<A>, A>,
) -> Result<Vec<Work<A>, A>, NoMemory>
    ensures { IfOk result (λ v. vec_len v ≡ vec_len scripts) }
{
    let mut works = Vec::with_capacity(alloc.clone()?, scripts.len())?;
    for script in scripts {
        let answers = Vec::new(alloc.clone()?);
        works.push(Work { script, answers })?;
    }
    Ok(works)
}

/// What a run leaves.
#[derive(Drop)]
pub struct Report<J: Naming, Q: Wait + Drop, A: Allocator + Copy>
where
    Shown<J, A>: Absorb<Appended<J, A>>,
{
    pub core: Core<A>,
    /// What each session was answered, in the order of the scripts.
    pub shares: Vec<Share<(), A>, A>,
    /// The images that were taken, in order.
    pub images: Vec<Image<A>, A>,
    pub checkpoints: Progress,
    pub publisher: Publisher<J, Q, A>,
    /// What the publisher published.
    pub last: Told<J, A>,
}

/// What a run hands back that wasn't begun for want of memory.
#[derive(Drop)]
pub struct NotRun<J: Naming, Q: Wait + Drop, A: Allocator + Copy>
where
    Shown<J, A>: Absorb<Appended<J, A>>,
{
    pub core: Core<A>,
    pub publisher: Publisher<J, Q, A>,
}

/// The lists that a run fills, and the scripts with theirs.
#[derive(Drop)]
pub(crate) struct Room<A: Allocator> {
    pub(crate) images: Vec<Image<A>, A>,
    pub(crate) shares: Vec<Share<(), A>, A>,
    pub(crate) works: Vec<Work<A>, A>,
    pub(crate) parts: u64,
}

pub(crate) fn prepare<A: Allocator + Clone>(
    alloc: &A,
    scripts: Vec<Script<A>, A>,
) -> Result<Room<A>, NoMemory>
    ensures lists { IfOk result (λ r. (r.images.items ≡ []) × (r.shares.items ≡ [])) }
    ensures room { IfOk result (λ r. vec_len r.shares + vec_len r.works ≤ vec_capacity r.shares) }
    ensures len { IfOk result (λ r. (vec_len r.shares ≡ 0) × (vec_len r.works ≡ vec_len scripts)) }
    ensures parts { IfOk result (λ r. vec_len r.works < r.parts) }
{
    let count = scripts.len();
    let Some(parts) = (count as u64).checked_add(1) else {
        return Err(NoMemory);
    };
    Ok(Room {
        images: Vec::new(alloc.clone()?),
        shares: make_room(alloc, count)?,
        works: make_works(alloc, scripts)?,
        parts,
    })
}

/// Runs each script in a thread of its own, and makes checkpoints of the kinds in another. Each worker has
/// 1,000,000 turns. Once the sessions have ended the caller makes the checkpoints that are left, with as many
/// turns again. Where a thread can't be started the caller does its work, after the others were started.
///
/// A copy of the core's opening is published first, and then one of each image as it is taken; a copy that is
/// refused, or an image that isn't appended or published, ends the publishing alone.
///
/// For want of memory it is refused before any thread is started, and hands the core and the publisher back.
pub fn run_all<
    J: Naming + Send + Sync,
    Q: Wait + Drop + Send + Sync,
    A: Allocator + Copy + Send + Sync,
    R: Threads + Wait + Sync,
    G: Gate + Sync,
>(
    rt: &R,
    alloc: A,
    core: Core<A>,
    scripts: Vec<Script<A>, A>,
    kinds: &[Kind],
    publisher: Publisher<J, Q, A>,
    gate: &G,
) -> Result<Report<J, Q, A>, NotRun<J, Q, A>>
    ensures calls { IfOk result (λ r. call_count r.core.log ≡ call_count core.log + all_answered r.shares.items) }
    ensures origin { IfOk result (λ r. KeepsOrigin core r.core) }
    ensures cuts { IfOk result (λ r. AreCuts r.core r.images.items) }
    ensures len { IfOk result (λ r. vec_len r.shares ≡ vec_len scripts) }
    ensures within { IfOk result (λ r. IsWithin (length kinds.now) r.checkpoints) }
    ensures last { IfOk result (λ r. r.last ≡ published r.publisher) }
    ensures err { IfErr result (λ e. (e.core ≡ core) × (e.publisher ≡ publisher)) }
{
    match run_kept(rt, alloc, core, scripts, kinds, publisher, gate, NoKeeper) {
        Ok((report, _)) => Ok(report),
        Err((not_run, _)) => Err(not_run),
    }
}

/// Runs scripts and makes checkpoints as `run_all` does, and has a keeper take each record that the core adds to its
/// log, and each image that is taken, while the core's lock is held. Where the keeper takes no more, each session
/// ends after its next answer.
///
/// The keeper comes back, also where nothing was run.
pub fn run_kept<
    J: Naming + Send + Sync,
    Q: Wait + Drop + Send + Sync,
    A: Allocator + Copy + Send + Sync,
    R: Threads + Wait + Sync,
    G: Gate + Sync,
    K: Keeper<A> + Drop + Send,
>(
    rt: &R,
    alloc: A,
    core: Core<A>,
    scripts: Vec<Script<A>, A>,
    kinds: &[Kind],
    publisher: Publisher<J, Q, A>,
    gate: &G,
    keeper: K,
) -> Result<(Report<J, Q, A>, K), (NotRun<J, Q, A>, K)>
    requires { ∥ K.Has keeper keeper core.log [] ∥₁ }
    ensures calls { IfOk result (λ r. call_count r.0.core.log ≡ call_count core.log + all_answered r.0.shares.items) }
    ensures origin { IfOk result (λ r. KeepsOrigin core r.0.core) }
    ensures cuts { IfOk result (λ r. AreCuts r.0.core r.0.images.items) }
    ensures len { IfOk result (λ r. vec_len r.0.shares ≡ vec_len scripts) }
    ensures within { IfOk result (λ r. IsWithin (length kinds.now) r.0.checkpoints) }
    ensures last { IfOk result (λ r. r.0.last ≡ published r.0.publisher) }
    ensures kept { IfOk result (λ r. ∥ K.Has keeper r.1 r.0.core.log r.0.images.items ∥₁) }
    ensures err { IfErr result (λ e. (e.0.core ≡ core) × (e.0.publisher ≡ publisher) × (e.1 ≡ keeper)) }
{
    let Ok(room) = prepare(&alloc, scripts) else {
        return Err((NotRun { core, publisher }, keeper));
    };
    let opening = copy_of_image(alloc, core.opening());
    let mut listener = Publishing {
        publisher,
        goes_on: true,
    };
    listener.hear(opening);
    let Room {
        images,
        shares,
        works,
        parts,
    } = room;
    let blank = Blank::new(parts);
    let ran = run_in::<Brand, A, K, Publishing<J, Q, A>, R, G>(
        rt,
        blank,
        core,
        images,
        works,
        kinds,
        shares,
        &mut listener,
        gate,
        keeper,
    );
    let Publishing {
        publisher,
        goes_on: _,
    } = listener;
    Ok(report_of(ran, publisher))
}

/// The report of what ran, and the keeper.
fn report_of<J: Naming, Q: Wait + Drop, A: Allocator + Copy, K: Drop>(
    ran: Ran<K, A>,
    publisher: Publisher<J, Q, A>,
) -> (Report<J, Q, A>, K)
    ensures same { (result.0.core ≡ ran.core) × (result.0.shares ≡ ran.shares) × (result.0.images ≡ ran.images) × (result.0.checkpoints ≡ ran.checkpoints) }
    ensures keeper { result.1 ≡ ran.keeper }
    ensures last { result.0.last ≡ published result.0.publisher }
{
    let Ran {
        core,
        shares,
        images,
        checkpoints,
        keeper,
    } = ran;
    let last = publisher.tell();
    let report = Report {
        core,
        shares,
        images,
        checkpoints,
        publisher,
        last,
    };
    (report, keeper)
}
