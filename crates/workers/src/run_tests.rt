//! Tests of what threads alone show: that their answers are the calls of the log, that sessions run beside
//! each other and beside a checkpoint, and when turns run out.
ghost use Rattle.std.specs.Prelude.{◌≡◌, ◌<◌};
ghost use Rattle.view.specs.Views.{name_of};
ghost use Rattle.workers.specs.Checkpointed.{IsFrom};

use crate::checkpointing::run_checkpoints;
use crate::checkpoints::Progress;
use crate::errors::GatherError;
use crate::gates::{Gate, Open, Point};
use crate::gathering::gather;
use crate::keepers::{Beginning, NoKeeper};
use crate::runs::{NotRun, Report, Script, run_all};
use crate::sessions::run_session;
use crate::shared::Shared;
use crate::shares::{Given, Response, Share};
use commitlog::{Entry, Record};
use image::{Image, Kind};
use phase::Phase;
use procedure::{Call, Catalog, Code, Instr, Key, Operand, Procedure, Sequence, Value};
use std::alloc::Global;
use std::marker::Brand;
use std::sync::Wait;
use std::sync::atomic::{AtomicU64, Ordering};
use std::sync::ledger::Blank;
use std::test::Fail;
use std::thread;
use std::thread::Threads;
use steps::{Arguments, Core};
use view::{Looker, Naming, Opened, Publisher, Seen, Told, open_view};

pub(crate) const GET: u16 = 0;

pub(crate) const SET: u16 = 1;

pub(crate) const SWAP: u16 = 2;

/// A call: number, procedure, key and value. `get` takes the key alone.
pub(crate) type Line = (u64, u16, u8, u8);

fn read() -> Instr<Value<Global>> {
    Instr::Read(0, Operand::Arg(0))
}

fn put() -> Instr<Value<Global>> {
    Instr::Put(Operand::Arg(0), Operand::Arg(1))
}

fn get(alloc: Global) -> Result<Procedure<Global>, Fail> {
    let code = Code::new(vec![in alloc; read()]?)?;
    Ok(Procedure { arity: 1, code })
}

fn set(alloc: Global) -> Result<Procedure<Global>, Fail> {
    let code = Code::new(vec![in alloc; put()]?)?;
    Ok(Procedure { arity: 2, code })
}

fn swap(alloc: Global) -> Result<Procedure<Global>, Fail> {
    let code = Code::new(vec![in alloc; read(), put()]?)?;
    Ok(Procedure { arity: 2, code })
}

/// The procedures `get`, `set` and `swap`, which reads the key that it puts.
fn catalog(alloc: Global) -> Result<Catalog<Global>, Fail> {
    let mut all = Vec::new(alloc);
    all.push(get(alloc)?)?;
    all.push(set(alloc)?)?;
    all.push(swap(alloc)?)?;
    Ok(Catalog::new(Sequence::new(all))?)
}

/// A core over the empty opening.
pub(crate) fn opened(alloc: Global) -> Result<Core<Global>, Fail> {
    let catalog = catalog(alloc)?;
    match Image::new(Kind::Full, 0, 0, 0, Vec::new(alloc)) {
        Some(opening) => Ok(Core::open(alloc, catalog, opening)?),
        None => Err("no opening".into()),
    }
}

fn value(alloc: Global, byte: u8) -> Result<Value<Global>, Fail> {
    Ok(Value::new(vec![in alloc; byte]?).ok_or("no value")?)
}

/// The arguments of a call.
fn args(alloc: Global, line: &Line) -> Result<Vec<Value<Global>, Global>, Fail> {
    let mut args = Vec::new(alloc);
    args.push(value(alloc, line.2)?)?;
    if line.1 != GET {
        args.push(value(alloc, line.3)?)?;
    }
    Ok(args)
}

fn call(alloc: Global, line: &Line) -> Result<Call<Global>, Fail> {
    Ok(Call {
        session: 99,
        number: line.0,
        procedure: line.1,
        args: Sequence::new(args(alloc, line)?),
    })
}

fn calls(alloc: Global, lines: &[Line]) -> Result<Vec<Call<Global>, Global>, Fail> {
    let mut all = Vec::new(alloc);
    for line in lines {
        all.push(call(alloc, line)?)?;
    }
    Ok(all)
}

/// Scripts of sessions 0, 1 and so on.
pub(crate) fn scripts(
    alloc: Global,
    lines: &[&[Line]],
) -> Result<Vec<Script<Global>, Global>, Fail> {
    let mut all = Vec::new(alloc);
    let mut session = 0u16;
    for own in lines {
        all.push(Script {
            session,
            calls: calls(alloc, own)?,
        })?;
        session = session.wrapping_add(1);
    }
    Ok(all)
}

/// What a run begins with.
#[derive(Drop)]
pub(crate) struct Begun {
    pub(crate) core: Core<Global>,
    pub(crate) scripts: Vec<Script<Global>, Global>,
}

/// A core over the empty opening, and scripts.
pub(crate) fn begun_with(alloc: Global, lines: &[&[Line]]) -> Result<Begun, Fail> {
    let scripts = scripts(alloc, lines)?;
    match opened(alloc) {
        Ok(core) => Ok(Begun { core, scripts }),
        Err(fail) => {
            drop(scripts);
            Err(fail)
        }
    }
}

/// How many records are calls of a session, and where its last one stands.
fn calls_in(records: &[Record<Global>], session: u16) -> (usize, usize) {
    let mut count = 0usize;
    let mut last = 0;
    for (place, found) in records.iter().enumerate() {
        if let Entry::Call { call, .. } = found.entry() {
            if call.session == session {
                count = count.wrapping_add(1);
                last = place;
            }
        }
    }
    (count, last)
}

/// The place of the first resolve token.
pub(crate) fn resolve_in(records: &[Record<Global>]) -> Option<usize> {
    records.iter().position(|found| {
        matches!(
            found.entry(),
            Entry::Token {
                phase: Phase::Resolve,
                ..
            }
        )
    })
}

/// What a run came to.
#[derive(Clone, Copy, Debug, PartialEq, Eq)]
struct Outcome {
    checkpoints: Progress,
    /// Whether the answers are the calls of the log.
    gathered: Result<(), GatherError>,
    /// How many calls session 1 has in the log.
    calls: usize,
    /// Whether the last call of session 0 stands before the first resolve token.
    before: bool,
    images: usize,
}

/// The number of the image that a looker sees who learnt what was told.
fn shown<J: Naming>(
    looker: &mut Looker<J, Global>,
    seen: Seen<J, Global>,
    last: Told<J, Global>,
    key: &Key,
) -> Option<u64> {
    let seen = looker.learn(seen, last);
    let found = looker.get(seen, key);
    let number = match &found {
        Ok(answer) => Some(answer.number),
        Err(_) => None,
    };
    drop(found);
    number
}

fn outcome_of(
    alloc: Global,
    core: &Core<Global>,
    shares: Vec<Share<(), Global>, Global>,
    images: usize,
    checkpoints: Progress,
) -> Outcome {
    let records = core.records();
    Outcome {
        checkpoints,
        gathered: gather(alloc, records, shares),
        calls: calls_in(records, 1).0,
        before: Some(calls_in(records, 0).1) < resolve_in(records),
        images,
    }
}

/// What a report tells, and the number of the image that is published.
fn told<J: Naming, R: Wait>(
    alloc: Global,
    report: Report<J, &R, Global>,
    looker: &mut Looker<J, Global>,
    seen: Seen<J, Global>,
    key: &Key,
) -> (Outcome, Option<u64>) {
    let Report {
        core,
        shares,
        images,
        checkpoints,
        publisher,
        last,
    } = report;
    let number = shown(looker, seen, last, key);
    // The table is open to lookers as long as there is its publisher.
    drop(publisher);
    let outcome = outcome_of(alloc, &core, shares, images.len(), checkpoints);
    drop(images);
    drop(core);
    (outcome, number)
}

/// What a run came to, and the number of the image that is published.
fn ran<J: Naming + Send + Sync, R: Threads + Wait + Sync, G: Gate + Sync>(
    rt: &R,
    alloc: Global,
    begun: Begun,
    kinds: &[Kind],
    publisher: Publisher<J, &R, Global>,
    looker: &mut Looker<J, Global>,
    seen: Seen<J, Global>,
    key: &Key,
    gate: &G,
) -> Option<(Outcome, Option<u64>)> {
    let Begun { core, scripts } = begun;
    match run_all(rt, alloc, core, scripts, kinds, publisher, gate) {
        Ok(report) => Some(told(alloc, report, looker, seen, key)),
        Err(NotRun { core, publisher }) => {
            drop(core);
            drop(publisher);
            drop(seen);
            None
        }
    }
}

fn run_in_view<J: Naming + Send + Sync, R: Threads + Wait + Sync, G: Gate + Sync>(
    rt: &R,
    alloc: Global,
    opened_view: Opened<Global>,
    begun: Begun,
    kinds: &[Kind],
    key: &Key,
    gate: &G,
) -> Result<Option<(Outcome, Option<u64>)>, Fail>
    requires { name_of opened_view ≡ J.book }
{
    match open_view::<J, &R, Global>(alloc, rt, opened_view) {
        Ok((publisher, mut looker, seen)) => {
            let told = ran(
                rt,
                alloc,
                begun,
                kinds,
                publisher,
                &mut looker,
                seen,
                key,
                gate,
            );
            drop(looker);
            Ok(told)
        }
        Err(refused) => {
            drop(begun);
            Err(refused.into())
        }
    }
}

/// What a run of the sessions tells, in a view of its own, in which a key is looked up.
fn run_sessions<R: Threads + Wait + Sync, G: Gate + Sync>(
    rt: &R,
    alloc: Global,
    sessions: &[&[Line]],
    kinds: &[Kind],
    gate: &G,
) -> Result<Option<(Outcome, Option<u64>)>, Fail> {
    let key = Key::new(b"a").ok_or("no key")?;
    let begun = begun_with(alloc, sessions)?;
    run_in_view::<Brand, _, _>(rt, alloc, Opened::new(), begun, kinds, &key, gate)
}

pub(crate) const TWO_SESSIONS: [&[Line]; 2] = [
    &[(1, SET, b'a', 1), (2, GET, b'a', 0), (7, SWAP, b'a', 2)],
    &[(1, SWAP, b'a', 3), (3, SET, b'b', 4), (4, GET, b'a', 0)],
];

/// Two sessions that meet at a key, beside a full and a partial checkpoint, whose images are published.
#[test]
fn sessions_beside_checkpoints(rt: HostRuntime) -> Result<(), Fail> {
    let kinds = [Kind::Full, Kind::Partial];
    let ran = run_sessions(&rt, rt.alloc(), &TWO_SESSIONS, &kinds, &Open)?;
    let told = ran.map(|(o, number)| (o.checkpoints, o.gathered, o.calls, o.images, number));
    assert_eq!(rt; told, Some((Progress::Done, Ok(()), 3, 2, Some(2))));
    Ok(())
}

/// How many points of a kind were passed, and how often a gate stayed shut.
#[derive(Drop)]
struct Passed {
    steps: AtomicU64,
    begins: AtomicU64,
    advances: AtomicU64,
    shut: AtomicU64,
}

fn now(count: &AtomicU64) -> u64 {
    count.load(Ordering::SeqCst)
}

impl Passed {
    /// Holds until each count has come so far.
    fn hold(&self, steps: u64, begins: u64, advances: u64) {
        for _ in 0..1_000_000 {
            if now(&self.steps) >= steps
                && now(&self.begins) >= begins
                && now(&self.advances) >= advances
            {
                return;
            }
            thread::yield_now();
        }
        self.shut.fetch_add(1, Ordering::SeqCst);
    }
}

/// The first advance and the first begin of session 1 wait for the first step of session 0; its second step
/// waits for the second begin of session 1 and the third advance.
impl Gate for Passed {
    fn pass(&self, point: Point) {
        match point {
            Point::Advance => {
                self.hold(1, 0, 0);
                self.advances.fetch_add(1, Ordering::SeqCst);
            }
            Point::Begin(1) => {
                self.hold(1, 0, 0);
                self.begins.fetch_add(1, Ordering::SeqCst);
            }
            Point::Step(0) => {
                if now(&self.steps) == 1 {
                    self.hold(0, 2, 3);
                }
                self.steps.fetch_add(1, Ordering::SeqCst);
            }
            _ => {}
        }
    }
}

const GATED: [&[Line]; 2] = [
    &[(1, SWAP, b'a', 2)],
    &[(1, SET, b'b', 3), (2, GET, b'b', 0)],
];

/// A call of session 0 stays open while session 1 makes two calls and a checkpoint begins, which then waits
/// for it: it stands before the cut. No order of one thread passes this gate.
#[test]
fn sessions_at_a_gate(rt: HostRuntime) -> Result<(), Fail> {
    let gate = Passed {
        steps: AtomicU64::new(0),
        begins: AtomicU64::new(0),
        advances: AtomicU64::new(0),
        shut: AtomicU64::new(0),
    };
    let ran = run_sessions(&rt, rt.alloc(), &GATED, &[Kind::Full], &gate);
    let shut = now(&gate.shut);
    drop(gate);
    let expected = Outcome {
        checkpoints: Progress::Done,
        gathered: Ok(()),
        calls: 2,
        before: true,
        images: 1,
    };
    assert_eq!(rt; (ran?, shut), (Some((expected, Some(1))), 0));
    Ok(())
}

/// The bytes of a key and of a value.
fn two_args(alloc: Global) -> Result<Vec<Vec<u8, Global>, Global>, Fail> {
    let mut args = Vec::new(alloc);
    args.push(vec![in alloc; b'a']?)?;
    args.push(vec![in alloc; 1u8]?)?;
    Ok(args)
}

/// Session 9 begins a call, which reads a key.
fn hold(alloc: Global, core: &mut Core<Global>) -> Result<(), Fail> {
    core.begin(9, 1, SWAP, Arguments::of_bytes(two_args(alloc)?))?;
    core.step(9)?;
    Ok(())
}

/// A core in which session 9 has an open call that read a key.
pub(crate) fn held(alloc: Global) -> Result<Core<Global>, Fail> {
    let mut core = opened(alloc)?;
    match hold(alloc, &mut core) {
        Ok(()) => Ok(core),
        Err(fail) => {
            drop(core);
            Err(fail)
        }
    }
}

fn is_turns_out(response: &Response<Global>) -> bool {
    matches!(response.given, Given::TurnsOut)
}

/// How many answers a session is given, and how many of them are that its turns ran out, while another holds
/// the key of its first call; and where checkpoints stop then.
fn run_out<L: Beginning<NoKeeper>, R: Wait>(
    rt: &R,
    alloc: Global,
    core: Core<Global>,
    calls: &[Call<Global>],
    blank: Blank,
    turns: u64,
) -> (usize, usize, Progress)
    requires name { blank.name ≡ L.name }
    requires parts { blank.parts ≡ L.parts }
    requires origin { IsFrom L.catalog L.opening core }
    requires some { 0 < L.parts }
{
    let (shared, tally) = Shared::<L, NoKeeper, Global>::new(
        core,
        Vec::new(alloc),
        blank,
        NoKeeper,
    );
    let share = run_session(rt, Vec::new(alloc), &shared, tally, 0, calls, turns, &Open);
    let progress = run_checkpoints(rt, &shared, &[Kind::Full, Kind::Full], turns, &Open);
    let out = share
        .answers
        .iter()
        .filter(|response| is_turns_out(response))
        .count();
    (share.answers.len(), out, progress)
}

fn run_out_after<R: Wait>(
    rt: &R,
    alloc: Global,
    turns: u64,
) -> Result<(usize, usize, Progress), Fail> {
    let calls = calls(alloc, &[(1, SET, b'a', 1), (2, SET, b'b', 1)])?;
    let core = held(alloc)?;
    Ok(run_out::<Brand, _>(rt, alloc, core, calls.as_slice(), Blank::new(1), turns))
}

/// A call that meets a conflict at every turn, and the one after it; and a checkpoint that waits for a call.
#[test]
fn turns_run_out(rt: HostRuntime) -> Result<(), Fail> {
    for turns in [0, 1, 3] {
        let given = run_out_after(&rt, rt.alloc(), turns)?;
        assert_eq!(rt; given, (2, 2, Progress::TurnsOut(0)));
    }
    Ok(())
}
