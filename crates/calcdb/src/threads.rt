//! A run of a script in threads, from its reader to its writer.

ghost use Rattle.std.specs.Prelude.{◌≡◌, ◌≢◌, ◌⊎◌, ◌++◌, ◌∷◌, [], ◌+◌, Err, IfErr, IfOk, IfSome, List, Ok, OnErr, OnOk, Some, is_none, length, true};
ghost use Rattle.std.specs.Io.KnownBytes.{Appends};
ghost use mathlib.Core.List.{IsPrefix};
ghost use Rattle.image.specs.Openings.{is_opening};
ghost use Rattle.procedure.specs.Bytes.{Bytes};
ghost use Rattle.view.specs.Views.{name_of};
ghost use Rattle.workers.specs.Checkpointed.{AreCuts, IsFrom, call_count};
ghost use Rattle.calcdb.specs.Journals.{IfFault, IsTold, LeavesUnrun, taken_of};
ghost use Rattle.calcdb.specs.Outcomes.{Refuses};
ghost use Rattle.calcdb.specs.Plans.{call_commands, keys_of};
ghost use Rattle.calcdb.specs.Runs.{Sent};
ghost use Rattle.calcdb.specs.ThreadRuns.{RunsInThreads, ShowsEach, StopsInThreads, StopsWith, Writes, run_text};
ghost use Rattle.calcdb.specs.ThreadOutcomes.{NotCarriedOut, RunsToEnd};
ghost use Rattle.calcdb.specs.Scripts.{thread_script_of};
ghost use Rattle.calcdb.specs.declared.faults.Fault.TheVariants as fault;
ghost use Rattle.calcdb.specs.declared.faults.Reason.TheVariants as reason;

use crate::core_audits::audit_core;
use crate::engine::{Ran, RanWithImages, refuse_script};
use crate::faults::refusals::write_fault;
use crate::faults::{Fault, Reason};
use crate::journals::{Journal, Stop};
use crate::looking::{Reader, learn, look, look_beside};
use crate::plans::{Plan, plan_of};
use crate::scripts::{SCRIPT_BYTES, Script, ThreadScript, read_thread_script};
use crate::thread_journals::ThreadJournal;
use crate::thread_output::{push_run, push_view};
use image::{Image, Kind};
use procedure::streams::{Unread, WriteFault, read_past, write_out};
use procedure::{Key, NoMemory};
use replay::AuditError;
use std::alloc::Allocator;
use std::io::{Read, Write};
use std::marker::{Brand, PhantomData};
use std::sync::Wait;
use std::sync::atomic::{AtomicBool, Ordering};
use std::thread::{self, Threads};
use steps::Core;
use view::{Naming, Opened, Publisher, Told, open_view};
use workers::checkpointed::{Checkpointed, count_calls};
use workers::{Beginning, Gate, Keeper, NotRun, Report, run_kept};

/// Writes the lines of a run: its calls, its images and its audit.
fn write_ran<W: Write, A: Allocator + Copy>(
    alloc: A,
    writer: &mut W,
    ran: &RanWithImages<A>,
    count: usize,
) -> Result<(), Fault>
    ensures { Sent result (W.contents writer.old) (W.contents writer.new) (run_text count (call_count ran.now.core.log) (length ran.now.images.items) (Ok tt)) }
{
    let audited = audit_core(alloc, &ran.core);
    if audited == Err(AuditError::NoMemory) {
        return Err(Fault::NoMemory);
    }
    let answered = count_calls(ran.core.records()) as u64;
    let images = ran.images.len() as u64;
    let mut lines = Vec::new(alloc);
    match push_run(&mut lines, count as u64, answered, images, audited) {
        Ok(()) => {}
        Err(NoMemory) => return Err(Fault::NoMemory),
    }
    match write_out(writer, lines.as_slice()) {
        Ok(()) => Ok(()),
        Err(WriteFault) => Err(Fault::Write),
    }
}

/// Looks a key up, and writes its line.
fn look_at<J: Naming, W: Write, A: Allocator + Copy>(
    writer: &mut W,
    line: &mut Vec<u8, A>,
    reader: Reader<J, A>,
    key: &Key,
) -> Result<Reader<J, A>, Fault>
    ensures ok { IfOk result (λ r. IsPrefix reader.seen r.seen × ((text : Bytes) × ShowsEach reader.seen (key.now ∷ []) text × Appends (W.contents writer.old) (W.contents writer.new) text)) }
    ensures err { IfErr result (λ f. (text : Bytes) × ShowsEach reader.seen (key.now ∷ []) text × Sent (Err f) (W.contents writer.old) (W.contents writer.new) text) }
{
    let (later, found) = look(reader, key);
    line.clear();
    match push_view(line, key.as_bytes(), &found) {
        Ok(()) => {}
        Err(NoMemory) => return Err(Fault::NoMemory),
    }
    match write_out(writer, line.as_slice()) {
        Ok(()) => Ok(later),
        Err(WriteFault) => Err(Fault::Write),
    }
}

/// Looks keys up, and writes the line of each before the next is looked up.
fn look_each<J: Naming, W: Write, A: Allocator + Copy>(
    alloc: A,
    writer: &mut W,
    reader: Reader<J, A>,
    keys: &[Key],
) -> Result<(), Fault>
    ensures ok { OnOk result ((text : Bytes) × ShowsEach reader.seen keys.now text × Appends (W.contents writer.old) (W.contents writer.new) text) }
    ensures err { IfErr result (λ f. (front left : List Bytes) × (keys.now ≡ front ++ left) × (text : Bytes) × ShowsEach reader.seen front text × Sent (Err f) (W.contents writer.old) (W.contents writer.new) text) }
{
    let mut reader = reader;
    let mut line = Vec::new(alloc);
    for key in keys {
        reader = look_at(writer, &mut line, reader, key)?;
    }
    Ok(())
}

/// A core of the procedures and the opening that the name says, and a keeper that begins as it says.
#[derive(Drop)]
struct Named<J: Beginning<K>, K: Keeper<A> + Drop, A: Allocator> {
    core: Core<A>,
    keeper: K,
    name: PhantomData<J>,
    ghost origin: { IsFrom J.catalog J.opening core },
    ghost begun: { ∥ J.begun ≡ Some keeper ∥₁ },
    ghost told: { ∥ K.Has keeper keeper core.log [] ∥₁ },
}

/// Such a core after a run, with its images, and the keeper, which was told of them and of the log.
#[derive(Drop)]
struct Ended<J: Beginning<K>, K: Keeper<A> + Drop, A: Allocator> {
    taken: Checkpointed<A>,
    keeper: K,
    name: PhantomData<J>,
    ghost origin: { IsFrom J.catalog J.opening taken.core },
    ghost told: { ∥ IfSome J.begun (λ b. K.Has b keeper taken.core.log taken.images) ∥₁ },
}

/// A keeper that was told of nothing since it began as the name says.
#[derive(Drop)]
struct Untold<J: Beginning<K>, K: Drop> {
    keeper: K,
    name: PhantomData<J>,
    ghost begun: { ∥ J.begun ≡ Some keeper ∥₁ },
}

/// A run that was carried out, the keeper that was told of it, and whether all its lines were written.
type Finished<K, A> = (RanWithImages<A>, K, Result<(), Fault>);

/// A run in threads that was carried out.
#[derive(Drop)]
pub(crate) struct CarriedOut<J: Drop, F: Drop, A: Allocator> {
    pub ran: RanWithImages<A>,
    pub journal: J,
    /// How the journal failed, if it did.
    pub failure: Option<F>,
    /// Whether all lines of the run were written.
    pub written: Result<(), Fault>,
}

/// Runs scripts and makes checkpoints, and then says that they have ended. The publisher comes back, with what
/// it published.
fn run_to_end<
    J: Naming + Beginning<K> + Send + Sync,
    Q: Wait + Drop + Send + Sync,
    T: Threads + Wait + Sync,
    A: Allocator + Copy + Send + Sync,
    G: Gate + Sync,
    K: Keeper<A> + Drop + Send,
>(
    threads: &T,
    alloc: A,
    named: Named<J, K, A>,
    scripts: Vec<workers::Script<A>, A>,
    kinds: &[Kind],
    publisher: Publisher<J, Q, A>,
    gate: &G,
    ended: &AtomicBool,
) -> Result<(Ended<J, K, A>, Publisher<J, Q, A>, Told<J, A>), Untold<J, K>> {
    let Named { core, keeper, name } = named;
    let ran = run_kept(
        threads, alloc, core, scripts, kinds, publisher, gate, keeper,
    );
    ended.store(true, Ordering::Relaxed);
    match ran {
        Ok((report, keeper)) => {
            let Report {
                core,
                shares,
                images,
                checkpoints: _,
                publisher,
                last,
            } = report;
            drop(shares);
            let taken = Checkpointed::from_parts(core, images);
            let ended = Ended {
                taken,
                keeper,
                name,
            };
            Ok((ended, publisher, last))
        }
        Err((NotRun { core, publisher }, keeper)) => {
            drop(core);
            drop(publisher);
            let untold = Untold { keeper, name };
            Err(untold)
        }
    }
}

/// Writes what came of a run, and the lines of the keys, by a reader.
fn write_ended<J: Naming, W: Write, A: Allocator + Copy>(
    alloc: A,
    writer: &mut W,
    ran: &RanWithImages<A>,
    reader: Reader<J, A>,
    keys: &[Key],
    count: usize,
) -> Result<(), Fault>
    requires { AreCuts ran.now.core ran.now.images.items }
    ensures ok { OnOk result ((text : Bytes) × RunsInThreads count keys.now ran.now.core ran.now.images.items text × Appends (W.contents writer.old) (W.contents writer.new) text) }
    ensures err { IfErr result (StopsInThreads count keys.now ran.now.core ran.now.images.items (W.contents writer.old) (W.contents writer.new)) }
{
    match write_ran(alloc, writer, ran, count) {
        Ok(()) => look_each(alloc, writer, reader, keys),
        Err(fault) => {
            drop(reader);
            Err(fault)
        }
    }
}

/// Writes what came of a run, and the lines of the keys, by a reader that learns what was published last. Where the
/// keeper has failed it writes nothing.
fn finish_run<
    J: Naming + Beginning<K>,
    Q: Wait + Drop,
    W: Write,
    A: Allocator + Copy,
    K: Keeper<A> + Drop,
>(
    alloc: A,
    writer: &mut W,
    ended: Ended<J, K, A>,
    publisher: Publisher<J, Q, A>,
    last: Told<J, A>,
    reader: Reader<J, A>,
    keys: Vec<Key, A>,
    count: usize,
) -> Finished<K, A>
    ensures written { Writes (K.is_going result.1) count keys.items result.0.core result.0.images.items (W.contents writer.old) (W.contents writer.new) result.2 }
    ensures origin { IsFrom J.catalog J.opening result.0.core }
    ensures told { ∥ IfSome J.begun (λ b. K.Has b result.1 result.0.core.log result.0.images.items) ∥₁ }
{
    let Ended { taken, keeper, .. } = ended;
    let (core, images) = taken.into_parts();
    let ran = Ran { core, images };
    let reader = learn(reader, last);
    if !keeper.goes_on() {
        drop(reader);
        drop(keys);
        drop(publisher);
        return (ran, keeper, Ok(()));
    }
    let written = write_ended(alloc, writer, &ran, reader, keys.as_slice(), count);
    drop(keys);
    // The table is open to lookers as long as there is its publisher.
    drop(publisher);
    (ran, keeper, written)
}

/// Carries out a plan on a core, beside a thread in which the reader looks the keys up, and writes what came
/// of it. Without memory for its sessions it hands the keeper back.
fn run_plan<
    'a,
    J: Naming + Beginning<K> + Send + Sync,
    W: Write,
    T: Threads + Wait + Sync,
    A: Allocator + Copy + Send + Sync,
    G: Gate + Sync,
    K: Keeper<A> + Drop + Send,
>(
    threads: &'a T,
    alloc: A,
    writer: &mut W,
    named: Named<J, K, A>,
    plan: Plan<A>,
    publisher: Publisher<J, &'a T, A>,
    reader: Reader<J, A>,
    gate: &G,
) -> Result<Finished<K, A>, K>
    ensures written { IfOk result (λ r. Writes (K.is_going r.1) plan.count plan.keys.items r.0.core r.0.images.items (W.contents writer.old) (W.contents writer.new) r.2) }
    ensures origin { IfOk result (λ r. IsFrom J.catalog J.opening r.0.core) }
    ensures told { IfOk result (λ r. ∥ IfSome J.begun (λ b. K.Has b r.1 r.0.core.log r.0.images.items) ∥₁) }
    ensures begun { IfErr result (λ k. ∥ J.begun ≡ Some k ∥₁) }
    ensures err { OnErr result (W.contents writer.new ≡ W.contents writer.old) }
{
    let Plan {
        scripts,
        kinds,
        keys,
        count,
    } = plan;
    let has_ended = AtomicBool::new(false);
    let ended = &has_ended;
    let wanted = keys.as_slice();
    let asked = kinds.as_slice();
    let looks = move || look_beside(threads, reader, wanted, ended);
    let runs = move || run_to_end(
        threads, alloc, named, scripts, asked, publisher, gate, ended,
    );
    let (reader, ran) = thread::join(threads, looks, runs);
    match ran {
        Ok((ended, publisher, last)) => {
            Ok(finish_run(alloc, writer, ended, publisher, last, reader, keys, count))
        }
        Err(Untold { keeper, .. }) => {
            drop(reader);
            drop(keys);
            Err(keeper)
        }
    }
}

/// Carries out a plan on a core, in a view of its own.
fn run_in_view<
    J: Naming + Beginning<K> + Send + Sync,
    W: Write,
    T: Threads + Wait + Sync,
    A: Allocator + Copy + Send + Sync,
    G: Gate + Sync,
    K: Keeper<A> + Drop + Send,
>(
    threads: &T,
    alloc: A,
    writer: &mut W,
    core: Core<A>,
    keeper: K,
    plan: Plan<A>,
    opened: Opened<A>,
    gate: &G,
) -> Result<Finished<K, A>, (Fault, K)>
    requires name { name_of opened ≡ J.book }
    requires origin { IsFrom J.catalog J.opening core }
    requires begun { ∥ J.begun ≡ Some keeper ∥₁ }
    requires told { ∥ K.Has keeper keeper core.log [] ∥₁ }
    ensures written { IfOk result (λ r. Writes (K.is_going r.1) plan.count plan.keys.items r.0.core r.0.images.items (W.contents writer.old) (W.contents writer.new) r.2) }
    ensures origin { IfOk result (λ r. IsFrom J.catalog J.opening r.0.core) }
    ensures told { IfOk result (λ r. ∥ IfSome J.begun (λ b. K.Has b r.1 r.0.core.log r.0.images.items) ∥₁) }
    ensures begun { IfErr result (λ e. ∥ J.begun ≡ Some e.1 ∥₁) }
    ensures err { IfErr result (λ e. Refuses (fault.Refused reason.NoView) (W.contents writer.old) (W.contents writer.new) e.0 ⊎ ((e.0 ≡ fault.NoMemory) × Appends (W.contents writer.old) (W.contents writer.new) [])) }
{
    match open_view::<J, &T, A>(alloc, threads, opened) {
        Ok((publisher, looker, seen)) => {
            let name = PhantomData;
            let reader = Reader { looker, seen };
            let ran = run_plan(
                threads,
                alloc,
                writer,
                Named { core, keeper, name },
                plan,
                publisher,
                reader,
                gate,
            );
            match ran {
                Ok(ran) => Ok(ran),
                Err(keeper) => Err((Fault::NoMemory, keeper)),
            }
        }
        Err(_) => {
            drop(core);
            drop(plan);
            let refused = Fault::Refused(Reason::NoView);
            Err((write_fault(alloc, writer, refused), keeper))
        }
    }
}

/// Carries out a plan on a core that was just opened, in a view of its own. The journal has what the core was opened
/// with.
fn run_begun<
    'a,
    N: Journal<R, A> + Drop + Send,
    R: Sync,
    W: Write,
    T: Threads + Wait + Sync,
    A: Allocator + Copy + Send + Sync,
    G: Gate + Sync,
>(
    threads: &T,
    alloc: A,
    keeper: ThreadJournal<'a, N, R, A>,
    writer: &mut W,
    core: Core<A>,
    plan: Plan<A>,
    gate: &G,
) -> Result<CarriedOut<N, N::Failure, A>, (Fault, N)>
where
    N::Failure: Send,
    requires { core.log ≡ [] }
    ensures written { IfOk result (λ r. Writes (is_none r.failure) plan.count plan.keys.items r.ran.core r.ran.images.items (W.contents writer.old) (W.contents writer.new) r.written) }
    ensures origin { IfOk result (λ r. IsFrom core.catalog core.opening r.ran.core) }
    ensures told { (start : N) → IsTold N.Has N.HasFront start keeper.entry.journal keeper.entry.failure (taken_of core []) →
        IfOk result (λ r. ∥ IsTold N.Has N.HasFront start r.journal r.failure (taken_of r.ran.core r.ran.images.items) ∥₁) }
    ensures same { IfErr result (λ e. ∥ keeper.entry.journal ≡ e.1 ∥₁) }
    ensures err { IfErr result (λ e. Refuses (fault.Refused reason.NoView) (W.contents writer.old) (W.contents writer.new) e.0 ⊎ ((e.0 ≡ fault.NoMemory) × Appends (W.contents writer.old) (W.contents writer.new) [])) }
{
    let ran = run_in_view::<Brand, W, T, A, G, ThreadJournal<'a, N, R, A>>(
        threads,
        alloc,
        writer,
        core,
        keeper,
        plan,
        Opened::new(),
        gate,
    );
    match ran {
        Ok((ran, keeper, written)) => {
            let ThreadJournal {
                journal,
                failure,
                ..
            } = keeper;
            Ok(CarriedOut {
                ran,
                journal,
                failure,
                written,
            })
        }
        Err((fault, keeper)) => {
            let ThreadJournal { journal, .. } = keeper;
            Err((fault, journal))
        }
    }
}

/// Carries out a script on a core that is opened for it, of which the journal has the opening before any call.
fn run_opened<
    'a,
    N: Journal<R, A> + Drop + Send,
    R: Sync,
    W: Write,
    T: Threads + Wait + Sync,
    A: Allocator + Copy + Send + Sync,
    G: Gate + Sync,
>(
    threads: &T,
    alloc: A,
    rt: &'a R,
    mut journal: N,
    writer: &mut W,
    script: ThreadScript<A>,
    opening: Image<A>,
    gate: &G,
) -> Result<CarriedOut<N, N::Failure, A>, (Stop<N::Failure>, N)>
where
    N::Failure: Send,
    requires { is_opening opening ≡ true }
    ensures written { IfOk result (λ r. Writes (is_none r.failure) (length (call_commands script.commands)) (keys_of script.commands) r.ran.core r.ran.images.items (W.contents writer.old) (W.contents writer.new) r.written) }
    ensures origin { IfOk result (λ r. IsFrom script.catalog opening r.ran.core) }
    ensures told { IfOk result (λ r. ∥ IsTold N.Has N.HasFront journal r.journal r.failure (taken_of r.ran.core r.ran.images.items) ∥₁) }
    ensures left { IfErr result (λ e. ∥ LeavesUnrun (Ok script) opening (e.1 ≡ journal) (N.Has journal e.1) (N.HasFront journal e.1) e.0 ∥₁) }
    ensures err { IfErr result (λ e. StopsWith (λ f. Refuses (fault.Refused reason.NoView) (W.contents writer.old) (W.contents writer.new) f ⊎ ((f ≡ fault.NoMemory) × Appends (W.contents writer.old) (W.contents writer.new) [])) (Appends (W.contents writer.old) (W.contents writer.new) []) e.0) }
{
    let Script { catalog, commands } = script;
    let Ok(plan) = plan_of(alloc, commands.into_vec()) else {
        return Err((Stop::Fault(Fault::NoMemory), journal));
    };
    let Ok(core) = Core::open(alloc, catalog, opening) else {
        // The opening is one, so memory was wanting.
        drop(plan);
        return Err((Stop::Fault(Fault::NoMemory), journal));
    };
    match journal.open(alloc, rt, &core) {
        Ok(()) => {
            let keeper = ThreadJournal {
                alloc,
                rt,
                journal,
                failure: None,
            };
            match run_begun(threads, alloc, keeper, writer, core, plan, gate) {
                Ok(ran) => Ok(ran),
                Err((fault, journal)) => Err((Stop::Fault(fault), journal)),
            }
        }
        Err(failure) => {
            drop(core);
            drop(plan);
            Err((Stop::Journal(failure), journal))
        }
    }
}

/// Checks a text and carries it out.
fn run_text<
    'a,
    N: Journal<R, A> + Drop + Send,
    R: Sync,
    W: Write,
    T: Threads + Wait + Sync,
    A: Allocator + Copy + Send + Sync,
    G: Gate + Sync,
>(
    threads: &T,
    alloc: A,
    rt: &'a R,
    journal: N,
    writer: &mut W,
    text: Vec<u8, A>,
    opening: Image<A>,
    gate: &G,
) -> Result<CarriedOut<N, N::Failure, A>, (Stop<N::Failure>, N)>
where
    N::Failure: Send,
    requires { is_opening opening ≡ true }
    ensures run { IfOk result (λ r. RunsToEnd (is_none r.failure) (thread_script_of text.items) opening r.ran.core r.ran.images.items (W.contents writer.old) (W.contents writer.new) r.written) }
    ensures told { IfOk result (λ r. ∥ IsTold N.Has N.HasFront journal r.journal r.failure (taken_of r.ran.core r.ran.images.items) ∥₁) }
    ensures left { IfErr result (λ e. ∥ LeavesUnrun (thread_script_of text.items) opening (e.1 ≡ journal) (N.Has journal e.1) (N.HasFront journal e.1) e.0 ∥₁) }
    ensures fault { IfErr result (λ e. StopsWith (NotCarriedOut (thread_script_of text.items) opening (W.contents writer.old) (W.contents writer.new)) (Appends (W.contents writer.old) (W.contents writer.new) []) e.0) }
    ensures unread { IfErr result (λ e. IfFault (λ f. f ≢ fault.Read) e.0) }
{
    let read = read_thread_script(alloc, text.as_slice());
    // Its memory isn't needed while the script is carried out.
    drop(text);
    match read {
        Ok(script) => run_opened(threads, alloc, rt, journal, writer, script, opening, gate),
        Err(fault) => Err((Stop::Fault(refuse_script(alloc, writer, fault)), journal)),
    }
}

/// Runs the script that a reader gives in threads, on a core that is opened from an image: the calls of each
/// session in one of their own, the checkpoints in another, and beside them a looker that gets the keys. At
/// the end it writes what came of them. The opening is looked at first, then the whole text; where one of them
/// is faulty, or no view can be opened, one line says so and nothing else is written. A read that fails, by an
/// interruption too, ends the run before it begins. A write that fails so, and a write of no byte, end what is
/// written. The threads pass the gate before each step.
///
/// A journal has what the core was opened with before the first call, and each record and image while the core's
/// lock is held. It comes back with its failure, if it failed; then each session ended after its next answer, and
/// nothing is written. Where nothing was run it comes back too.
pub(crate) fn run_threads<
    'a,
    N: Journal<R, A> + Drop + Send,
    R: Sync,
    I: Read,
    W: Write,
    T: Threads + Wait + Sync,
    A: Allocator + Copy + Send + Sync,
    G: Gate + Sync,
>(
    threads: &T,
    alloc: A,
    rt: &'a R,
    journal: N,
    reader: &mut I,
    writer: &mut W,
    opening: Image<A>,
    gate: &G,
) -> Result<CarriedOut<N, N::Failure, A>, (Stop<N::Failure>, N)>
where
    N::Failure: Send,
    // Where the reader tells its bytes: the core has the script's procedures and the opening, each image is that
    // of its checkpoint in its log, the log passes its audit, and the lines of all that were written, or a beginning
    // of them.
    ensures run { IfOk result (λ r. (source : Bytes) → I.remaining reader.old ≡ Some source → RunsToEnd (is_none r.failure) (thread_script_of source) opening r.ran.core r.ran.images.items (W.contents writer.old) (W.contents writer.new) r.written) }
    // The journal has all of the core's log and the images, or where it failed a front of what it was told of by then.
    ensures told { IfOk result (λ r. ∥ IsTold N.Has N.HasFront journal r.journal r.failure (taken_of r.ran.core r.ran.images.items) ∥₁) }
    // Where nothing was run it is as it was, or has what a core was opened with, or a front of that where it failed.
    ensures left { IfErr result (λ e. (source : Bytes) → I.remaining reader.old ≡ Some source → ∥ LeavesUnrun (thread_script_of source) opening (e.1 ≡ journal) (N.Has journal e.1) (N.HasFront journal e.1) e.0 ∥₁) }
    // And then the one line of the fault was written, or a beginning of it; nothing where the journal couldn't begin.
    ensures fault { IfErr result (λ e. (source : Bytes) → I.remaining reader.old ≡ Some source → StopsWith (NotCarriedOut (thread_script_of source) opening (W.contents writer.old) (W.contents writer.new)) (Appends (W.contents writer.old) (W.contents writer.new) []) e.0) }
{
    if !opening.is_opening() {
        let refused = Fault::Refused(Reason::NotAnOpening);
        return Err((Stop::Fault(write_fault(alloc, writer, refused)), journal));
    }
    let text = match read_past(alloc, reader, SCRIPT_BYTES) {
        Ok(text) => text,
        Err(unread) => {
            let fault = match unread {
                Unread::ReadFault => Fault::Read,
                Unread::NoMemory => Fault::NoMemory,
            };
            return Err((Stop::Fault(fault), journal));
        }
    };
    run_text(threads, alloc, rt, journal, writer, text, opening, gate)
}
