//! A run of a script, from its reader to its writer.

ghost use Rattle.std.specs.Prelude.{◌≡◌, ◌≢◌, ◌⊎◌, [], IfErr, IfOk, Some, true};
ghost use Rattle.std.specs.Io.KnownBytes.{Appends};
ghost use Rattle.procedure.specs.Bytes.{Bytes};
ghost use Rattle.image.specs.Openings.{is_opening};
ghost use Rattle.steps.specs.Openings.{IsOpened};
ghost use Rattle.steps.specs.CoreViews.{CoreView};
ghost use Rattle.calcdb.specs.Journals.{IfFault, IsUnopened, LeavesJournal, StopsFrom, StopsIn, StopsKept, taken_of};
ghost use Rattle.calcdb.specs.Outcomes.{EndsRun, RefusesScript, RunsTo};
ghost use Rattle.calcdb.specs.Scripts.{schedule_of};
ghost use Rattle.calcdb.specs.Runs.{Carried, CarriesAll, Images};
ghost use Rattle.calcdb.specs.declared.faults.Fault.TheVariants as fault;

use crate::command_queue::CommandQueue;
use crate::faults::refusals::write_fault;
use crate::faults::{Fault, Reason};
use crate::journals::{Journal, NoJournal, Stop};
use crate::run::run_commands;
use crate::scripts::{SCRIPT_BYTES, Schedule, Script, ScriptFault, read_schedule};
use crate::sinks::Sink;
use image::Image;
use procedure::streams::{Unread, read_past};
use std::alloc::Allocator;
use std::io::{Read, Write};
use steps::Core;

/// What a run leaves: the core, and what the images that were taken were given to.
#[derive(Drop)]
pub(crate) struct Ran<P, A: Allocator> {
    pub core: Core<A>,
    pub images: P,
}

/// What a run leaves whose images are kept, in order.
pub(crate) type RanWithImages<A> = Ran<Vec<Image<A>, A>, A>;

/// Writes the one line of a text that is no script.
pub(crate) fn refuse_script<W: Write, A: Allocator + Clone>(
    alloc: A,
    writer: &mut W,
    fault: ScriptFault,
) -> Fault
    ensures { RefusesScript fault (W.contents writer.old) (W.contents writer.new) result }
{
    match fault {
        ScriptFault::Line(faulty) => write_fault(alloc, writer, Fault::Line(faulty)),
        ScriptFault::Size => write_fault(alloc, writer, Fault::Size),
        ScriptFault::NoMemory => Fault::NoMemory,
    }
}

/// Carries out commands on a core.
fn run_on<P: Sink<Image<A>> + Drop, J: Journal<R, A>, R, W: Write, A: Allocator + Copy>(
    alloc: A,
    rt: &R,
    journal: &mut J,
    writer: &mut W,
    sink: P,
    mut core: Core<A>,
    commands: CommandQueue<A>,
) -> Result<Ran<P, A>, Stop<J::Failure>>
    requires { P.Has sink [] }
    ensures ok { IfOk result (λ r. (text : Bytes) × (images : Images) × P.Has r.images images × Carried {A = A} (CarriesAll core.catalog commands) core r.core text images
        × Appends (W.contents writer.old) (W.contents writer.new) text
        × ((start : J) → J.Has start journal.old (taken_of core []) → J.Has start journal.new (taken_of r.core images))) }
    ensures err { (start : J) → J.Has start journal.old (taken_of core []) → IfErr result (λ s. (new : CoreView) × StopsIn A core.catalog commands core new (W.contents writer.old) (W.contents writer.new) (J.Has start journal.new) (J.HasFront start journal.new) s) }
{
    match run_commands(alloc, rt, journal, &mut core, writer, sink, commands) {
        Ok(images) => Ok(Ran { core, images }),
        Err(stop) => {
            drop(core);
            Err(stop)
        }
    }
}

/// Carries out commands on a core that was just opened, of which the journal has the opening before the first
/// command.
fn run_begun<P: Sink<Image<A>> + Drop, J: Journal<R, A>, R, W: Write, A: Allocator + Copy>(
    alloc: A,
    rt: &R,
    journal: &mut J,
    writer: &mut W,
    sink: P,
    core: Core<A>,
    commands: CommandQueue<A>,
) -> Result<Ran<P, A>, Stop<J::Failure>>
    requires log { core.log ≡ [] }
    requires sink { P.Has sink [] }
    ensures ok { IfOk result (λ r. (text : Bytes) × (images : Images) × P.Has r.images images × Carried {A = A} (CarriesAll core.catalog commands) core r.core text images
        × Appends (W.contents writer.old) (W.contents writer.new) text × J.Has journal.old journal.new (taken_of r.core images)) }
    ensures err { IfErr result (λ s. StopsFrom A core.catalog commands core (W.contents writer.old) (W.contents writer.new) (J.Has journal.old journal.new) (J.HasFront journal.old journal.new) s) }
{
    match journal.open(alloc, rt, &core) {
        Ok(()) => run_on(alloc, rt, journal, writer, sink, core, commands),
        Err(failure) => {
            drop(core);
            drop(commands);
            drop(sink);
            Err(Stop::Journal(failure))
        }
    }
}

/// Carries out a script on a core that is opened for it.
fn run_opened<P: Sink<Image<A>> + Drop, J: Journal<R, A>, R, W: Write, A: Allocator + Copy>(
    alloc: A,
    rt: &R,
    journal: &mut J,
    writer: &mut W,
    sink: P,
    script: Schedule<A>,
    opening: Image<A>,
) -> Result<Ran<P, A>, Stop<J::Failure>>
    requires opening { is_opening opening ≡ true }
    requires sink { P.Has sink [] }
    ensures ok { IfOk result (λ r. (first : CoreView) × (text : Bytes) × (images : Images) × IsOpened script.catalog opening first × P.Has r.images images
        × Carried {A = A} (CarriesAll script.catalog script.commands) first r.core text images × Appends (W.contents writer.old) (W.contents writer.new) text
        × J.Has journal.old journal.new (taken_of r.core images)) }
    ensures err { IfErr result (λ s. IsUnopened s (journal.new ≡ journal.old) (W.contents writer.old) (W.contents writer.new) ⊎ StopsKept A script opening (W.contents writer.old) (W.contents writer.new) (J.Has journal.old journal.new) (J.HasFront journal.old journal.new) s) }
{
    let Script { catalog, commands } = script;
    match Core::open(alloc, catalog, opening) {
        Ok(core) => run_begun(alloc, rt, journal, writer, sink, core, commands),
        // The opening is one, so memory was wanting.
        Err(_) => Err(Stop::Fault(Fault::NoMemory)),
    }
}

/// Checks a text and carries it out.
fn run_text<P: Sink<Image<A>> + Drop, J: Journal<R, A>, R, W: Write, A: Allocator + Copy>(
    alloc: A,
    rt: &R,
    journal: &mut J,
    writer: &mut W,
    sink: P,
    text: Vec<u8, A>,
    opening: Image<A>,
) -> Result<Ran<P, A>, Stop<J::Failure>>
    requires opening { is_opening opening ≡ true }
    requires sink { P.Has sink [] }
    ensures run { IfOk result (λ r. (out : Bytes) × (images : Images) × P.Has r.images images × RunsTo A (schedule_of text.items) opening r.core out images
        × Appends (W.contents writer.old) (W.contents writer.new) out × J.Has journal.old journal.new (taken_of r.core images)) }
    ensures fault { IfErr result (IfFault (λ f. EndsRun A (schedule_of text.items) opening (W.contents writer.old) (W.contents writer.new) f)) }
    ensures unread { IfErr result (IfFault (λ f. f ≢ fault.Read)) }
    ensures stopped { IfErr result (LeavesJournal A (schedule_of text.items) opening (W.contents writer.old) (W.contents writer.new) (journal.new ≡ journal.old) (J.Has journal.old journal.new) (J.HasFront journal.old journal.new)) }
{
    let read = read_schedule(alloc, text.as_slice());
    // Its memory isn't needed while the script is carried out.
    drop(text);
    match read {
        Ok(script) => run_opened(alloc, rt, journal, writer, sink, script, opening),
        Err(fault) => Err(Stop::Fault(refuse_script(alloc, writer, fault))),
    }
}

/// Runs the script that a reader gives on a core that is opened from an image, and writes the line of
/// each command's answer before it begins the next. The opening is looked at first, then the whole text;
/// where one of them is faulty, one line says so and nothing else is written. A read or write that fails,
/// by an interruption too, and a write of no byte end the run. A journal has what the core was opened with
/// before the first command, and what each command adds before its answer; where it fails the run ends. Each
/// image is handed on once it is printed.
pub(crate) fn run_kept<
    P: Sink<Image<A>> + Drop,
    J: Journal<R, A>,
    R,
    I: Read,
    W: Write,
    A: Allocator + Copy,
>(
    alloc: A,
    rt: &R,
    journal: &mut J,
    reader: &mut I,
    writer: &mut W,
    sink: P,
    opening: Image<A>,
) -> Result<Ran<P, A>, Stop<J::Failure>>
    requires { P.Has sink [] }
    // The images that were taken were handed on, and the journal has them and the whole log. Where the reader tells
    // its bytes, all of the script was carried out and its answers written, and the images are those that it took.
    ensures run { IfOk result (λ r. (images : Images) × P.Has r.images images × J.Has journal.old journal.new (taken_of r.core images)
        × ((source : Bytes) → I.remaining reader.old ≡ Some source → (text : Bytes) × RunsTo A (schedule_of source) opening r.core text images × Appends (W.contents writer.old) (W.contents writer.new) text)) }
    // And else the one line of the fault, or a beginning of the answers.
    ensures fault { IfErr result (IfFault (λ f. (source : Bytes) → I.remaining reader.old ≡ Some source → EndsRun A (schedule_of source) opening (W.contents writer.old) (W.contents writer.new) f)) }
    // Where the run stops, the journal has all that was carried out; where the journal itself failed it has a front of
    // that, with each record of the commands that were answered, and what failed isn't answered.
    ensures stopped { IfErr result (λ s. (source : Bytes) → I.remaining reader.old ≡ Some source → LeavesJournal A (schedule_of source) opening (W.contents writer.old) (W.contents writer.new) (journal.new ≡ journal.old) (J.Has journal.old journal.new) (J.HasFront journal.old journal.new) s) }
{
    if !opening.is_opening() {
        let refused = Fault::Refused(Reason::NotAnOpening);
        return Err(Stop::Fault(write_fault(alloc, writer, refused)));
    }
    let text = match read_past(alloc, reader, SCRIPT_BYTES) {
        Ok(text) => text,
        Err(Unread::ReadFault) => return Err(Stop::Fault(Fault::Read)),
        Err(Unread::NoMemory) => return Err(Stop::Fault(Fault::NoMemory)),
    };
    run_text(alloc, rt, journal, writer, sink, text, opening)
}

/// Runs a script as `run_kept` does, with no journal.
pub(crate) fn run_script<P: Sink<Image<A>> + Drop, I: Read, W: Write, A: Allocator + Copy>(
    alloc: A,
    reader: &mut I,
    writer: &mut W,
    sink: P,
    opening: Image<A>,
) -> Result<Ran<P, A>, Fault>
    requires { P.Has sink [] }
    // Where the reader tells its bytes: all of the script was carried out, its answers written, and the images
    // that it took were handed on.
    ensures run { IfOk result (λ r. (source : Bytes) → I.remaining reader.old ≡ Some source → (text : Bytes) × (images : Images) × P.Has r.images images × RunsTo A (schedule_of source) opening r.core text images × Appends (W.contents writer.old) (W.contents writer.new) text) }
    // And else the one line of the fault, or a beginning of the answers.
    ensures fault { IfErr result (λ f. (source : Bytes) → I.remaining reader.old ≡ Some source → EndsRun A (schedule_of source) opening (W.contents writer.old) (W.contents writer.new) f) }
{
    match run_kept(alloc, &(), &mut NoJournal, reader, writer, sink, opening) {
        Ok(ran) => Ok(ran),
        Err(Stop::Fault(fault)) => Err(fault),
        Err(Stop::Journal(never)) => match never {},
    }
}
