//! The commands of a script, carried out on a core.

ghost use Rattle.std.specs.Prelude.{◌≡◌, ◌≤◌, ◌++◌, [], IfErr, IfOk, IfSome, List, OnErr, OnOk, codes, drop, length, slice_get};
ghost use Rattle.std.specs.Io.KnownBytes.{Appends};
ghost use Rattle.procedure.specs.Bytes.{Bytes};
ghost use Rattle.commitlog.specs.Records.{Record as LogRecord};
ghost use Rattle.phase.specs.Phases.{phase_text};
ghost use Rattle.steps.specs.declared.schedules.Event.TheVariants as event;
ghost use Rattle.calcdb.specs.Journals.{IsKept, SentUnlessUnkept, StopsIn, Taken, images_given, taken_of, with_more};
ghost use Rattle.calcdb.specs.Runs.{Calls, Carried, Carries, CarriesAll, Ends, GoesOn, Images, Says, Scans, Sent, answered_text, count_of, images_shown, reply_text, shown_text};

use crate::command_queue::CommandQueue;
use crate::commands::{Command, NewCall};
use crate::faults::Fault;
use crate::journals::{Journal, Stop};
use crate::output::{
    phase_name, push_answer, push_image, push_key, push_numbered, push_refusal, push_text,
};
use crate::show::write_image_lines;
use crate::sinks::Sink;
use commitlog::{Entry, Record};
use image::Image;
use phase::Phase;
use procedure::NoMemory;
use procedure::streams::{WriteFault, write_out};
use std::alloc::Allocator;
use std::io::Write;
use steps::schedules::Reply;
use steps::{Arguments, Captured, Core, Stepped};

/// How many instructions a procedure of the core has; 0 where there is none.
fn count_of<A: Allocator>(core: &Core<A>, procedure: u16) -> usize
    ensures { result ≡ count_of (slice_get core.now.catalog procedure) }
{
    match core.catalog().procedure(usize::from(procedure)) {
        Some(procedure) => procedure.code.len(),
        None => 0,
    }
}

/// What is printed of a command.
#[derive(Drop)]
pub(crate) enum Shown<A: Allocator> {
    /// The reply of its event, or of the one that ended it.
    Reply(Reply<A>),
    /// The answer of a call, which stands at this place of the core's log.
    Answered(usize),
    /// The image that it took.
    Image(Image<A>),
    /// How many places it visited of a scan that is over.
    Scanned(usize),
}

/// Answers a session's call; it is given up where that is refused.
#[inline(always)]
fn end_call<A: Allocator>(core: &mut Core<A>, session: u16) -> Shown<A>
    ensures { Carried {A = A} (Ends session) core.old core.new (shown_text core.new.log result) (images_shown result) }
{
    match core.finish_in_log(session) {
        Ok(place) => Shown::Answered(place),
        Err(refused) => {
            let _given_up = core.give_up(session);
            Shown::Reply(Reply::Finish(Err(refused)))
        }
    }
}

/// Steps of a session's call until it is ready, at most `count`, and its end; it is given up where a
/// step is refused.
#[inline(always)]
fn go_on<A: Allocator + Clone>(core: &mut Core<A>, session: u16, count: usize) -> Shown<A>
    ensures { Carried {A = A} (GoesOn count session) core.old core.new (shown_text core.new.log result) (images_shown result) }
{
    for _ in 0..count {
        match core.step(session) {
            Ok(Stepped::Ran) => {}
            Ok(Stepped::Ready) => return end_call(core, session),
            Err(refused) => {
                let _given_up = core.give_up(session);
                return Shown::Reply(Reply::Step(Err(refused)));
            }
        }
    }
    end_call(core, session)
}

/// Begins a call, executes it and returns it.
#[inline(always)]
fn run_call<A: Allocator + Clone>(core: &mut Core<A>, call: NewCall<Arguments<A>>) -> Shown<A>
    ensures { Carried {A = A} (Calls core.old.catalog call) core.old core.new (shown_text core.new.log result) (images_shown result) }
{
    let NewCall {
        session,
        number,
        procedure,
        args,
    } = call;
    let count = count_of(core, procedure);
    match core.begin(session, number, procedure, args) {
        Ok(()) => go_on(core, session, count),
        Err(refused) => Shown::Reply(Reply::Begin(Err(refused))),
    }
}

// The lines that are always the same.
const OK: &[u8] = b"ok\n";

const RAN: &[u8] = b"ran\n";

const READY: &[u8] = b"ready\n";

const SLOT: &[u8] = b"slot\n";

const DONE: &[u8] = b"done\n";

const NONE: &[u8] = b"none\n";

/// Captures until no place is left, or one is refused.
fn scan<A: Allocator + Clone>(core: &mut Core<A>) -> Shown<A>
    ensures { Carried {A = A} Scans core.old core.new (shown_text core.new.log result) (images_shown result) }
{
    let before = core.scanned();
    loop {
        match core.capture() {
            Ok(Captured::Slot) => {}
            Ok(Captured::Done) => return Shown::Scanned(core.scanned() - before),
            Err(refused) => return Shown::Reply(Reply::Capture(Err(refused))),
        }
    }
}

/// Answers a session's call.
fn finish<A: Allocator>(core: &mut Core<A>, session: u16) -> Shown<A>
    ensures { Carried {A = A} (Says (event.Finish session)) core.old core.new (shown_text core.new.log result) (images_shown result) }
{
    match core.finish_in_log(session) {
        Ok(place) => Shown::Answered(place),
        Err(refused) => Shown::Reply(Reply::Finish(Err(refused))),
    }
}

/// Takes the image that waits, if one does.
fn take_image<A: Allocator>(core: &mut Core<A>) -> Shown<A>
    ensures { Carried {A = A} (Says event.TakeImage) core.old core.new (shown_text core.new.log result) (images_shown result) }
{
    match core.take_image() {
        Some(image) => Shown::Image(image),
        None => Shown::Reply(Reply::TakeImage(false)),
    }
}

/// Carries out any command, and hands on what is printed of it.
// It stands apart from `carry_out`, since what few commands need would cost each call its stores.
#[inline(never)]
fn carry_out_any<A: Allocator + Clone>(
    core: &mut Core<A>,
    command: Command<Arguments<A>>,
) -> Shown<A>
    ensures { Carried {A = A} (Carries core.old.catalog command) core.old core.new (shown_text core.new.log result) (images_shown result) }
{
    match command {
        Command::Begin(call) => {
            let NewCall {
                session,
                number,
                procedure,
                args,
            } = call;
            let begun = core.begin(session, number, procedure, args);
            Shown::Reply(Reply::Begin(begun))
        }
        Command::Step(session) => Shown::Reply(Reply::Step(core.step(session))),
        Command::Finish(session) => finish(core, session),
        Command::GiveUp(session) => Shown::Reply(Reply::GiveUp(core.give_up(session))),
        Command::Call(call) => run_call(core, call),
        Command::Start(kind) => Shown::Reply(Reply::Start(core.start(kind))),
        Command::Advance => Shown::Reply(Reply::Advance(core.advance())),
        Command::Capture => Shown::Reply(Reply::Capture(core.capture())),
        Command::Scan => scan(core),
        Command::TakeImage => take_image(core),
        Command::Reclaim => Shown::Reply(Reply::Reclaim(core.reclaim())),
        Command::Abandon => Shown::Reply(Reply::Abandon(core.abandon())),
    }
}

/// Carries out a command, and hands on what is printed of it.
#[inline(always)]
pub(crate) fn carry_out<A: Allocator + Clone>(
    core: &mut Core<A>,
    command: Command<Arguments<A>>,
) -> Shown<A>
    ensures { Carried {A = A} (Carries core.old.catalog command) core.old core.new (shown_text core.new.log result) (images_shown result) }
{
    match command {
        Command::Call(call) => run_call(core, call),
        other => carry_out_any(core, other),
    }
}

/// The line of a phase that was entered.
fn push_phase<A: Allocator>(out: &mut Vec<u8, A>, phase: Phase) -> Result<(), NoMemory>
    ensures { OnOk result (out.new.items ≡ out.old.items ++ (codes "phase " ++ phase_text phase ++ codes "\n")) }
{
    push_text(out, b"phase ")?;
    push_text(out, phase_name(phase))?;
    push_text(out, b"\n")
}

/// The line that is printed of a reply; none where an image was taken, which is printed in its place.
fn push_reply<A: Allocator + Clone>(out: &mut Vec<u8, A>, reply: &Reply<A>) -> Result<(), NoMemory>
    ensures { OnOk result (out.new.items ≡ out.old.items ++ reply_text reply.now) }
{
    match reply {
        Reply::Begin(Ok(())) | Reply::GiveUp(Ok(())) => push_text(out, OK),
        Reply::Step(Ok(Stepped::Ran)) => push_text(out, RAN),
        Reply::Step(Ok(Stepped::Ready)) => push_text(out, READY),
        Reply::Finish(Ok(answer)) => push_answer(
            out,
            answer.place as u64,
            answer.outcome,
            answer.replies.as_slice(),
        ),
        Reply::Begin(Err(refused)) => push_refusal(out, refused.name().as_bytes()),
        Reply::Step(Err(refused)) => push_refusal(out, refused.name().as_bytes()),
        Reply::Finish(Err(refused)) => push_refusal(out, refused.name().as_bytes()),
        Reply::GiveUp(Err(refused)) => push_refusal(out, refused.name().as_bytes()),
        Reply::Start(Ok(number)) => push_numbered(out, b"checkpoint ", *number),
        Reply::Start(Err(refused)) => push_refusal(out, refused.name().as_bytes()),
        Reply::Advance(Ok(phase)) => push_phase(out, *phase),
        Reply::Advance(Err(refused)) => push_refusal(out, refused.name().as_bytes()),
        Reply::Capture(Ok(Captured::Slot)) => push_text(out, SLOT),
        Reply::Capture(Ok(Captured::Done)) => push_text(out, DONE),
        Reply::Capture(Err(refused)) => push_refusal(out, refused.name().as_bytes()),
        Reply::TakeImage(true) => Ok(()),
        Reply::TakeImage(false) => push_text(out, NONE),
        Reply::Reclaim(None) => push_text(out, NONE),
        Reply::Reclaim(Some(key)) => push_key(out, key.as_bytes()),
        Reply::Abandon(Ok(number)) => push_numbered(out, b"abandoned ", *number),
        Reply::Abandon(Err(refused)) => push_refusal(out, refused.name().as_bytes()),
    }
}

/// The line of the answer that stands at a place of the log.
#[inline(always)]
fn push_answered<A: Allocator + Clone>(
    out: &mut Vec<u8, A>,
    records: &[Record<A>],
    place: usize,
) -> Result<(), NoMemory>
    ensures { OnOk result (out.new.items ≡ out.old.items ++ answered_text records.now place) }
{
    let Some(record) = records.get(place) else {
        return Ok(());
    };
    match record.entry() {
        Entry::Call {
            outcome,
            replies,
            ..
        } => push_answer(out, place as u64, *outcome, replies.as_slice()),
        Entry::Token { .. } => Ok(()),
    }
}

/// The lines that are printed of a command, after what is there.
pub(crate) fn push_shown<A: Allocator + Clone>(
    out: &mut Vec<u8, A>,
    records: &[Record<A>],
    shown: &Shown<A>,
) -> Result<(), NoMemory>
    ensures { OnOk result (out.new.items ≡ out.old.items ++ shown_text records.now shown.now) }
{
    match shown {
        Shown::Reply(reply) => push_reply(out, reply),
        Shown::Answered(place) => push_answered(out, records, *place),
        Shown::Image(image) => push_image(out, image),
        Shown::Scanned(count) => push_numbered(out, b"slots ", *count as u64),
    }
}

/// The lines that are printed of a command, in place of what was there.
fn print_line<A: Allocator + Clone>(
    line: &mut Vec<u8, A>,
    records: &[Record<A>],
    shown: &Shown<A>,
) -> Result<(), NoMemory>
    ensures { OnOk result (line.new.items ≡ shown_text records.now shown.now) }
{
    line.clear();
    push_shown(line, records, shown)
}

/// Hands on the image that a command took, if it took one.
#[inline(always)]
fn hand_on<P: Sink<Image<A>>, A: Allocator>(sink: &mut P, shown: Shown<A>)
    requires { P.HasRoom sink.old }
    ensures { (images : Images) → P.Has sink.old images → P.Has sink.new (images ++ images_shown shown) }
{
    match shown {
        Shown::Image(image) => sink.take(image),
        _ => {}
    }
}

/// The line of a command that needs no buffer, since it is always the same.
fn fixed_line<A: Allocator>(shown: &Shown<A>) -> Option<&'static [u8]>
    ensures { (log : List LogRecord) → IfSome result (λ line. line.now ≡ shown_text log shown.now) }
{
    let Shown::Reply(reply) = shown else {
        return None;
    };
    match reply {
        Reply::Begin(Ok(())) | Reply::GiveUp(Ok(())) => Some(OK),
        Reply::Step(Ok(Stepped::Ran)) => Some(RAN),
        Reply::Step(Ok(Stepped::Ready)) => Some(READY),
        Reply::Capture(Ok(Captured::Slot)) => Some(SLOT),
        Reply::Capture(Ok(Captured::Done)) => Some(DONE),
        Reply::TakeImage(false) | Reply::Reclaim(None) => Some(NONE),
        _ => None,
    }
}

/// Writes a line.
#[inline(always)]
fn write_line<W: Write>(writer: &mut W, line: &[u8]) -> Result<(), Fault>
    ensures { Sent result (W.contents writer.old) (W.contents writer.new) line.now }
{
    match write_out(writer, line) {
        Ok(()) => Ok(()),
        Err(WriteFault) => Err(Fault::Write),
    }
}

/// Writes the lines that are printed of any command, those of an image one by one.
// It stands apart as `carry_out_any` does.
#[inline(never)]
fn write_any<W: Write, A: Allocator + Clone>(
    writer: &mut W,
    line: &mut Vec<u8, A>,
    records: &[Record<A>],
    shown: &Shown<A>,
) -> Result<(), Fault>
    ensures { Sent result (W.contents writer.old) (W.contents writer.new) (shown_text records.now shown.now) }
{
    if let Shown::Image(image) = shown {
        return write_image_lines(writer, line, image);
    }
    if let Some(fixed) = fixed_line(shown) {
        return write_line(writer, fixed);
    }
    match print_line(line, records, shown) {
        Ok(()) => {}
        Err(NoMemory) => return Err(Fault::NoMemory),
    }
    write_line(writer, line.as_slice())
}

/// Writes the lines that are printed of a command.
#[inline(always)]
fn write_shown<W: Write, A: Allocator + Clone>(
    writer: &mut W,
    line: &mut Vec<u8, A>,
    records: &[Record<A>],
    shown: &Shown<A>,
) -> Result<(), Fault>
    ensures { Sent result (W.contents writer.old) (W.contents writer.new) (shown_text records.now shown.now) }
{
    let Shown::Answered(place) = shown else {
        return write_any(writer, line, records, shown);
    };
    line.clear();
    match push_answered(line, records, *place) {
        Ok(()) => write_line(writer, line.as_slice()),
        Err(NoMemory) => Err(Fault::NoMemory),
    }
}

/// The image that a command took, if it took one.
fn image_of<A: Allocator>(shown: &Shown<A>) -> Option<&Image<A>>
    ensures { images_given result ≡ images_shown shown.now }
{
    match shown {
        Shown::Image(image) => Some(image),
        _ => None,
    }
}

/// Hands a journal the records of a core's log from a place on, and the image that a command took.
fn keep<J: Journal<R, A>, R, A: Allocator>(
    alloc: A,
    rt: &R,
    journal: &mut J,
    core: &Core<A>,
    noted: usize,
    shown: &Shown<A>,
) -> Result<(), J::Failure>
    requires { noted ≤ length core.now.log }
    ensures ok { (start : J) (t : Taken) → J.Has start journal.old t → OnOk result (J.Has start journal.new (with_more t (drop noted core.now.log) (images_shown shown.now))) }
    ensures err { (start : J) (t : Taken) → J.Has start journal.old t → OnErr result (J.HasFront start journal.new (with_more t (drop noted core.now.log) (images_shown shown.now)) (length t.records)) }
{
    journal.take(alloc, rt, &core.records()[noted..], image_of(shown))
}

/// Carries out a command, has the journal keep what it added, writes the line that is printed of it, and hands
/// on the image that it took.
fn answer<P: Sink<Image<A>>, J: Journal<R, A>, R, W: Write, A: Allocator + Copy>(
    alloc: A,
    rt: &R,
    journal: &mut J,
    core: &mut Core<A>,
    writer: &mut W,
    line: &mut Vec<u8, A>,
    sink: &mut P,
    command: Command<Arguments<A>>,
) -> Result<(), Stop<J::Failure>>
    requires { P.HasRoom sink.old }
    ensures { (text : Bytes) × (taken : Images) × Carried {A = A} (Carries core.old.catalog command) core.old core.new text taken
        × SentUnlessUnkept result (W.contents writer.old) (W.contents writer.new) text
        × ((images : Images) → P.Has sink.old images → OnOk result (P.Has sink.new (images ++ taken)))
        × ((start : J) (images : Images) → J.Has start journal.old (taken_of core.old images) →
        IsKept result (J.Has start journal.new (taken_of core.new (images ++ taken))) (J.HasFront start journal.new (taken_of core.new (images ++ taken)) (length core.old.log))) }
{
    let noted = core.records().len();
    let shown = carry_out(core, command);
    match keep(alloc, rt, journal, core, noted, &shown) {
        Ok(()) => {}
        Err(failure) => return Err(Stop::Journal(failure)),
    }
    match write_shown(writer, line, core.records(), &shown) {
        Ok(()) => {}
        Err(fault) => return Err(Stop::Fault(fault)),
    }
    hand_on(sink, shown);
    Ok(())
}

/// Carries out the commands, each after the line of the one before was written, and returns what was given the
/// images that they took.
pub(crate) fn run_commands<
    P: Sink<Image<A>> + Drop,
    J: Journal<R, A>,
    R,
    W: Write,
    A: Allocator + Copy,
>(
    alloc: A,
    rt: &R,
    journal: &mut J,
    core: &mut Core<A>,
    writer: &mut W,
    sink: P,
    commands: CommandQueue<A>,
) -> Result<P, Stop<J::Failure>>
    requires { P.Has sink [] }
    ensures ok { IfOk result (λ kept. (text : Bytes) × (images : Images) × P.Has kept images × Carried {A = A} (CarriesAll core.old.catalog commands) core.old core.new text images
        × Appends (W.contents writer.old) (W.contents writer.new) text
        × ((start : J) → J.Has start journal.old (taken_of core.old []) → J.Has start journal.new (taken_of core.new images))) }
    ensures err { (start : J) → J.Has start journal.old (taken_of core.old []) → IfErr result (StopsIn A core.old.catalog commands core.old core.new (W.contents writer.old) (W.contents writer.new) (J.Has start journal.new) (J.HasFront start journal.new)) }
{
    let mut line = Vec::new(alloc);
    let mut sink = sink;
    let mut commands = commands;
    while let Some(command) = commands.next() {
        // Room for the image that the command may take.
        if sink.make_room().is_err() {
            return Err(Stop::Fault(Fault::NoMemory));
        }
        answer(
            alloc, rt, journal, core, writer, &mut line, &mut sink, command,
        )?;
    }
    Ok(sink)
}
