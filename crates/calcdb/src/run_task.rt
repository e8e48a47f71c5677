//! What the program does for `run`.

use crate::command_line::RunFiles;
use crate::engine::{RanWithImages, run_kept, run_script};
use crate::faults::failures::Failure;
use crate::faults::refusals::write_fault;
use crate::faults::subjects::Subject;
use crate::faults::{Fault, Reason};
use crate::files::{flush, input_of};
use crate::journals::{NoJournal, Stop};
use crate::live_runs::LiveRun;
use crate::new_files::{NewFile, NewFolder};
use crate::other_images::{OtherImages, other_images};
use crate::progress::{CountedBytes, CountedLines, CountedSteps, Progress};
use crate::run_folder::write_run;
use crate::sinks::Discard;
use crate::threads::{CarriedOut, run_threads};
use image::{Image, Kind, ReadError, ReadFromError, read_from};
use std::alloc::Allocator;
use std::io::{Read, Write};
use std::rt::Files;
use std::sync::Wait;
use std::thread::Threads;
use std::{fs, mem};

/// The image of a file. Where it is refused, one line on standard output says why.
fn read_opening<'a, R: Files, O: Write, A: Allocator + Copy>(
    alloc: A,
    rt: &R,
    name: &'a str,
    out: &mut O,
) -> Result<Image<A>, Failure<'a>>
where
    R::File: Drop,
{
    let Ok(mut file) = fs::open(rt, name) else {
        return Err(Failure::CannotRead(name));
    };
    match read_from(alloc, &mut file) {
        Ok(image) => Ok(image),
        Err(ReadFromError::ReadFault) => Err(Failure::CannotRead(name)),
        Err(ReadFromError::Image(ReadError::NoMemory)) => Err(Failure::NoMemory),
        Err(ReadFromError::Image(refused)) => {
            let fault = Fault::Refused(Reason::from(refused));
            let fault = write_fault(alloc, out, fault);
            Err(Failure::of_fault(fault, name, Subject::File(name)))
        }
    }
}

/// The image of the empty table.
fn empty_opening<'a, A: Allocator>(alloc: A) -> Result<Image<A>, Failure<'a>> {
    Image::new(Kind::Full, 0, 0, 0, Vec::new(alloc)).ok_or(Failure::NoMemory)
}

/// The image to open from: that of a file, or of the empty table.
fn opening_of<'a, R: Files, O: Write, A: Allocator + Copy>(
    alloc: A,
    rt: &R,
    name: Option<&'a str>,
    out: &mut O,
) -> Result<Image<A>, Failure<'a>>
where
    R::File: Drop,
{
    match name {
        Some(name) => read_opening(alloc, rt, name, out),
        None => empty_opening(alloc),
    }
}

/// Writes what a run leaves into a folder, and returns which images there are of another run.
fn fill_folder<'a, R: Files + Alloc, A: Allocator + Copy>(
    alloc: A,
    rt: &R,
    mut folder: NewFolder<'a, A>,
    ran: &RanWithImages<A>,
) -> Result<Option<OtherImages<'a>>, Failure<'a>>
where
    R::File: Drop,
{
    write_run(alloc, rt, &mut folder, ran)?;
    Ok(other_images(rt, folder.path, ran.images.as_slice()))
}

/// Once the answers are out, writes what a run leaves where that is asked for.
fn leave_run<'a, R: Files + Alloc, O: Write, A: Allocator + Copy>(
    alloc: A,
    rt: &R,
    folder: Option<&'a str>,
    ran: &RanWithImages<A>,
    out: &mut O,
) -> Result<Option<OtherImages<'a>>, Failure<'a>>
where
    R::File: Drop,
{
    flush(out, Failure::CannotPrint)?;
    match folder {
        Some(path) => fill_folder(alloc, rt, NewFolder { alloc, path }, ran),
        None => Ok(None),
    }
}

/// The file of a run by which it is refused.
fn refused_by<'a>(fault: &Fault, files: RunFiles<'a>) -> &'a str {
    match fault {
        Fault::Refused(Reason::NotAnOpening) => files.opening.unwrap_or(files.script),
        _ => files.script,
    }
}

/// Runs the script that a reader gives, in threads where there are some, and keeps its images.
fn run_reader<
    T: Threads + Wait + Sync,
    I: Read,
    O: Write,
    P: Progress + Sync,
    A: Allocator + Copy + Send + Sync,
>(
    alloc: A,
    threads: Option<&T>,
    script: &mut I,
    opening: Image<A>,
    progress: Option<&P>,
    out: &mut O,
) -> Result<RanWithImages<A>, Fault> {
    match threads {
        Some(threads) => {
            let gate = CountedSteps::new(progress);
            let ran = run_threads(threads, alloc, &(), NoJournal, script, out, opening, &gate);
            match ran {
                Ok(CarriedOut { ran, written, .. }) => match written {
                    Ok(()) => Ok(ran),
                    Err(fault) => Err(fault),
                },
                Err((Stop::Fault(fault), _)) => Err(fault),
                Err((Stop::Journal(never), _)) => match never {},
            }
        }
        None => {
            let mut lines = CountedLines::new(out, progress);
            run_script(alloc, script, &mut lines, Vec::new(alloc), opening)
        }
    }
}

/// The failure of a run by a fault.
fn failure_of<'a>(fault: Fault, files: RunFiles<'a>) -> Failure<'a> {
    let subject = Subject::File(refused_by(&fault, files));
    Failure::of_fault(fault, files.script, subject)
}

/// Runs the script that a reader gives, and keeps none of its images.
fn run_alone<'a, I: Read, O: Write, P: Progress, A: Allocator + Copy>(
    alloc: A,
    files: RunFiles<'a>,
    script: &mut I,
    opening: Image<A>,
    progress: Option<&P>,
    out: &mut O,
) -> Result<(), Failure<'a>> {
    let mut lines = CountedLines::new(&mut *out, progress);
    match run_script(alloc, script, &mut lines, Discard, opening) {
        Ok(ran) => {
            // As in `run_and_leave`.
            mem::forget(ran);
            flush(out, Failure::CannotPrint)
        }
        Err(fault) => Err(failure_of(fault, files)),
    }
}

/// Runs the script that a reader gives, and keeps its folder up while it goes on.
fn run_live<'a, R: Files + Alloc, I: Read, O: Write, P: Progress + Sync, A: Allocator + Copy>(
    alloc: A,
    rt: &R,
    path: &'a str,
    files: RunFiles<'a>,
    script: &mut I,
    opening: Image<A>,
    progress: Option<&P>,
    out: &mut O,
) -> Result<(), Failure<'a>>
where
    R::File: Drop,
{
    let mut live = LiveRun::new(NewFolder { alloc, path }, files.sync);
    let mut lines = CountedLines::new(&mut *out, progress);
    match run_kept(alloc, rt, &mut live, script, &mut lines, Discard, opening) {
        Ok(ran) => {
            // As in `run_and_leave`.
            mem::forget(ran);
            end_live(rt, live, out)
        }
        Err(Stop::Journal(failure)) => Err(failure),
        Err(Stop::Fault(fault)) => Err(failure_of(fault, files)),
    }
}

/// Ends a run whose folder was kept up, once its answers are out.
fn end_live<'a, R: Files + Alloc, O: Write, A: Allocator + Copy>(
    rt: &R,
    mut live: LiveRun<NewFolder<'a, A>, NewFile<R::File, A>>,
    out: &mut O,
) -> Result<(), Failure<'a>>
where
    R::File: Drop,
{
    let ended = live.end(rt);
    flush(out, Failure::CannotPrint)?;
    ended
}

/// Runs the script that a reader gives in threads, and keeps its folder up while it goes on.
fn run_live_threads<
    'a,
    T: Threads + Wait + Sync,
    R: Files + Alloc + Sync,
    I: Read,
    O: Write,
    P: Progress + Sync,
    A: Allocator + Copy + Send + Sync,
>(
    alloc: A,
    threads: &T,
    rt: &R,
    path: &'a str,
    files: RunFiles<'a>,
    script: &mut I,
    opening: Image<A>,
    progress: Option<&P>,
    out: &mut O,
) -> Result<(), Failure<'a>>
where
    R::File: Drop + Send,
    R::Dir: Send,
    R::A: Send,
{
    let gate = CountedSteps::new(progress);
    let live = LiveRun::new(NewFolder { alloc, path }, files.sync);
    match run_threads(threads, alloc, rt, live, script, out, opening, &gate) {
        Ok(
            CarriedOut {
                ran,
                journal,
                failure,
                written,
            },
        ) => {
            // As in `run_and_leave`.
            mem::forget(ran);
            match (failure, written) {
                (Some(failure), _) => Err(failure),
                (None, Err(fault)) => Err(failure_of(fault, files)),
                (None, Ok(())) => end_live(rt, journal, out),
            }
        }
        Err((stop, journal)) => {
            drop(journal);
            match stop {
                Stop::Journal(failure) => Err(failure),
                Stop::Fault(fault) => Err(failure_of(fault, files)),
            }
        }
    }
}

/// Runs the script that a reader gives, in threads where that is asked for, and writes at its end what it leaves.
fn run_and_leave<
    'a,
    T: Threads + Wait + Sync,
    R: Files + Alloc,
    I: Read,
    O: Write,
    P: Progress + Sync,
    A: Allocator + Copy + Send + Sync,
>(
    alloc: A,
    threads: &T,
    rt: &R,
    files: RunFiles<'a>,
    script: &mut I,
    opening: Image<A>,
    progress: Option<&P>,
    out: &mut O,
) -> Result<Option<OtherImages<'a>>, Failure<'a>>
where
    R::File: Drop,
{
    let threads = if files.threads { Some(threads) } else { None };
    match run_reader(alloc, threads, script, opening, progress, out) {
        Ok(ran) => {
            let left = leave_run(alloc, rt, files.folder, &ran, out);
            // The program ends next, and its memory with it.
            mem::forget(ran);
            left
        }
        Err(fault) => Err(failure_of(fault, files)),
    }
}

/// Runs a script, and at its end writes its images and its log where that is asked for. The image to
/// open from is read and checked before the script is looked for.
pub(crate) fn run_task<
    'a,
    T: Threads + Wait + Sync,
    R: Files + Alloc + Sync,
    I: Read,
    O: Write,
    P: Progress + Sync,
    A: Allocator + Copy + Send + Sync,
>(
    alloc: A,
    threads: &T,
    rt: &R,
    files: RunFiles<'a>,
    stdin: &mut I,
    progress: Option<&P>,
    out: &mut O,
) -> Result<Option<OtherImages<'a>>, Failure<'a>>
where
    R::File: Drop + Send,
    R::Dir: Send,
    R::A: Send,
{
    let opening = opening_of(alloc, rt, files.opening, out)?;
    let mut text = input_of(rt, files.script, stdin);
    let mut script = CountedBytes::new(&mut text, progress);
    match files.folder {
        Some(path) if files.live && files.threads => {
            run_live_threads(
                alloc,
                threads,
                rt,
                path,
                files,
                &mut script,
                opening,
                progress,
                out,
            )?;
            Ok(None)
        }
        Some(path) if files.live => {
            run_live(alloc, rt, path, files, &mut script, opening, progress, out)?;
            Ok(None)
        }
        None if !files.threads => {
            run_alone(alloc, files, &mut script, opening, progress, out)?;
            Ok(None)
        }
        _ => run_and_leave(
            alloc,
            threads,
            rt,
            files,
            &mut script,
            opening,
            progress,
            out,
        ),
    }
}
