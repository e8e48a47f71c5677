//! The program's work, apart from the process that it runs in.

ghost use Rattle.std.specs.Prelude.{◌≡◌};
ghost use Rattle.calcdb.specs.Failures.{status_after};

use crate::command_line::job;
use crate::faults::failures::Failure;
use crate::files::flush;
use crate::new_files::GATHERED;
use crate::other_images::OtherImages;
use crate::progress::{Ticker, told_where};
use crate::tasks::do_task;
use clap::Error;
use clap::error::ErrorKind;
use std::alloc::Allocator;
use std::convert::AsStr;
use std::env;
use std::io::{self, BufWriter, Read, Write};
use std::rt::{Env, Files};
use std::sync::Wait;
use std::thread::Threads;
use std::time::Clock;

/// What the output's end makes of the work: a flush that fails is a write that failed.
fn flushed<'a, T: Drop, O: Write>(
    out: &mut O,
    done: Result<T, Failure<'a>>,
) -> Result<T, Failure<'a>> {
    flush(out, Failure::CannotPrint)?;
    done
}

/// Writes what clap says of the words: a text that was asked for, or on standard error a fault of theirs.
fn answer_words<O: Write, E: Write>(
    out: &mut O,
    err: &mut E,
    error: &Error,
) -> Result<(), Failure<'static>> {
    match error.kind() {
        ErrorKind::OutOfMemory => Err(Failure::NoMemory),
        _ if error.use_stderr() => {
            let _ = write!(err, "{error}");
            Err(Failure::Usage)
        }
        _ => match write!(out, "{error}") {
            Ok(()) => flush(out, Failure::CannotPrint),
            Err(_) => Err(Failure::CannotPrint),
        },
    }
}

/// Says on standard error which images of another run there are. A line that can't be written is lost.
fn tell_others<'a, E: Write>(
    err: &mut E,
    done: Result<Option<OtherImages<'a>>, Failure<'a>>,
) -> Result<(), Failure<'a>> {
    if let Some(others) = done? {
        let _ = writeln!(err, "calcdb: {others}");
    }
    Ok(())
}

/// The status of the process, once standard error says what was wanting.
fn concluded<E: Write>(err: &mut E, done: Result<(), Failure<'_>>) -> u8
    ensures { result ≡ status_after done.entry }
{
    match done {
        Ok(()) => 0,
        Err(failure) => {
            // A line that can't be written there is lost.
            let _ = failure.explain(err);
            failure.status()
        }
    }
}

/// Does what the words ask for, of which the first is the program's name, and returns the status of
/// the process: 0 where it is done, also with refusals inside a script; 1 where an input is refused, a
/// file can't be read or written, or there is no memory; 2 where the command line is faulty. The command
/// line takes its memory from the runtime, and the work from `alloc`. `threads` starts the threads of a run.
/// Where it is asked for, standard error gets lines of how far the work is, by `clock`.
pub(crate) fn perform<
    T: Threads + Wait + Sync,
    C: Clock + Sync,
    R: Files + AllocGlobal + Sync,
    S: AsStr,
    I: Read,
    O: Write,
    E: Write + Send,
    A: Allocator + Copy + Send + Sync,
>(
    alloc: A,
    threads: &T,
    clock: &C,
    rt: &R,
    words: &[S],
    stdin: &mut I,
    out: &mut O,
    err: &mut E,
) -> u8
where
    R::File: Drop + Send,
    R::Dir: Send,
    R::A: Send,
{
    match job(rt.alloc(), words) {
        Ok(task) => {
            let ticker = Ticker::new(clock, &mut *err);
            let progress = told_where(task.tells(), &ticker);
            let done = do_task(alloc, threads, rt, &task, stdin, progress, out);
            drop(ticker);
            let done = tell_others(err, flushed(out, done));
            concluded(err, done)
        }
        Err(error) => {
            let done = answer_words(out, err, &error);
            concluded(err, done)
        }
    }
}

/// What the process is asked for, in words, and a buffer for its standard output.
type Begun<V, O, A> = (Vec<String<V>, A>, BufWriter<O, A>);

/// Reads the words of the process, and makes the buffer for its standard output.
fn begin<V: Env + Alloc, O: Write + Drop, A: Allocator + Copy>(
    alloc: A,
    env: &V,
    out: O,
) -> io::Result<Begun<V::A, O, A>> {
    let mut words = Vec::new(alloc);
    for word in env::args(env)? {
        words.push(word)?;
    }
    Ok((words, BufWriter::with_capacity(alloc, GATHERED, out)?))
}

/// What the process does, and its status. Where its words or its buffer aren't to be had, that is for
/// out of memory, or a word isn't UTF-8. The words take their memory from `env`, clap takes it from the
/// runtime, and all else from `alloc`.
pub(crate) fn start<
    V: Env + Alloc,
    T: Threads + Wait + Sync,
    C: Clock + Sync,
    R: Files + AllocGlobal + Sync,
    I: Read,
    O: Write + Drop,
    E: Write + Send,
    A: Allocator + Copy + Send + Sync,
>(alloc: A, env: &V, threads: &T, clock: &C, rt: &R, stdin: &mut I, out: O, err: &mut E) -> u8
where
    R::File: Drop + Send,
    R::Dir: Send,
    R::A: Send,
{
    match begin(alloc, env, out) {
        Ok((words, mut out)) => {
            let words = words.as_slice();
            perform(alloc, threads, clock, rt, words, stdin, &mut out, err)
        }
        Err(error) if error.kind() == io::ErrorKind::OutOfMemory => {
            concluded(err, Err(Failure::NoMemory))
        }
        Err(_) => {
            let _ = writeln!(err, "calcdb: a word isn't UTF-8");
            Failure::Usage.status()
        }
    }
}
