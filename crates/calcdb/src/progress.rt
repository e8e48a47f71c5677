//! How far long work is, said now and then on standard error. What is counted passes through as it is.

use std::fmt;
use std::io::{self, Read, Write};
use std::sync::Mutex;
use std::sync::atomic::{AtomicU64, Ordering};
use std::time::{Clock, Duration, Instant};
use workers::{Gate, Point};

/// The milliseconds between two lines at least.
const PAUSE: u64 = 100;

/// How far work is.
#[derive(Clone, Copy)]
pub(crate) enum Reached {
    /// So many bytes of a text were read.
    Bytes(u64),
    /// So many lines of answers were written.
    Lines(u64),
    /// The threads of a run took so many steps.
    Steps(u64),
    /// So many files were read, of so many.
    Files(u64, u64),
}

impl fmt::Display for Reached {
    fn fmt<W: fmt::Write>(&self, f: &mut fmt::Formatter<W>) -> fmt::Result {
        match self {
            Reached::Bytes(count) => write!(f, "{count} bytes"),
            Reached::Lines(count) => write!(f, "{count} lines"),
            Reached::Steps(count) => write!(f, "{count} steps"),
            Reached::Files(read, all) => write!(f, "{read} of {all} files"),
        }
    }
}

/// What is told how far work is.
pub(crate) trait Progress {
    fn tell(&self, reached: Reached);
}

impl<P: Progress> Progress for &P {
    fn tell(&self, reached: Reached) {
        (**self).tell(reached)
    }
}

/// What is told, where that is asked for.
pub(crate) fn told_where<P>(is_asked: bool, progress: &P) -> Option<&P> {
    if is_asked { Some(progress) } else { None }
}

/// Standard error, and when it got its last line; at first when the work began. Nothing where the clock failed.
#[derive(Drop)]
struct Said<E: Drop> {
    err: E,
    last: Option<Instant>,
}

impl<E: Write + Drop> Said<E> {
    fn is_due(&self, now: Instant) -> bool {
        match self.last {
            Some(last) => now.duration_since(last) >= Duration::from_millis(PAUSE),
            None => true,
        }
    }

    /// Says how far work is, where that is due. A line that can't be written is lost.
    fn say(&mut self, now: Instant, reached: Reached) {
        if self.is_due(now) {
            self.last = Some(now);
            let _ = writeln!(self.err, "calcdb: {reached}");
        }
    }
}

/// Says how far work is on standard error, at most ten times a second by a clock. Where the clock fails it
/// says nothing.
#[derive(Drop)]
pub(crate) struct Ticker<C: Drop, E: Drop> {
    clock: C,
    said: Mutex<Said<E>>,
}

/// What the clock shows.
fn now_of<C: Clock>(clock: &C) -> Option<Instant> {
    match Instant::now(clock) {
        Ok(now) => Some(now),
        Err(_) => None,
    }
}

impl<C: Clock + Drop, E: Write + Drop> Ticker<C, E> {
    /// One of work that begins now.
    pub(crate) fn new(clock: C, err: E) -> Self {
        let last = now_of(&clock);
        let said = Mutex::new(Said { err, last });
        Ticker { clock, said }
    }
}

impl<C: Clock + Drop, E: Write + Drop> Progress for Ticker<C, E> {
    fn tell(&self, reached: Reached) {
        let Some(now) = now_of(&self.clock) else {
            return;
        };
        // Where another thread looks at the same time, that one may say it.
        if let Some(mut guard) = self.said.try_lock() {
            let said = &mut *guard;
            said.say(now, reached);
        }
    }
}

/// A reader whose bytes are counted, where that is asked for.
#[derive(Drop)]
pub(crate) struct CountedBytes<R: Drop, P: Drop> {
    reader: R,
    progress: Option<P>,
    count: u64,
}

impl<R: Read + Drop, P: Progress + Drop> CountedBytes<R, P> {
    pub(crate) fn new(reader: R, progress: Option<P>) -> Self {
        CountedBytes {
            reader,
            progress,
            count: 0,
        }
    }
}

impl<R: Read + Drop, P: Progress + Drop> Read for CountedBytes<R, P> {
    ghost remaining = { λ r. R.remaining r.reader };

    fn read(&mut self, buf: &mut [u8]) -> io::Result<usize> {
        let taken = self.reader.read(buf)?;
        if let Some(progress) = &self.progress {
            self.count = self.count.saturating_add(taken as u64);
            progress.tell(Reached::Bytes(self.count));
        }
        Ok(taken)
    }
}

/// How many lines end in these bytes.
fn count_ends(bytes: &[u8]) -> u64 {
    let mut count = 0u64;
    for byte in bytes {
        if *byte == b'\n' {
            count = count.saturating_add(1);
        }
    }
    count
}

/// A writer whose lines are counted, where that is asked for.
#[derive(Drop)]
pub(crate) struct CountedLines<W: Drop, P: Drop> {
    writer: W,
    progress: Option<P>,
    count: u64,
}

impl<W: Write + Drop, P: Progress + Drop> CountedLines<W, P> {
    pub(crate) fn new(writer: W, progress: Option<P>) -> Self {
        CountedLines {
            writer,
            progress,
            count: 0,
        }
    }
}

impl<W: Write + Drop, P: Progress + Drop> Write for CountedLines<W, P> {
    ghost contents = { λ w. W.contents w.writer };

    fn write(&mut self, buf: &[u8]) -> io::Result<usize> {
        let taken = self.writer.write(buf)?;
        if let Some(progress) = &self.progress {
            self.count = self.count.saturating_add(count_ends(&buf[..taken]));
            progress.tell(Reached::Lines(self.count));
        }
        Ok(taken)
    }

    fn flush(&mut self) -> io::Result<()> {
        self.writer.flush()
    }
}

/// How many of several files were read, where that is asked for.
#[derive(Drop)]
pub(crate) struct CountedFiles<P: Drop> {
    progress: Option<P>,
    read: u64,
    all: u64,
}

impl<P: Progress + Drop> CountedFiles<P> {
    /// None of this many files.
    pub(crate) fn of(all: usize, progress: Option<P>) -> Self {
        CountedFiles {
            progress,
            read: 0,
            all: all as u64,
        }
    }

    /// One file more was read.
    pub(crate) fn add_one(&mut self) {
        if let Some(progress) = &self.progress {
            self.read = self.read.saturating_add(1);
            progress.tell(Reached::Files(self.read, self.all));
        }
    }
}

/// A gate that holds nobody back. What passes is counted, where that is asked for.
#[derive(Drop)]
pub(crate) struct CountedSteps<P: Drop> {
    progress: Option<P>,
    count: AtomicU64,
}

impl<P: Progress + Drop> CountedSteps<P> {
    pub(crate) fn new(progress: Option<P>) -> Self {
        CountedSteps {
            progress,
            count: AtomicU64::new(0),
        }
    }
}

impl<P: Progress + Drop> Gate for CountedSteps<P> {
    fn pass(&self, _point: Point) {
        if let Some(progress) = &self.progress {
            let before = self.count.fetch_add(1, Ordering::SeqCst);
            progress.tell(Reached::Steps(before.saturating_add(1)));
        }
    }
}
