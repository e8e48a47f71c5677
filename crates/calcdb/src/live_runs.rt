//! The folder of a run that is kept up while the run goes on.

ghost use Rattle.std.specs.Prelude.{◌≡◌, ◌++◌, [], IfOk, List, OnErr, OnOk, Option, Some, length};
ghost use Rattle.commitlog.specs.LogWriters.{HasSent};
ghost use Rattle.commitlog.specs.Records.{Record as SpecRecord};
ghost use Rattle.commitlog.specs.declared.formats.LogHeader.{LogHeader as SpecHeader};
ghost use Rattle.image.specs.Images.{Image as SpecImage};
ghost use Rattle.steps.specs.CoreViews.{CoreView};
ghost use Rattle.calcdb.specs.Journals.{taken_of};
ghost use Rattle.calcdb.specs.LiveRuns.{HasFront, HoldsFront, HoldsLog, IsKeptUp};
ghost use Rattle.calcdb.specs.RunFiles.{File as SpecFile, Makes, run_files};

use crate::journals::Journal;
use crate::run_folder::{RunFolder, make_image, make_opening};
use commitlog::{LogHeader, LogWriter, Record};
use image::Image;
use procedure::streams::WriteFault;
use std::alloc::Allocator;
use std::io::{self, Write};
use steps::Core;

/// A log that can be put on disk while it is written.
pub(crate) trait LiveLog: Write {
    /// Sees that what was written is on disk.
    fn sync(&self) -> io::Result<()>;
}

/// A folder in which the log of a run is open while the run goes on.
pub(crate) trait LiveFolder<R, L: LiveLog>: RunFolder<R> {
    ghost use Rattle.std.specs.Prelude.{◌≡◌, [], IfErr, IfOk, OnErr, OnOk};
    ghost use Rattle.calcdb.specs.RunFiles.{HasBegun, Makes, MakesOf};
    ghost use Rattle.calcdb.specs.declared.faults.failures.RunFile.TheVariants.{Log};

    /// Begins the log, which has its name from now on, where there is no file of a run yet.
    fn begin_log(&mut self, rt: &R) -> Result<L, Self::Failure>
        ensures begun { IfOk result (λ log. HasBegun (Self.made self.new) (L.contents log)) }
        ensures same { Makes (Self.made self.old) (Self.made self.new) [] };

    /// Ends the log, and sees that it is on disk.
    fn end_log(&mut self, rt: &R, log: L) -> Result<(), Self::Failure>
        ensures { OnOk result (MakesOf (Self.made self.old) (Self.made self.new) Log (L.contents log)) };

    /// Why a run ends whose log can't be written.
    fn unwritten(&self) -> Self::Failure;
}

/// A run that is kept up in a folder. Contracts see the folder, and what went to its log.
#[derive(Drop)]
pub(crate) struct LiveRun<F: Drop, L: LiveLog + Drop> {
    pub folder: F,
    pub log: Option<LogWriter<L>>,
    /// Whether the log is on disk before a command is answered.
    is_synced: bool,
}

/// Sees that a log is on disk, where that is asked for.
fn synced<L: LiveLog + Drop>(log: &LogWriter<L>, is_asked: bool) -> Result<(), WriteFault> {
    if is_asked && log.writer().sync().is_err() {
        return Err(WriteFault);
    }
    Ok(())
}

/// The log of a file that is empty.
fn begun<L: LiveLog + Drop>(
    file: L,
    header: &LogHeader,
    is_synced: bool,
) -> Result<LogWriter<L>, WriteFault>
    ensures { L.contents file ≡ Some [] → IfOk result (λ log. HasSent (Some []) log header.now []) }
{
    let Ok(log) = LogWriter::new(file, header) else {
        return Err(WriteFault);
    };
    match synced(&log, is_synced) {
        Ok(()) => Ok(log),
        Err(fault) => {
            drop(log);
            Err(fault)
        }
    }
}

/// Has a log take records.
fn put<L: LiveLog + Drop, A: Allocator>(
    log: &mut LogWriter<L>,
    records: &[Record<A>],
    is_synced: bool,
) -> Result<(), WriteFault>
    ensures ok { (h : SpecHeader) (rs : List SpecRecord) → HasSent (Some []) log.old h rs → OnOk result (HasSent (Some []) log.new h (rs ++ records.now)) }
    ensures err { (h : SpecHeader) (rs : List SpecRecord) → HasSent (Some []) log.old h rs → OnErr result (HasFront log.new.bytes h (rs ++ records.now) (length rs)) }
{
    log.append_all(records)?;
    synced(log, is_synced && !records.is_empty())
}

impl<F: Drop, L: LiveLog + Drop> LiveRun<F, L> {
    /// One that hasn't begun.
    pub(crate) fn new(folder: F, is_synced: bool) -> Self
        ensures { result.folder ≡ folder }
    {
        LiveRun {
            folder,
            log: None,
            is_synced,
        }
    }

    /// Has the log take records.
    fn keep<R, A: Allocator>(&mut self, records: &[Record<A>]) -> Result<(), F::Failure>
    where
        F: LiveFolder<R, L>,
        ensures folder { self.new.folder ≡ self.old.folder }
        ensures ok { (h : SpecHeader) (rs : List SpecRecord) → HoldsLog self.old.log h rs → OnOk result (HoldsLog self.new.log h (rs ++ records.now)) }
        ensures err { (h : SpecHeader) (rs : List SpecRecord) → HoldsLog self.old.log h rs → OnErr result (HoldsFront self.new.log h (rs ++ records.now) (length rs)) }
    {
        let Some(log) = &mut self.log else {
            return Err(self.folder.unwritten());
        };
        match put(log, records, self.is_synced) {
            Ok(()) => Ok(()),
            Err(WriteFault) => Err(self.folder.unwritten()),
        }
    }

    /// Ends a run: its folder has what that of a run has whose files are written at its end.
    pub(crate) fn end<R>(&mut self, rt: &R) -> Result<(), F::Failure>
    where
        F: LiveFolder<R, L>,
        ensures { (start : Option (List SpecFile)) (core : CoreView) (images : List SpecImage) → IsKeptUp start (F.made self.old.folder) self.old.log (taken_of core images) →
            OnOk result (Makes start (F.made self.new.folder) (run_files core images)) }
    {
        match self.log.take() {
            Some(log) => self.folder.end_log(rt, log.into_writer()),
            None => Ok(()),
        }
    }
}

impl<R, L: LiveLog + Drop, F: LiveFolder<R, L> + Drop, A: Allocator + Copy> Journal<R, A>
    for LiveRun<F, L> {
    ghost use Rattle.calcdb.specs.LiveRuns.{IsCutOff, IsKeptUp};

    type Failure = F::Failure;

    ghost Has = { λ start now t. IsKeptUp (F.made start.folder) (F.made now.folder) now.log t };

    ghost HasFront = { λ start now t least. IsCutOff (F.made start.folder) (F.made now.folder) now.log t least };

    /// The log gets its name before the opening is written, so that of two runs in one folder the second is
    /// refused.
    fn open(&mut self, alloc: A, rt: &R, core: &Core<A>) -> Result<(), F::Failure> {
        self.log = None;
        let catalog = core.catalog().digest()?;
        let file = self.folder.begin_log(rt)?;
        let opening = make_opening(alloc, rt, &mut self.folder, core.opening())?;
        let header = LogHeader { catalog, opening };
        match begun(file, &header, self.is_synced) {
            Ok(log) => {
                self.log = Some(log);
                Ok(())
            }
            Err(WriteFault) => Err(self.folder.unwritten()),
        }
    }

    fn take(
        &mut self,
        alloc: A,
        rt: &R,
        records: &[Record<A>],
        image: Option<&Image<A>>,
    ) -> Result<(), F::Failure> {
        self.keep(records)?;
        match image {
            Some(image) => make_image(alloc, rt, &mut self.folder, image),
            None => Ok(()),
        }
    }
}
