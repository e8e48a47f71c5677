//! How a worker makes checkpoints, whatever it does to the core for each.

ghost use Rattle.std.specs.Prelude.{◌+◌, drop, length};
ghost use Rattle.image.specs.declared.limits.TheConstants.{ENTRIES};
ghost use Rattle.workers.specs.declared.checkpoints.TheConstants.{MOVES};
ghost use Rattle.workers.specs.Checkpoints.{Begins, Ends, GoesOn, Makes, MakesAll, Moves, Scans, Works};
ghost use Rattle.workers.specs.Positions.{IsWithin};

use crate::errors::CheckpointRefusal;
use image::Kind;
use image::limits::ENTRIES;
use phase::Phase;
use procedure::NoMemory;
use std::thread;
use steps::{AdvanceError, CaptureError, Captured, StartError};

/// How far the checkpoints came.
#[derive(Clone, Copy, Debug, PartialEq, Eq)]
pub enum Progress {
    /// All were made.
    Done,
    /// No turn was left for the one at this position.
    TurnsOut(usize),
    /// The one at this position was refused.
    Refused(usize, CheckpointRefusal),
}

/// The checkpoints of a core as their worker drives them. What each deed does to it is its own to say.
pub trait Checkpoints {
    ghost use Rattle.workers.specs.Checkpoints.{Deed, advances, captures, finds, starts, takes};

    ghost does: { Deed → Self → Self → Type 0 };

    /// The phase that the core is in.
    fn phase(&mut self) -> Phase
        ensures { does (finds result) self.old self.new };

    /// Begins a checkpoint, where the core is at rest.
    fn start(&mut self, kind: Kind) -> Result<u64, StartError>
        ensures { does (starts kind result) self.old self.new };

    /// Enters the next phase.
    fn advance(&mut self) -> Result<Phase, AdvanceError>
        ensures { does (advances result) self.old self.new };

    /// Visits one place of the scan.
    fn capture(&mut self) -> Result<Captured, CaptureError>
        ensures { does (captures result) self.old self.new };

    /// Takes the finished image, if one waits.
    fn take_image(&mut self) -> Result<(), NoMemory>
        ensures { does (takes result) self.old self.new };
}

/// How a checkpoint came on.
#[derive(Clone, Copy, Debug, PartialEq, Eq)]
pub enum Reached {
    /// It goes on with the next phase.
    Next,
    /// It has ended.
    Rest,
    /// An open call has to end first.
    StillActive,
}

/// How many phases a checkpoint that began enters, and one scan that was left.
pub const MOVES: usize = 5;

/// Visits the places that the scan has left, which are at most as many as an image has entries.
fn scan<C: Checkpoints>(core: &mut C) -> Result<(), CaptureError>
    ensures { Scans C.does (ENTRIES + 1) core.old core.new result }
{
    let mut left = ENTRIES + 1;
    while left > 0 {
        left -= 1;
        match core.capture() {
            Ok(Captured::Slot) => {}
            Ok(Captured::Done) => return Ok(()),
            Err(refusal) => return Err(refusal),
        }
    }
    Ok(())
}

/// Does what a phase asks for.
fn work_in<C: Checkpoints>(core: &mut C, phase: Phase) -> Result<Reached, CheckpointRefusal>
    ensures { Works C.does phase core.old core.new result }
{
    match phase {
        Phase::Rest => return Ok(Reached::Rest),
        Phase::Capture => scan(core)?,
        Phase::Complete => core.take_image()?,
        _ => {}
    }
    Ok(Reached::Next)
}

/// Enters the next phase, or goes on with a scan that was left.
fn move_on<C: Checkpoints>(core: &mut C) -> Result<Reached, CheckpointRefusal>
    ensures { Moves C.does core.old core.new result }
{
    match core.advance() {
        Ok(phase) => work_in(core, phase),
        Err(refusal) => match refusal {
            AdvanceError::NotScanned => work_in(core, Phase::Capture),
            AdvanceError::StillActive => Ok(Reached::StillActive),
            _ => Err(CheckpointRefusal::Advance(refusal)),
        },
    }
}

/// Enters one phase after another.
fn go_on<C: Checkpoints>(core: &mut C) -> Result<Reached, CheckpointRefusal>
    ensures { GoesOn C.does MOVES core.old core.new result }
{
    let mut left = MOVES;
    while left > 0 {
        left -= 1;
        match move_on(core)? {
            Reached::Next => {}
            reached => return Ok(reached),
        }
    }
    Ok(Reached::StillActive)
}

/// A checkpoint of this kind begins, or one that runs already goes on.
fn begin_one<C: Checkpoints>(core: &mut C, kind: Kind) -> Result<(), CheckpointRefusal>
    ensures { Begins C.does kind core.old core.new result }
{
    match core.phase() {
        Phase::Rest => {
            core.start(kind)?;
        }
        Phase::Complete => core.take_image()?,
        _ => {}
    }
    Ok(())
}

/// Brings a checkpoint that runs to its end. False where no turn was left for it.
fn end_one<C: Checkpoints>(core: &mut C, left: &mut u64) -> Result<bool, CheckpointRefusal>
    ensures { Ends C.does left.old left.new core.old core.new result }
{
    while *left > 0 {
        match go_on(core)? {
            Reached::Rest => return Ok(true),
            _ => {}
        }
        *left -= 1;
        thread::yield_now();
    }
    Ok(false)
}

/// Makes a checkpoint to its end. False where no turn was left for it.
fn make_one<C: Checkpoints>(
    core: &mut C,
    kind: Kind,
    left: &mut u64,
) -> Result<bool, CheckpointRefusal>
    ensures { Makes C.does kind left.old left.new core.old core.new result }
{
    if *left == 0 {
        return Ok(false);
    }
    begin_one(core, kind)?;
    end_one(core, left)
}

/// Makes checkpoints of these kinds from a position on, one after another, each to its end, and takes their
/// images. One that runs already counts as the first, of whatever kind it is.
///
/// Each time that an open call has to end first is a turn; after the last one it answers `TurnsOut`. Any
/// other refusal ends it, also that there is no room for an image, which then waits in the core.
pub fn make_checkpoints<C: Checkpoints>(
    core: &mut C,
    kinds: &[Kind],
    from: usize,
    turns: u64,
) -> Progress
    ensures made { MakesAll C.does turns from (drop from kinds.now) core.old core.new result }
    ensures within { IsWithin (length kinds.now) result }
{
    let mut left = turns;
    for i in from..kinds.len() {
        match make_one(core, kinds[i], &mut left) {
            Ok(true) => {}
            Ok(false) => return Progress::TurnsOut(i),
            Err(refusal) => return Progress::Refused(i, refusal),
        }
    }
    Progress::Done
}
