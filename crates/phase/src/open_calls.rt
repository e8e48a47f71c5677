//! The open calls of the sessions, by the phases in which they started.

ghost use Rattle.std.specs.Prelude.{◌≡◌, ◌<◌, ◌↔◌, None, Some, IsOk, codes, length, map, replicate, slice_get, slice_index_or, slice_set, Option};
ghost use Rattle.phase.specs.Phases.{MayLeave, Phase, restarted_phase};

use crate::counts::Counts;
use crate::phases::Phase;
use std::error::Error;
use std::fmt;
use std::marker::Model;

/// Sessions, numbered from 0. Each has at most one open call.
pub const SESSIONS: usize = 64;

/// A phase can't be left: a call is open that started in another.
#[derive(Clone, Copy, Debug, PartialEq, Eq)]
pub struct StillActive;

impl fmt::Display for StillActive {
    ghost output = { λ _. Some (codes "still active") };

    fn fmt<W: fmt::Write>(&self, f: &mut fmt::Formatter<W>) -> fmt::Result {
        write!(f, "still active")
    }
}

impl Error for StillActive {}

/// The start phase of each session's open call, seen by contracts as the list of them. A session is
/// 0 to 63, and where it has no open call its place is `None`.
#[derive(Debug, Drop)]
pub struct Active {
    starts: [Option<Phase>; SESSIONS],
    counts: Counts,
}

impl Model for Active {
    ghost use Rattle.phase.specs.Phases.{Starts};
    ghost use Rattle.phase.specs.Counts.{IsCounted};

    ghost Value = { Starts };

    ghost view = { λ a. a.starts };

    ghost invariant = { λ a. IsCounted a.starts a.counts };
}

impl Active {
    /// No call is open.
    pub fn new() -> Active
        ensures { result ≡ replicate SESSIONS None }
    {
        Active {
            starts: [None; SESSIONS],
            counts: Counts::none(),
        }
    }

    /// How many sessions there are.
    pub fn sessions(&self) -> usize
        ensures value { result ≡ length self.now }
        ensures fixed { result ≡ SESSIONS }
    {
        let starts = &self.starts;
        starts.len()
    }

    /// A session's call is open, and started in this phase.
    pub fn set(&mut self, session: usize, phase: Phase)
        requires { session < SESSIONS }
        ensures { self.new ≡ slice_set self.old session (Some phase) }
    {
        let fewer = self.counts.without(self.starts[session]);
        self.counts = fewer.with(phase);
        self.starts[session] = Some(phase);
    }

    /// A session has no open call.
    pub fn clear(&mut self, session: usize)
        requires { session < SESSIONS }
        ensures { self.new ≡ slice_set self.old session None }
    {
        self.counts = self.counts.without(self.starts[session]);
        self.starts[session] = None;
    }

    /// Whether a phase may be left. Rest and capture always may; prepare, resolve and complete
    /// where every open call started in that phase.
    pub fn may_leave(&self, phase: Phase) -> Result<(), StillActive>
        ensures { IsOk result ↔ MayLeave phase self.now }
    {
        if self.counts.has_no_others(phase) {
            Ok(())
        } else {
            Err(StillActive)
        }
    }

    /// Every open call's start phase is rest from now on, as where a checkpoint is abandoned.
    pub fn restart(&mut self)
        ensures { self.new ≡ map restarted_phase self.old }
    {
        let sessions = self.sessions();
        for session in 0..sessions {
            self.restart_call(session);
        }
    }

    fn restart_call(&mut self, session: usize)
        requires { session < SESSIONS }
        ensures { (d : Option Phase) → self.new ≡ slice_set self.old session (restarted_phase (slice_index_or self.old session d)) }
    {
        match self.starts[session] {
            Some(_) => self.set(session, Phase::Rest),
            None => self.clear(session),
        }
    }
}
