//! The phases of a checkpoint.

ghost use Rattle.std.specs.Prelude.{◌≡◌, Some};
ghost use Rattle.phase.specs.Phases.{successor, phase_text};

use std::fmt;

/// The phases, in the order of the cycle.
#[derive(Clone, Copy, Debug, PartialEq, Eq)]
pub enum Phase {
    /// No checkpoint runs.
    Rest,
    /// A checkpoint is asked for.
    Prepare,
    /// The cut was made, and calls from before it are still open.
    Resolve,
    /// The image is captured.
    Capture,
    /// The image is finished, and calls from before that are still open.
    Complete,
}

impl Phase {
    /// The phase that follows.
    pub fn next(self) -> Phase
        ensures { result ≡ successor self }
    {
        match self {
            Phase::Rest => Phase::Prepare,
            Phase::Prepare => Phase::Resolve,
            Phase::Resolve => Phase::Capture,
            Phase::Capture => Phase::Complete,
            Phase::Complete => Phase::Rest,
        }
    }
}

impl fmt::Display for Phase {
    ghost output = { λ phase. Some (phase_text phase) };

    fn fmt<W: fmt::Write>(&self, f: &mut fmt::Formatter<W>) -> fmt::Result {
        f.write_str(match self {
            Phase::Rest => "rest",
            Phase::Prepare => "prepare",
            Phase::Resolve => "resolve",
            Phase::Capture => "capture",
            Phase::Complete => "complete",
        })
    }
}
