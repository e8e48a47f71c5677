//! Why calls, checkpoints and gatherings are refused.

ghost use Rattle.std.specs.Prelude.{◌≡◌, Some};
ghost use Rattle.workers.specs.Shares.{stops_session};
ghost use Rattle.workers.specs.declared.errors.CallRefusal.TheVariants as call_refused;
ghost use Rattle.workers.specs.Texts.{call_refusal_text, checkpoint_refusal_text, stream_error_text, gather_error_text};
ghost use Rattle.workers.specs.declared.errors.CheckpointRefusal.TheVariants as checkpoint_refused;
ghost use Rattle.workers.specs.Refusals.{stream_error_of};
ghost use Rattle.workers.specs.declared.errors.StreamError.TheVariants as stream_refused;
ghost use Rattle.workers.specs.declared.errors.GatherError.TheVariants as gather_refused;

use procedure::NoMemory;
use std::error::Error;
use std::fmt;
use steps::{
    AdvanceError, BeginError, CaptureError, CaptureToError, FinishError, StartError, StepError,
};

/// Why a call of a session wasn't answered.
#[derive(Clone, Copy, Debug, PartialEq, Eq)]
pub enum CallRefusal {
    Begin(BeginError),
    Step(StepError),
    Finish(FinishError),
}

impl CallRefusal {
    /// Whether the session can't go on: the table or the log is full, or memory is wanting.
    pub fn stops(self) -> bool
        ensures { result ≡ stops_session self }
    {
        match self {
            CallRefusal::Begin(refusal) => refusal == BeginError::NoMemory,
            CallRefusal::Step(refusal) => {
                refusal == StepError::TableFull || refusal == StepError::NoMemory
            }
            CallRefusal::Finish(refusal) => {
                refusal == FinishError::LogFull || refusal == FinishError::NoMemory
            }
        }
    }
}

impl From<BeginError> for CallRefusal {
    ghost from_gives = { λ e r. r ≡ call_refused.Begin e };

    fn from(refusal: BeginError) -> Self {
        CallRefusal::Begin(refusal)
    }
}

impl From<StepError> for CallRefusal {
    ghost from_gives = { λ e r. r ≡ call_refused.Step e };

    fn from(refusal: StepError) -> Self {
        CallRefusal::Step(refusal)
    }
}

impl From<FinishError> for CallRefusal {
    ghost from_gives = { λ e r. r ≡ call_refused.Finish e };

    fn from(refusal: FinishError) -> Self {
        CallRefusal::Finish(refusal)
    }
}

impl fmt::Display for CallRefusal {
    ghost output = { λ e. Some (call_refusal_text e) };

    fn fmt<W: fmt::Write>(&self, f: &mut fmt::Formatter<W>) -> fmt::Result {
        match self {
            CallRefusal::Begin(refusal) => write!(f, "{refusal}"),
            CallRefusal::Step(refusal) => write!(f, "{refusal}"),
            CallRefusal::Finish(refusal) => write!(f, "{refusal}"),
        }
    }
}

impl Error for CallRefusal {}

/// Why a checkpoint doesn't go on.
#[derive(Clone, Copy, Debug, PartialEq, Eq)]
pub enum CheckpointRefusal {
    Start(StartError),
    Advance(AdvanceError),
    Capture(CaptureError),
    CaptureTo(CaptureToError),
    /// There is no room for its image in the list.
    NoMemory,
}

impl From<StartError> for CheckpointRefusal {
    ghost from_gives = { λ e r. r ≡ checkpoint_refused.Start e };

    fn from(refusal: StartError) -> Self {
        CheckpointRefusal::Start(refusal)
    }
}

impl From<AdvanceError> for CheckpointRefusal {
    ghost from_gives = { λ e r. r ≡ checkpoint_refused.Advance e };

    fn from(refusal: AdvanceError) -> Self {
        CheckpointRefusal::Advance(refusal)
    }
}

impl From<CaptureError> for CheckpointRefusal {
    ghost from_gives = { λ e r. r ≡ checkpoint_refused.Capture e };

    fn from(refusal: CaptureError) -> Self {
        CheckpointRefusal::Capture(refusal)
    }
}

impl From<CaptureToError> for CheckpointRefusal {
    ghost from_gives = { λ e r. r ≡ checkpoint_refused.CaptureTo e };

    fn from(refusal: CaptureToError) -> Self {
        CheckpointRefusal::CaptureTo(refusal)
    }
}

impl From<NoMemory> for CheckpointRefusal {
    ghost from_gives = { λ _ r. r ≡ checkpoint_refused.NoMemory };

    fn from(_refused: NoMemory) -> Self {
        CheckpointRefusal::NoMemory
    }
}

impl fmt::Display for CheckpointRefusal {
    ghost output = { λ e. Some (checkpoint_refusal_text e) };

    fn fmt<W: fmt::Write>(&self, f: &mut fmt::Formatter<W>) -> fmt::Result {
        match self {
            CheckpointRefusal::Start(refusal) => write!(f, "{refusal}"),
            CheckpointRefusal::Advance(refusal) => write!(f, "{refusal}"),
            CheckpointRefusal::Capture(refusal) => write!(f, "{refusal}"),
            CheckpointRefusal::CaptureTo(refusal) => write!(f, "{refusal}"),
            CheckpointRefusal::NoMemory => f.write_str("no memory"),
        }
    }
}

impl Error for CheckpointRefusal {}

/// Why a run gives no image of its streamed checkpoint.
#[derive(Clone, Copy, Debug, PartialEq, Eq)]
pub enum StreamError {
    /// No memory was found for the ring. Nothing was started.
    NoRing,
    /// The ring has no end, or the core no header. It doesn't come where the checkpoint was made by the run.
    NoEnd,
    /// The entries that were drained aren't those of the header.
    BadForm,
    /// No turn was left.
    TurnsOut,
    NoMemory,
    Refused(CheckpointRefusal),
}

impl StreamError {
    /// That the core refused. Out of memory is one thing, wherever the core says it.
    pub fn of_refusal(refusal: CheckpointRefusal) -> Self
        ensures value { result ≡ stream_error_of refusal }
        ensures started { result ≡ stream_refused.NoRing → ⊥ }
    {
        match refusal {
            CheckpointRefusal::NoMemory
            | CheckpointRefusal::Start(StartError::NoMemory)
            | CheckpointRefusal::Advance(AdvanceError::NoMemory)
            | CheckpointRefusal::Capture(CaptureError::NoMemory)
            | CheckpointRefusal::CaptureTo(CaptureToError::NoMemory) => StreamError::NoMemory,
            _ => StreamError::Refused(refusal),
        }
    }
}

impl fmt::Display for StreamError {
    ghost output = { λ e. Some (stream_error_text e) };

    fn fmt<W: fmt::Write>(&self, f: &mut fmt::Formatter<W>) -> fmt::Result {
        match self {
            StreamError::NoRing => f.write_str("no ring"),
            StreamError::NoEnd => f.write_str("no end"),
            StreamError::BadForm => f.write_str("bad form"),
            StreamError::TurnsOut => f.write_str("turns out"),
            StreamError::NoMemory => f.write_str("no memory"),
            StreamError::Refused(refusal) => write!(f, "{refusal}"),
        }
    }
}

impl Error for StreamError {}

/// Why answers aren't the calls of the records, each once.
#[derive(Clone, Copy, Debug, PartialEq, Eq)]
pub enum GatherError {
    /// At an answer's place stands no call with its session, number, outcome and replies.
    Stranger,
    /// Two answers have one place.
    Double,
    /// No answer has the place of this call, the least one of which that holds.
    Missing(usize),
    NoMemory,
}

impl From<NoMemory> for GatherError {
    ghost from_gives = { λ _ e. e ≡ gather_refused.NoMemory };

    fn from(_refused: NoMemory) -> Self {
        GatherError::NoMemory
    }
}

impl fmt::Display for GatherError {
    ghost output = { λ e. Some (gather_error_text e) };

    fn fmt<W: fmt::Write>(&self, f: &mut fmt::Formatter<W>) -> fmt::Result {
        match self {
            GatherError::Stranger => f.write_str("stranger"),
            GatherError::Double => f.write_str("double"),
            GatherError::Missing(place) => write!(f, "missing at {place}"),
            GatherError::NoMemory => f.write_str("no memory"),
        }
    }
}

impl Error for GatherError {}
