//! Why a call is refused.

ghost use Rattle.std.specs.Prelude.{◌≡◌, Some, codes};
ghost use Rattle.steps.specs.Refusals.{step_error_text, finish_error_text, open_error_text, begin_error_text, start_error_text, advance_error_text, capture_error_text, capture_to_error_text, abandon_error_text};
ghost use Rattle.steps.specs.declared.errors.OpenError.TheVariants as opening;
ghost use Rattle.steps.specs.declared.errors.BeginError.TheVariants as beginning;
ghost use Rattle.steps.specs.Renewals.{renew_error_text};

use procedure::NoMemory;
use std::error::Error;
use std::fmt;

/// Why a core isn't opened.
#[derive(Clone, Copy, Debug, PartialEq, Eq)]
pub enum OpenError {
    /// The image isn't full, or its number, base or place isn't 0.
    NotAnOpening,
    NoMemory,
}

/// Why a call doesn't begin. The first that holds, in this order, is answered.
#[derive(Clone, Copy, Debug, PartialEq, Eq)]
pub enum BeginError {
    /// The session is over 63.
    NoSession,
    /// The catalog has no such procedure.
    NoProcedure,
    /// The procedure takes another number of arguments.
    Arity,
    /// An argument has over 65,535 bytes.
    ArgSize,
    /// The session has an open call.
    SessionBusy,
    /// The number isn't above that of the session's last call in the log.
    OldNumber,
    NoMemory,
}

/// Why an instruction isn't executed. The first that holds, in this order, is answered.
#[derive(Clone, Copy, Debug, PartialEq, Eq)]
pub enum StepError {
    /// The session has no open call, or is over 63.
    NotActive,
    /// The call has no instructions left.
    AlreadyReady,
    /// Another session's open call has touched the key, and one of the two touches is to write.
    Conflict,
    /// A record must be made of the key, and the store has 100,000.
    TableFull,
    NoMemory,
}

impl StepError {
    /// The name of the refusal, as it is printed.
    pub fn name(self) -> &'static str
        ensures { result.now ≡ step_error_text self }
    {
        match self {
            StepError::NotActive => "not active",
            StepError::AlreadyReady => "already ready",
            StepError::Conflict => "conflict",
            StepError::TableFull => "table full",
            StepError::NoMemory => "no memory",
        }
    }
}

impl fmt::Display for StepError {
    ghost output = { λ e. Some (step_error_text e) };

    fn fmt<W: fmt::Write>(&self, f: &mut fmt::Formatter<W>) -> fmt::Result {
        f.write_str(self.name())
    }
}

impl Error for StepError {}

/// Why a call isn't answered. The first that holds, in this order, is.
#[derive(Clone, Copy, Debug, PartialEq, Eq)]
pub enum FinishError {
    /// The session has no open call, or is over 63.
    NotActive,
    /// The call has instructions left.
    NotReady,
    /// The log has 1,000,000 records.
    LogFull,
    NoMemory,
}

impl FinishError {
    /// The name of the refusal, as it is printed.
    pub fn name(self) -> &'static str
        ensures { result.now ≡ finish_error_text self }
    {
        match self {
            FinishError::NotActive => "not active",
            FinishError::NotReady => "not ready",
            FinishError::LogFull => "log full",
            FinishError::NoMemory => "no memory",
        }
    }
}

impl fmt::Display for FinishError {
    ghost output = { λ e. Some (finish_error_text e) };

    fn fmt<W: fmt::Write>(&self, f: &mut fmt::Formatter<W>) -> fmt::Result {
        f.write_str(self.name())
    }
}

impl Error for FinishError {}

/// The session has no open call, or is over 63.
#[derive(Clone, Copy, Debug, PartialEq, Eq)]
pub struct NotActive;

impl NotActive {
    /// The name of the refusal, as it is printed.
    pub fn name(self) -> &'static str
        ensures { result.now ≡ codes "not active" }
    {
        "not active"
    }
}

impl fmt::Display for NotActive {
    ghost output = { λ _. Some (codes "not active") };

    fn fmt<W: fmt::Write>(&self, f: &mut fmt::Formatter<W>) -> fmt::Result {
        f.write_str(self.name())
    }
}

impl Error for NotActive {}

impl OpenError {
    /// The name of the refusal, as it is printed.
    pub fn name(self) -> &'static str
        ensures { result.now ≡ open_error_text self }
    {
        match self {
            OpenError::NotAnOpening => "not an opening",
            OpenError::NoMemory => "no memory",
        }
    }
}

impl fmt::Display for OpenError {
    ghost output = { λ e. Some (open_error_text e) };

    fn fmt<W: fmt::Write>(&self, f: &mut fmt::Formatter<W>) -> fmt::Result {
        f.write_str(self.name())
    }
}

impl Error for OpenError {}

impl From<NoMemory> for OpenError {
    ghost from_gives = { λ _ e. e ≡ opening.NoMemory };

    fn from(_refused: NoMemory) -> Self {
        OpenError::NoMemory
    }
}

impl BeginError {
    /// The name of the refusal, as it is printed.
    pub fn name(self) -> &'static str
        ensures { result.now ≡ begin_error_text self }
    {
        match self {
            BeginError::NoSession => "no session",
            BeginError::NoProcedure => "no procedure",
            BeginError::Arity => "arity",
            BeginError::ArgSize => "arg size",
            BeginError::SessionBusy => "session busy",
            BeginError::OldNumber => "old number",
            BeginError::NoMemory => "no memory",
        }
    }
}

impl fmt::Display for BeginError {
    ghost output = { λ e. Some (begin_error_text e) };

    fn fmt<W: fmt::Write>(&self, f: &mut fmt::Formatter<W>) -> fmt::Result {
        f.write_str(self.name())
    }
}

impl Error for BeginError {}

impl From<NoMemory> for BeginError {
    ghost from_gives = { λ _ e. e ≡ beginning.NoMemory };

    fn from(_refused: NoMemory) -> Self {
        BeginError::NoMemory
    }
}

/// Why a checkpoint isn't started. The first that holds, in this order, is answered.
#[derive(Clone, Copy, Debug, PartialEq, Eq)]
pub enum StartError {
    /// A checkpoint runs.
    NotAtRest,
    /// The image of the one before, or its header, was not taken.
    NotTaken,
    /// The log has 1,000,000 records.
    LogFull,
    NoMemory,
}

impl StartError {
    /// The name of the refusal, as it is printed.
    pub fn name(self) -> &'static str
        ensures { result.now ≡ start_error_text self }
    {
        match self {
            StartError::NotAtRest => "not at rest",
            StartError::NotTaken => "not taken",
            StartError::LogFull => "log full",
            StartError::NoMemory => "no memory",
        }
    }
}

impl fmt::Display for StartError {
    ghost output = { λ e. Some (start_error_text e) };

    fn fmt<W: fmt::Write>(&self, f: &mut fmt::Formatter<W>) -> fmt::Result {
        f.write_str(self.name())
    }
}

impl Error for StartError {}

/// Why the phase doesn't change. The first that holds, in this order, is answered.
#[derive(Clone, Copy, Debug, PartialEq, Eq)]
pub enum AdvanceError {
    /// No checkpoint runs.
    AtRest,
    /// In prepare, resolve or complete, an open call started in another phase.
    StillActive,
    /// In capture, the scan has places left.
    NotScanned,
    /// The log has 1,000,000 records.
    LogFull,
    NoMemory,
}

impl AdvanceError {
    /// The name of the refusal, as it is printed.
    pub fn name(self) -> &'static str
        ensures { result.now ≡ advance_error_text self }
    {
        match self {
            AdvanceError::AtRest => "at rest",
            AdvanceError::StillActive => "still active",
            AdvanceError::NotScanned => "not scanned",
            AdvanceError::LogFull => "log full",
            AdvanceError::NoMemory => "no memory",
        }
    }
}

impl fmt::Display for AdvanceError {
    ghost output = { λ e. Some (advance_error_text e) };

    fn fmt<W: fmt::Write>(&self, f: &mut fmt::Formatter<W>) -> fmt::Result {
        f.write_str(self.name())
    }
}

impl Error for AdvanceError {}

/// Why nothing is captured. The first that holds, in this order, is answered.
#[derive(Clone, Copy, Debug, PartialEq, Eq)]
pub enum CaptureError {
    /// The phase isn't capture.
    NotCapturing,
    /// The checkpoint is streamed.
    WrongWay,
    NoMemory,
}

impl CaptureError {
    /// The name of the refusal, as it is printed.
    pub fn name(self) -> &'static str
        ensures { result.now ≡ capture_error_text self }
    {
        match self {
            CaptureError::NotCapturing => "not capturing",
            CaptureError::WrongWay => "wrong way",
            CaptureError::NoMemory => "no memory",
        }
    }
}

impl fmt::Display for CaptureError {
    ghost output = { λ e. Some (capture_error_text e) };

    fn fmt<W: fmt::Write>(&self, f: &mut fmt::Formatter<W>) -> fmt::Result {
        f.write_str(self.name())
    }
}

impl Error for CaptureError {}

/// Why nothing is captured into a ring. The first that holds, in this order, is answered; but memory may
/// be wanting before the ring is asked.
#[derive(Clone, Copy, Debug, PartialEq, Eq)]
pub enum CaptureToError {
    /// The phase isn't capture.
    NotCapturing,
    /// The checkpoint isn't streamed.
    WrongWay,
    /// The ring has no room for the entry that the place gives, or its tap has sent as many entries as an
    /// image may have.
    RingFull,
    NoMemory,
}

impl CaptureToError {
    /// The name of the refusal, as it is printed.
    pub fn name(self) -> &'static str
        ensures { result.now ≡ capture_to_error_text self }
    {
        match self {
            CaptureToError::NotCapturing => "not capturing",
            CaptureToError::WrongWay => "wrong way",
            CaptureToError::RingFull => "ring full",
            CaptureToError::NoMemory => "no memory",
        }
    }
}

impl fmt::Display for CaptureToError {
    ghost output = { λ e. Some (capture_to_error_text e) };

    fn fmt<W: fmt::Write>(&self, f: &mut fmt::Formatter<W>) -> fmt::Result {
        f.write_str(self.name())
    }
}

impl Error for CaptureToError {}

/// Why a checkpoint isn't abandoned. The first that holds, in this order, is answered.
#[derive(Clone, Copy, Debug, PartialEq, Eq)]
pub enum AbandonError {
    /// The phase is neither resolve nor capture.
    NotAbandonable,
    /// The checkpoint is streamed.
    WrongWay,
    /// The log has 1,000,000 records.
    LogFull,
    NoMemory,
}

impl AbandonError {
    /// The name of the refusal, as it is printed.
    pub fn name(self) -> &'static str
        ensures { result.now ≡ abandon_error_text self }
    {
        match self {
            AbandonError::NotAbandonable => "not abandonable",
            AbandonError::WrongWay => "wrong way",
            AbandonError::LogFull => "log full",
            AbandonError::NoMemory => "no memory",
        }
    }
}

impl fmt::Display for AbandonError {
    ghost output = { λ e. Some (abandon_error_text e) };

    fn fmt<W: fmt::Write>(&self, f: &mut fmt::Formatter<W>) -> fmt::Result {
        f.write_str(self.name())
    }
}

impl Error for AbandonError {}

/// Why a core isn't renewed. The first that holds, in this order, is answered.
#[derive(Clone, Copy, Debug, PartialEq, Eq)]
pub enum RenewError {
    /// A checkpoint runs.
    NotAtRest,
    /// A session has an open call.
    SessionBusy,
    /// The image of the last checkpoint, or its header, was not taken.
    NotTaken,
    NoMemory,
}

impl RenewError {
    /// The name of the refusal, as it is printed.
    pub fn name(self) -> &'static str
        ensures { result.now ≡ renew_error_text self }
    {
        match self {
            RenewError::NotAtRest => "not at rest",
            RenewError::SessionBusy => "session busy",
            RenewError::NotTaken => "not taken",
            RenewError::NoMemory => "no memory",
        }
    }
}

impl fmt::Display for RenewError {
    ghost output = { λ e. Some (renew_error_text e) };

    fn fmt<W: fmt::Write>(&self, f: &mut fmt::Formatter<W>) -> fmt::Result {
        f.write_str(self.name())
    }
}

impl Error for RenewError {}
