//! Why nothing is recovered, and why a log doesn't pass an audit.

ghost use Rattle.std.specs.Prelude.{◌≡◌, Some};
ghost use Rattle.replay.specs.Refusals.{recover_error_text, audit_error_text, of_merge, of_log, audit_of_log};
ghost use Rattle.replay.specs.declared.errors.RecoverError.TheVariants as recover_refused;
ghost use Rattle.replay.specs.declared.errors.AuditError.TheVariants as audit_refused;

use commitlog::LogError;
use image::MergeError;
use procedure::NoMemory;
use std::alloc::AllocError;
use std::error::Error;
use std::fmt;

/// Why nothing is recovered. The first that holds is answered: of the images, then of the bytes, then of
/// the header, then of the image's place, and then call by call.
#[derive(Clone, Copy, Debug, PartialEq, Eq)]
pub enum RecoverError {
    /// Over 64 images, or over 100,000 keys in them together or after a call.
    TooMany,
    /// There is no image, or the first is partial.
    NotFull,
    /// The partial image at this place, counted from 0, is full.
    NotPartial(usize),
    /// The base of the partial image at this place isn't the number of the image before it.
    Gap(usize),
    /// The bytes are no log.
    NotALog,
    /// What stands at this place of the log is no record.
    Damaged(usize),
    /// The log was written with another catalog.
    WrongCatalog,
    /// The image has number 0, and the log didn't begin with it.
    WrongOpening,
    /// The image has a number above 0, and at its place in the log isn't the token of its cut.
    PlaceOutside,
    /// The call at this place of the log isn't one of the catalog, or gives something else.
    Diverged(usize),
    NoMemory,
}

/// Why a log doesn't pass. The first that holds, in this order, is answered; from `Disorder` on record by
/// record.
#[derive(Clone, Copy, Debug, PartialEq, Eq)]
pub enum AuditError {
    /// The image isn't full, or its number, base or place isn't 0.
    NotAnOpening,
    /// The bytes are no log.
    NotALog,
    /// What stands at this place is no record.
    Damaged(usize),
    /// The log was written with another catalog.
    WrongCatalog,
    /// The log didn't begin with this image.
    WrongOpening,
    /// The number at this place isn't above that of its session's last call, or the token isn't one
    /// that may follow.
    Disorder(usize),
    /// The call at this place isn't one of the catalog, or gives something else.
    Diverged(usize),
    /// A call leaves over 100,000 keys.
    TooMany,
    NoMemory,
}

impl fmt::Display for RecoverError {
    ghost output = { λ e. Some (recover_error_text e) };

    fn fmt<W: fmt::Write>(&self, f: &mut fmt::Formatter<W>) -> fmt::Result {
        match self {
            RecoverError::TooMany => write!(f, "too many"),
            RecoverError::NotFull => write!(f, "not full"),
            RecoverError::NotPartial(place) => write!(f, "not partial {place}"),
            RecoverError::Gap(place) => write!(f, "gap {place}"),
            RecoverError::NotALog => write!(f, "not a log"),
            RecoverError::Damaged(place) => write!(f, "damaged {place}"),
            RecoverError::WrongCatalog => write!(f, "wrong catalog"),
            RecoverError::WrongOpening => write!(f, "wrong opening"),
            RecoverError::PlaceOutside => write!(f, "place outside"),
            RecoverError::Diverged(place) => write!(f, "diverged {place}"),
            RecoverError::NoMemory => write!(f, "no memory"),
        }
    }
}

impl Error for RecoverError {}

impl fmt::Display for AuditError {
    ghost output = { λ e. Some (audit_error_text e) };

    fn fmt<W: fmt::Write>(&self, f: &mut fmt::Formatter<W>) -> fmt::Result {
        match self {
            AuditError::NotAnOpening => write!(f, "not an opening"),
            AuditError::NotALog => write!(f, "not a log"),
            AuditError::Damaged(place) => write!(f, "damaged {place}"),
            AuditError::WrongCatalog => write!(f, "wrong catalog"),
            AuditError::WrongOpening => write!(f, "wrong opening"),
            AuditError::Disorder(place) => write!(f, "disorder {place}"),
            AuditError::Diverged(place) => write!(f, "diverged {place}"),
            AuditError::TooMany => write!(f, "too many"),
            AuditError::NoMemory => write!(f, "no memory"),
        }
    }
}

impl Error for AuditError {}

impl From<MergeError> for RecoverError {
    ghost from_gives = { λ refused e. e ≡ of_merge refused };

    fn from(refused: MergeError) -> Self {
        match refused {
            MergeError::TooMany => RecoverError::TooMany,
            MergeError::NotFull => RecoverError::NotFull,
            MergeError::NotPartial(place) => RecoverError::NotPartial(place),
            MergeError::Gap(place) => RecoverError::Gap(place),
            MergeError::NoMemory => RecoverError::NoMemory,
        }
    }
}

impl From<LogError> for RecoverError {
    ghost from_gives = { λ refused e. e ≡ of_log refused };

    fn from(refused: LogError) -> Self {
        match refused {
            LogError::NotALog => RecoverError::NotALog,
            LogError::Damaged(place) => RecoverError::Damaged(place),
            LogError::NoMemory => RecoverError::NoMemory,
        }
    }
}

impl From<LogError> for AuditError {
    ghost from_gives = { λ refused e. e ≡ audit_of_log refused };

    fn from(refused: LogError) -> Self {
        match refused {
            LogError::NotALog => AuditError::NotALog,
            LogError::Damaged(place) => AuditError::Damaged(place),
            LogError::NoMemory => AuditError::NoMemory,
        }
    }
}

impl From<NoMemory> for RecoverError {
    ghost from_gives = { λ _ e. e ≡ recover_refused.NoMemory };

    fn from(_refused: NoMemory) -> Self {
        RecoverError::NoMemory
    }
}

impl From<AllocError> for RecoverError {
    ghost from_gives = { λ _ e. e ≡ recover_refused.NoMemory };

    fn from(_refused: AllocError) -> Self {
        RecoverError::NoMemory
    }
}

impl From<NoMemory> for AuditError {
    ghost from_gives = { λ _ e. e ≡ audit_refused.NoMemory };

    fn from(_refused: NoMemory) -> Self {
        AuditError::NoMemory
    }
}

impl From<AllocError> for AuditError {
    ghost from_gives = { λ _ e. e ≡ audit_refused.NoMemory };

    fn from(_refused: AllocError) -> Self {
        AuditError::NoMemory
    }
}
