//! Why a command of the program ends early. How that is said on standard output is in `refusals`, how on
//! standard error in `failures`, and why a line isn't read in `unread` and `misreads`, and
//! which files a refusal is of in `subjects`.

ghost use Rattle.std.specs.Prelude.{◌≡◌, Some};
ghost use Rattle.calcdb.specs.declared.faults.Fault.TheVariants as fault;
ghost use Rattle.calcdb.specs.declared.faults.Reason.TheVariants as reason;
ghost use Rattle.calcdb.specs.Refusing.{text_fault};
ghost use Rattle.calcdb.specs.Reasons.{reason_text, read_reason, merge_reason, log_reason, recover_reason};

pub(crate) mod failures;
pub(crate) mod misreads;
pub(crate) mod refusals;
pub(crate) mod subjects;
pub(crate) mod unread;

use crate::faults::misreads::FaultyLine;
use crate::scripts::ScriptFault;
use commitlog::LogError;
use image::{MergeError, ReadError};
use procedure::NoMemory;
use procedure::streams::WriteFault;
use replay::RecoverError;
use std::error::Error;
use std::fmt;

/// Why a run ends before its last command was answered, or another command isn't done. At `Line`, `Size`
/// and `Refused` the one line that says so was written first.
#[derive(Debug, Drop, thiserror::Error)]
pub(crate) enum Fault {
    #[error("a read failed")]
    Read,
    #[error("a write failed")]
    Write,
    #[error("no memory")]
    NoMemory,
    /// The first faulty line of a text.
    #[error("fault line {}", .0.number)]
    Line(FaultyLine),
    /// The text has over 4,194,304 bytes.
    #[error("fault size")]
    Size,
    #[error("refused {0}")]
    Refused(Reason),
}

impl From<ScriptFault> for Fault {
    ghost from_gives = { λ e f. f ≡ text_fault e };

    /// The fault of a text; out of memory for it is said in a line.
    fn from(fault: ScriptFault) -> Self {
        match fault {
            ScriptFault::Line(faulty) => Fault::Line(faulty),
            ScriptFault::Size => Fault::Size,
            ScriptFault::NoMemory => Fault::Refused(Reason::NoMemory),
        }
    }
}

impl From<WriteFault> for Fault {
    ghost from_gives = { λ _ f. f ≡ fault.Write };

    fn from(_failed: WriteFault) -> Self {
        Fault::Write
    }
}

impl From<NoMemory> for Fault {
    ghost from_gives = { λ _ f. f ≡ fault.NoMemory };

    /// Want of memory that isn't said.
    fn from(_refused: NoMemory) -> Self {
        Fault::NoMemory
    }
}

impl From<Reason> for Fault {
    ghost from_gives = { λ r f. f ≡ fault.Refused r };

    fn from(refused: Reason) -> Self {
        Fault::Refused(refused)
    }
}

/// Why an input is refused. The variants with a number name an image of a chain, a record of a log, a
/// place or a block.
#[derive(Clone, Copy, Debug, PartialEq, Eq)]
pub(crate) enum Reason {
    NotAnImage,
    BadDigest,
    BadBlock(usize),
    BadForm,
    TooMany,
    NotFull,
    NotPartial(usize),
    Gap(usize),
    NotALog,
    Damaged(usize),
    WrongCatalog,
    WrongOpening,
    PlaceOutside,
    Diverged(usize),
    NotAnOpening,
    NoView,
    NoMemory,
}

impl fmt::Display for Reason {
    ghost output = { λ r. Some (reason_text r) };

    fn fmt<W: fmt::Write>(&self, f: &mut fmt::Formatter<W>) -> fmt::Result {
        match self {
            Reason::NotAnImage => write!(f, "not an image"),
            Reason::BadDigest => write!(f, "bad digest"),
            Reason::BadBlock(block) => write!(f, "bad block {block}"),
            Reason::BadForm => write!(f, "bad form"),
            Reason::TooMany => write!(f, "too many"),
            Reason::NotFull => write!(f, "not full"),
            Reason::NotPartial(image) => write!(f, "not partial {image}"),
            Reason::Gap(image) => write!(f, "gap {image}"),
            Reason::NotALog => write!(f, "not a log"),
            Reason::Damaged(index) => write!(f, "damaged {index}"),
            Reason::WrongCatalog => write!(f, "wrong catalog"),
            Reason::WrongOpening => write!(f, "wrong opening"),
            Reason::PlaceOutside => write!(f, "place outside"),
            Reason::Diverged(place) => write!(f, "diverged {place}"),
            Reason::NotAnOpening => write!(f, "not an opening"),
            Reason::NoView => write!(f, "no view"),
            Reason::NoMemory => write!(f, "no memory"),
        }
    }
}

impl Error for Reason {}

impl From<ReadError> for Reason {
    ghost from_gives = { λ e r. r ≡ read_reason e };

    fn from(refused: ReadError) -> Self {
        match refused {
            ReadError::NotAnImage => Reason::NotAnImage,
            ReadError::BadDigest => Reason::BadDigest,
            ReadError::BadBlock(block) => Reason::BadBlock(block),
            ReadError::BadForm => Reason::BadForm,
            ReadError::NoMemory => Reason::NoMemory,
        }
    }
}

impl From<MergeError> for Reason {
    ghost from_gives = { λ e r. r ≡ merge_reason e };

    fn from(refused: MergeError) -> Self {
        Reason::from(RecoverError::from(refused))
    }
}

impl From<LogError> for Reason {
    ghost from_gives = { λ e r. r ≡ log_reason e };

    fn from(refused: LogError) -> Self {
        Reason::from(RecoverError::from(refused))
    }
}

impl From<RecoverError> for Reason {
    ghost from_gives = { λ e r. r ≡ recover_reason e };

    fn from(refused: RecoverError) -> Self {
        match refused {
            RecoverError::TooMany => Reason::TooMany,
            RecoverError::NotFull => Reason::NotFull,
            RecoverError::NotPartial(image) => Reason::NotPartial(image),
            RecoverError::Gap(image) => Reason::Gap(image),
            RecoverError::NotALog => Reason::NotALog,
            RecoverError::Damaged(index) => Reason::Damaged(index),
            RecoverError::WrongCatalog => Reason::WrongCatalog,
            RecoverError::WrongOpening => Reason::WrongOpening,
            RecoverError::PlaceOutside => Reason::PlaceOutside,
            RecoverError::Diverged(place) => Reason::Diverged(place),
            RecoverError::NoMemory => Reason::NoMemory,
        }
    }
}

impl From<NoMemory> for Reason {
    ghost from_gives = { λ _ r. r ≡ reason.NoMemory };

    fn from(_refused: NoMemory) -> Self {
        Reason::NoMemory
    }
}
