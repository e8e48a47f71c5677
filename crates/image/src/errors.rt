//! Why an image isn't written or read.

ghost use Rattle.std.specs.Prelude.{◌≡◌, Some};
ghost use Rattle.image.specs.Texts.{seal_error_text, read_error_text};
ghost use Rattle.image.specs.declared.errors.SealError.TheVariants as seal_refused;
ghost use Rattle.image.specs.declared.errors.ReadError.TheVariants as read_refused;

use procedure::NoMemory;
use std::alloc::{AllocError, AllocFailed};
use std::error::Error;
use std::fmt;

/// Why an image has no bytes in version 1.
#[derive(Clone, Copy, Debug, PartialEq, Eq)]
pub enum SealError {
    /// A value has over 256 bytes.
    TooLarge,
    NoMemory,
}

impl fmt::Display for SealError {
    ghost output = { λ e. Some (seal_error_text e) };

    fn fmt<W: fmt::Write>(&self, f: &mut fmt::Formatter<W>) -> fmt::Result {
        f.write_str(match self {
            SealError::TooLarge => "too large",
            SealError::NoMemory => "no memory",
        })
    }
}

impl Error for SealError {}

impl From<NoMemory> for SealError {
    ghost from_gives = { λ _ e. e ≡ seal_refused.NoMemory };

    fn from(_refused: NoMemory) -> Self {
        SealError::NoMemory
    }
}

/// Why bytes are no image.
#[derive(Clone, Copy, Debug, PartialEq, Eq)]
pub enum ReadError {
    /// Under 69 bytes, or they begin with neither `CALCIMG1` nor `CALCIMG2`.
    NotAnImage,
    /// The digest of version 1 is another.
    BadDigest,
    /// In version 2 this block, counted from 1, or its digest isn't wholly there, or a tag is neither
    /// 0 nor 1, or the digest is another. At 0 the digest of the header is.
    BadBlock(usize),
    /// It isn't a lawful image.
    BadForm,
    NoMemory,
}

impl fmt::Display for ReadError {
    ghost output = { λ e. Some (read_error_text e) };

    fn fmt<W: fmt::Write>(&self, f: &mut fmt::Formatter<W>) -> fmt::Result {
        match self {
            ReadError::NotAnImage => write!(f, "not an image"),
            ReadError::BadDigest => write!(f, "bad digest"),
            ReadError::BadBlock(block) => write!(f, "bad block {block}"),
            ReadError::BadForm => write!(f, "bad form"),
            ReadError::NoMemory => write!(f, "no memory"),
        }
    }
}

impl Error for ReadError {}

impl From<NoMemory> for ReadError {
    ghost from_gives = { λ _ e. e ≡ read_refused.NoMemory };

    fn from(_refused: NoMemory) -> Self {
        ReadError::NoMemory
    }
}

impl From<AllocError> for ReadError {
    ghost from_gives = { λ _ e. e ≡ read_refused.NoMemory };

    fn from(_refused: AllocError) -> Self {
        ReadError::NoMemory
    }
}

impl<T: Drop> From<AllocFailed<T>> for ReadError {
    ghost from_gives = { λ _ e. e ≡ read_refused.NoMemory };

    fn from(_refused: AllocFailed<T>) -> Self {
        ReadError::NoMemory
    }
}
