//! The two versions of a log's bytes.

ghost use Rattle.std.specs.Prelude.{◌≡◌};
ghost use Rattle.commitlog.specs.LogBytes.{greatest_body, greatest_value, magic};

use crate::limits::{BODY_BYTES, BODY_BYTES_V1, VALUE_BYTES_V1};
use procedure::limits::VALUE_BYTES;

/// The versions. They differ in the letters that a log begins with and in the bytes of the longest
/// argument or reply, and so of the longest record.
#[derive(Clone, Copy, Debug, PartialEq, Eq)]
pub enum Version {
    /// `CALCLOG1`: arguments and replies of at most 256 bytes.
    One,
    /// `CALCLOG2`: arguments and replies of at most 65,535 bytes.
    Two,
}

impl Version {
    /// The letters that a log begins with.
    pub fn magic(self) -> [u8; 8]
        ensures { result ≡ magic self }
    {
        match self {
            Version::One => *b"CALCLOG1",
            Version::Two => *b"CALCLOG2",
        }
    }

    /// The bytes of the longest argument or reply.
    pub fn greatest_value(self) -> usize
        ensures { result ≡ greatest_value self }
    {
        match self {
            Version::One => VALUE_BYTES_V1,
            Version::Two => VALUE_BYTES,
        }
    }

    /// The bytes of the longest body of a record.
    pub fn greatest_body(self) -> usize
        ensures { result ≡ greatest_body self }
    {
        match self {
            Version::One => BODY_BYTES_V1,
            Version::Two => BODY_BYTES,
        }
    }
}

/// What a log says of where it began: the SHA-256 of the catalog's bytes, and that of the whole opening
/// image, sealed in the image format of the log's version.
#[derive(Clone, Copy, Debug, PartialEq, Eq)]
pub struct LogHeader {
    pub catalog: [u8; 32],
    pub opening: [u8; 32],
}
