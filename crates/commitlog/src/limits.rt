//! The limits of a log.

/// Records of a log.
pub const LOG_RECORDS: usize = 1_000_000;

/// Replies of a call, one at most for each instruction of its procedure.
pub const REPLIES: usize = 64;

/// Bytes of an argument or reply in a log of version 1.
pub const VALUE_BYTES_V1: usize = 256;

/// Bytes of a record's body in a log of version 1: 8 arguments and 64 replies of 256 bytes.
pub const BODY_BYTES_V1: usize = 18_656;

/// Bytes of a record's body in a log of version 2: 8 arguments and 64 replies of 65,535 bytes.
pub const BODY_BYTES: usize = 4_718_744;

/// Bytes of a log's header.
pub const HEADER_BYTES: usize = 72;
