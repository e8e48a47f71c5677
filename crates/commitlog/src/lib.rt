//! The commit log in memory, what its records say as a history, and its bytes in two versions.
//!
//! The definitions are in `specs/`: histories that are legal, orderly and cyclic (`Histories`), the cut
//! and the images of a checkpoint (`Cuts`), the bytes of a log (`LogBytes`), what of them has gone out of a
//! log that is written record by record (`LogWriters`), the one reading of a text as a log
//! (`LogReadings`), and the records that stand in a text (`StoredRecords`).
#![tactic(auto)]

mod bodies;
#[cfg(test)]
mod body_tests;
mod body_writing;
pub mod checking;
pub mod decoding;
pub mod encoding;
pub mod formats;
mod forms;
pub mod laws;
pub mod limits;
#[cfg(test)]
mod log_bytes_tests;
pub mod log_writer;
pub mod logs;
mod pieces;
pub mod records;
pub mod stored_records;
#[cfg(test)]
mod stream_tests;
pub mod streams;
#[cfg(test)]
mod tests;

pub use checking::{CheckedLog, check_log};
pub use decoding::{Ending, LogError, StoredLog, read_log};
pub use encoding::{EncodeError, encode, encode_v1};
pub use formats::{LogHeader, Version};
pub use log_writer::LogWriter;
pub use logs::{Log, PushError};
pub use records::{Entry, Record};
pub use stored_records::StoredRecords;
pub use streams::{ReadError, WriteError, encode_to, read_log_from};
