//! Recovery of a table from images and a log, and the audit of a log.
//!
//! The definitions are in `specs/`: calls that are run again (`Replays`), what a log's header names
//! (`Headers`), and what is answered (`Recovery`, `Audits`).
#![tactic(auto)]

pub mod audits;
mod calls;
#[cfg(test)]
mod chain_tests;
pub mod errors;
mod headers;
#[cfg(test)]
mod large_tests;
pub mod laws;
mod orders;
pub mod recovery;
mod tables;
#[cfg(test)]
mod tests;

pub use audits::{Audited, audit};
pub use errors::{AuditError, RecoverError};
pub use recovery::{Recovered, recover, recover_in_turn};
