//! Threads round the core: one lock, and a thread for each session and for the checkpoints.
//!
//! `run_all` runs scripts so and reports what came of them. `gather` tells whether the answers that the
//! threads were given are the calls of a log, each once.
#![tactic(auto)]

pub mod calls;
pub mod checkpointed;
pub mod checkpointing;
pub mod checkpoints;
mod copies;
#[cfg(test)]
mod core_streaming_tests;
#[cfg(test)]
mod core_tests;
pub mod errors;
pub mod gates;
pub mod gathering;
#[cfg(test)]
mod keeper_tests;
pub mod keepers;
pub mod laws;
mod publishing;
#[cfg(test)]
mod resolve_tests;
#[cfg(test)]
mod run_tests;
pub mod runs;
pub mod sessions;
pub mod shared;
pub mod shares;
pub mod streamed_runs;
#[cfg(test)]
mod streamed_tests;
mod streams;
#[cfg(test)]
mod tests;

pub use calls::{Session, make_calls};
pub use checkpointing::run_checkpoints;
pub use checkpoints::{Checkpoints, Progress, make_checkpoints};
pub use errors::{CallRefusal, CheckpointRefusal, GatherError, StreamError};
pub use gates::{Gate, Open, Point};
pub use gathering::gather;
pub use keepers::{Beginning, Keeper, NoKeeper};
pub use runs::{NotRun, Report, Script, TURNS, run_all, run_kept};
pub use sessions::run_session;
pub use shared::{Locked, Origin, Shared, Tally};
pub use shares::{Given, Response, Share};
pub use streamed_runs::{StreamReport, run_streamed};
