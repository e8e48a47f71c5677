//! The engine's core: it runs the calls of sessions under strict two-phase locking, and keeps the log
//! of those that were answered.
//!
//! A checkpoint gives its image at the end, or is streamed: then its scan sends the entries one by one to
//! a ring (`Core::start_streamed`, `Core::capture_to`), and it gives their header (`Core::take_header`).
//!
//! What a reader must believe stands at the top of `specs/`: what contracts see of a core (`CoreViews`)
//! and of a key's record (`Versions`, `Statuses`), when calls are refused (`Refusals`), what a renewal
//! leaves (`Renewals`), what events do and how they are answered (`Schedules`, `Drives`), and what is
//! promised of every schedule (`Promises`). The machine of which each state of a core is one is in
//! `specs/machine/`, and how its fields stand for that in `specs/inside/`.
#![tactic(auto)]

pub mod arguments;
mod begin;
mod calls;
pub mod captures;
mod checkpointing;
mod checkpoints;
mod completing;
pub mod cores;
pub mod drives;
mod edits;
pub mod errors;
pub mod finish;
mod give_up;
mod given;
mod instructions;
pub mod laws;
mod locking;
mod notes;
mod open;
mod reclaiming;
pub mod renewals;
pub mod schedules;
pub mod step;
pub mod streaming;
pub mod versions;

pub use arguments::Arguments;
pub use captures::Captured;
pub use checkpoints::Way;
pub use cores::Core;
pub use drives::{Run, drive};
pub use errors::{
    AbandonError, AdvanceError, BeginError, CaptureError, CaptureToError, FinishError, NotActive,
    OpenError, RenewError, StartError, StepError,
};
pub use finish::Answer;
pub use renewals::Renewed;
pub use schedules::{Event, Handled, Reply};
pub use step::Stepped;
pub use versions::Versions;
