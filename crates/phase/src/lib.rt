//! The phases of a checkpoint, and the start phases of the open calls.
#![tactic(auto)]

mod counts;
pub mod open_calls;
pub mod phases;
#[cfg(test)]
mod tests;

pub use open_calls::{Active, SESSIONS, StillActive};
pub use phases::Phase;
