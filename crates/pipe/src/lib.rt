//! A ring between two threads: one sends the entries that it captures, the other takes and keeps them.
//!
//! `ring` makes both ends, a `Tap` and a `Drain`. Neither waits for the other: a `send` that finds no
//! room gives its entry back, and a `take` that finds no entry gives none. Once the tap has ended, the
//! drain gives all entries that were sent, in order.
//!
//! Contracts see a tap as the entries that it has sent, and a drain as those that it has taken
//! (`specs/Rings.antt`).
#![tactic(auto)]

pub mod drains;
pub mod limits;
pub mod rings;
pub mod taps;
#[cfg(test)]
mod tests;
pub mod threads;

pub use drains::Drain;
pub use rings::{NoRing, ring};
pub use taps::{End, Full, Tap};
pub use threads::{Joined, send_beside};
