//! Records with two versions, kept in slots and found by their keys, and the sets of changed keys,
//! from which checkpoints are taken.
#![tactic(auto)]

pub mod changed_sets;
mod dead_keys;
mod entries;
mod kept;
pub mod laws;
pub mod limits;
pub mod records;
pub mod stores;
#[cfg(test)]
mod tests;

pub use changed_sets::Changed;
pub use records::{Record, Stable};
pub use stores::{CreateError, Store};
