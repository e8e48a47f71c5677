//! Locks that refuse: a session asks for a key, shared or exclusive, and is granted it or answered
//! that another session's lock conflicts. Nothing waits. A key is locked whether or not it has a
//! record.
//!
//! Contracts see a table of locks as what each session holds (`specs/Locks.antt`).
#![tactic(auto)]

pub mod errors;
mod holders;
mod key_holders;
pub mod laws;
pub mod locks;
mod many_holders;
pub mod modes;
#[cfg(test)]
mod tests;

pub use errors::LockError;
pub use locks::LockTable;
pub use modes::Mode;
