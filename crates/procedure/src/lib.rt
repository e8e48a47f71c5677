//! Stored procedures: keys and values, the catalog, the machine that executes one instruction at a
//! time, and the run of a whole procedure on a table.
//!
//! The definitions on which every other crate stands are in `specs/`: what an instruction asks for
//! and does (`Procedures`), the run of a procedure alone on a table (`Runs`, `Copies`).
#![tactic(auto)]

mod actions;
#[cfg(test)]
mod byte_tests;
pub mod bytes;
pub mod catalogs;
mod digests;
pub mod instructions;
pub mod keys;
pub mod laws;
pub mod limits;
pub mod machines;
pub mod memory;
pub mod needs;
pub mod outcomes;
#[cfg(test)]
mod refusal_tests;
pub mod registers;
pub mod runs;
pub mod sequences;
pub mod streams;
pub mod tables;
#[cfg(test)]
mod tests;
pub mod values;
#[cfg(test)]
mod worked_runs;

pub use catalogs::{Catalog, CatalogError};
pub use instructions::{Call, Code, Instr, Operand, Procedure, Test};
pub use keys::Key;
pub use machines::Machine;
pub use memory::NoMemory;
pub use needs::{Access, Need, Update};
pub use registers::Registers;
pub use runs::{Alone, Finished, run_alone, run_whole};
pub use sequences::Sequence;
pub use tables::{Changes, KeyMap, Table};
pub use values::{Value, are_same_replies};
