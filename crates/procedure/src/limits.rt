//! The limits of the engine's parts.

/// Sessions, numbered from 0. Each has at most one open call.
pub const SESSIONS: u16 = 64;

/// Procedures of a catalog.
pub const PROCEDURES: usize = 64;

/// Instructions of a procedure.
pub const INSTRUCTIONS: usize = 64;

/// Arguments of a procedure.
pub const ARGUMENTS: u8 = 8;

/// Registers of a call, numbered from 0.
pub const REGISTERS: usize = 8;

/// Bytes of a key, which has at least one.
pub const KEY_BYTES: usize = 32;

/// Bytes of a value, and so of an argument.
pub const VALUE_BYTES: usize = 65_535;

/// Bytes of a literal in a catalog's procedure.
pub const LITERAL_BYTES: usize = 256;
