//! The outcomes by which a call ends. The codes 16 to 255 are a procedure's own.

/// All instructions were done.
pub const COMMITTED: u8 = 0;

/// An insert found its key.
pub const KEY_PRESENT: u8 = 1;

/// A delete found no key.
pub const KEY_ABSENT: u8 = 2;

/// An operand of a sum or a difference isn't a value of 8 bytes.
pub const NOT_A_NUMBER: u8 = 3;

/// A sum or a difference isn't a number of 64 bits.
pub const OUT_OF_RANGE: u8 = 4;

/// A key operand is absent, empty or longer than a key.
pub const BAD_KEY: u8 = 5;

/// The value operand of a put or an insert is absent.
pub const NO_VALUE: u8 = 6;

/// The least code that a procedure may abort with.
pub const FIRST_ABORT: u8 = 16;
