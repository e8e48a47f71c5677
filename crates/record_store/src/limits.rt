//! The limits of a store.

/// Records of a store, dead ones counted.
pub const STORE_RECORDS: usize = 100_000;
