//! The limits of images.

/// Entries of an image.
pub const ENTRIES: usize = 100_000;

/// Images of a chain.
pub const IMAGES: usize = 64;

/// Entries of a block of version 2, of which the last may have fewer.
pub const BLOCK: usize = 64;

/// Bytes of a value in version 1.
pub const VALUE_BYTES_V1: usize = 256;

/// Bytes of an image without entries.
pub const SHORTEST: usize = 69;
