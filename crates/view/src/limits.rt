//! The limits of views.

/// The most lookers that a view may have at once.
pub const LOOKERS: usize = 64;

/// The most images that a view takes in its life: more than a publisher can append in a thousand years.
pub const IMAGES: u64 = 1 << 60;
