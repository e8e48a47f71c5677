//! The limits of rings.

ghost use Rattle.std.specs.Prelude.{◌<◌, length};
ghost use Rattle.image.specs.declared.limits.TheConstants.{ENTRIES};

use image::Entry;
use rtrb::Protocol;
use std::alloc::Allocator;

/// The most entries that a ring may hold at a time. A tap sends at most `image::limits::ENTRIES` in
/// all, since no image has more.
pub const CAPACITY: usize = 4_096;

/// What a tap promises its drain: it never sends more entries than an image may have. So the drain can
/// have room for all of them from the first.
#[derive(Clone, Copy)]
pub(crate) struct AtMostAnImage;

impl<A: Allocator> Protocol<Entry<A>> for AtMostAnImage {
    ghost allows = { λ before _. length before < ENTRIES };
}
