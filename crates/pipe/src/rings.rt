//! Both ends of a ring.

ghost use Rattle.std.specs.Prelude.{◌≡◌, ◌<◌, ◌≤◌, [], IfOk, Some, codes};
ghost use Rattle.pipe.specs.Rings.{sent, taken, room, IsPair};
ghost use Rattle.pipe.specs.declared.limits.TheConstants.{CAPACITY};

use crate::drains::Drain;
use crate::limits::AtMostAnImage;
use crate::taps::Tap;
use image::limits::ENTRIES;
use rtrb::RingBuffer;
use std::alloc::{AllocError, AllocFailed, Allocator};
use std::error::Error;
use std::fmt;

/// No memory was found for a ring.
#[derive(Clone, Copy, Debug, PartialEq, Eq)]
pub struct NoRing;

impl fmt::Display for NoRing {
    ghost output = { λ _. Some (codes "no ring") };

    fn fmt<W: fmt::Write>(&self, f: &mut fmt::Formatter<W>) -> fmt::Result {
        f.write_str("no ring")
    }
}

impl Error for NoRing {}

impl From<AllocError> for NoRing {
    fn from(_refused: AllocError) -> Self {
        NoRing
    }
}

/// A ring with room for `capacity` entries, at least 1 and at most 4,096, and a drain with room for all
/// entries that may ever be sent, 100,000. Nothing takes memory after this.
pub fn ring<A: Allocator + Copy>(alloc: A, capacity: usize) -> Result<(Tap<A>, Drain<A>), NoRing>
    requires capacity { (0 < capacity) × (capacity ≤ CAPACITY) }
    ensures pair { IfOk result (λ ends. IsPair ends.0 ends.1) }
    ensures sent { IfOk result (λ ends. sent ends.0 ≡ []) }
    ensures taken { IfOk result (λ ends. taken ends.1 ≡ []) }
    ensures room { IfOk result (λ ends. room ends.0 ≡ capacity) }
{
    let kept = Vec::with_capacity(alloc, ENTRIES)?;
    let (producer, consumer) = RingBuffer::with_protocol::<A, AtMostAnImage>(alloc, capacity)?;
    Ok((Tap::new(producer), Drain::new(consumer, kept)))
}
