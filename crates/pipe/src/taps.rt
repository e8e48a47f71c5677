//! The end of a ring that sends.

ghost use Rattle.std.specs.Prelude.{◌≡◌, ◌≤◌, length, Some, codes};
ghost use Rattle.rtrb.specs.Ring as ring;
ghost use Rattle.image.specs.declared.limits.TheConstants.{ENTRIES};

use crate::limits::AtMostAnImage;
use image::Entry;
use image::limits::ENTRIES;
use rtrb::{Finished, Producer, PushError};
use std::alloc::Allocator;
use std::error::Error;
use std::fmt;

/// The ring has no room at the moment, or the tap has sent as many entries as an image may have. It
/// holds the entry that wasn't sent.
#[derive(Debug, Drop)]
pub struct Full<A: Allocator>(pub Entry<A>);

impl<A: Allocator> fmt::Display for Full<A> {
    ghost output = { λ _. Some (codes "ring full") };

    fn fmt<W: fmt::Write>(&self, f: &mut fmt::Formatter<W>) -> fmt::Result {
        f.write_str("ring full")
    }
}

/// Sends entries. It may move to a thread of its own.
pub struct Tap<A: Allocator> {
    producer: Producer<Entry<A>, A, AtMostAnImage>,
    count: usize,
    ghost counted: { count ≡ length (ring.sent producer) },
    ghost few: { count ≤ ENTRIES },
}

/// What is left of a tap that has ended. It owns no memory, and may move to the drain's thread.
pub struct End<A: Allocator> {
    pub(crate) finished: Finished<Entry<A>, A, AtMostAnImage>,
}

impl<A: Allocator> Tap<A> {
    ghost use Rattle.std.specs.Prelude.{◌≡◌, ◌+◌, ◌<◌, ◌≤◌, [], ◌∷◌, ◌++◌, length, OnOk, IfErr, IsOk, IsErr, IfSome};
    ghost use Rattle.rtrb.specs.Ring as ring;
    ghost use Rattle.image.specs.declared.limits.TheConstants.{ENTRIES};
    ghost use Rattle.pipe.specs.Rings.{sent, room, all_sent, SameTap, IsEndOfTap};

    pub(crate) fn new(producer: Producer<Entry<A>, A, AtMostAnImage>) -> Self
        requires { ring.sent producer ≡ [] }
        ensures { result.producer ≡ producer }
    {
        Tap { producer, count: 0 }
    }

    /// Sends an entry. It waits for nobody and takes no memory: where the ring is full, or 100,000
    /// entries were sent before, it gives the entry back.
    pub fn send(&mut self, entry: Entry<A>) -> Result<(), Full<A>>
        ensures ring { SameTap self.old self.new }
        ensures sent { OnOk result ((sent self.new ≡ sent self.old ++ entry ∷ []) × (room self.old ≤ room self.new + 1)) }
        ensures full { IfErr result (λ full. (full.0 ≡ entry) × (sent self.new ≡ sent self.old)) }
        ensures most { ENTRIES ≤ length (sent self.old) → IsErr result }
        ensures room { 0 < room self.old → length (sent self.old) < ENTRIES → IsOk result }
    {
        if self.count >= ENTRIES {
            return Err(Full(entry));
        }
        match self.producer.push(entry) {
            Ok(()) => {
                self.count += 1;
                Ok(())
            }
            Err(PushError::Full(entry)) => Err(Full(entry)),
        }
    }

    /// Ends the sending. None where the drain is gone.
    pub fn end(self) -> Option<End<A>>
        ensures ring { IfSome result (λ end. IsEndOfTap end self) }
        ensures sent { IfSome result (λ end. all_sent end ≡ sent self) }
    {
        let Tap { producer, count: _ } = self;
        let finished = producer.finish()?;
        Some(End { finished })
    }
}

impl<A: Allocator> Drop for Tap<A> {
    fn drop(self) {
        let Tap {
            producer: _producer,
            count: _,
        } = self;
    }
}

impl<A: Allocator> Drop for End<A> {
    fn drop(self) {
        let End {
            finished: _finished,
        } = self;
    }
}
