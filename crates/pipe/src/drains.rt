//! The end of a ring that takes.

ghost use Rattle.std.specs.Prelude.{◌≡◌, ◌≤◌, vec_capacity};
ghost use Rattle.rtrb.specs.Ring as ring;
ghost use Rattle.image.specs.declared.limits.TheConstants.{ENTRIES};

use crate::limits::AtMostAnImage;
use crate::taps::End;
use image::Entry;
use rtrb::Consumer;
use std::alloc::Allocator;

/// Takes entries and keeps them. It may move to a thread of its own.
pub struct Drain<A: Allocator> {
    consumer: Consumer<Entry<A>, A, AtMostAnImage>,
    kept: Vec<Entry<A>, A>,
    ghost all_kept: { kept.items ≡ ring.received consumer },
    ghost room: { ENTRIES ≤ vec_capacity kept },
}

impl<A: Allocator> Drain<A> {
    ghost use Rattle.std.specs.Prelude.{◌≡◌, ◌≤◌, [], ◌∷◌, ◌++◌, ⊤, MatchOption, MatchBool, vec_capacity};
    ghost use Rattle.std.specs.Borrow.{sem, follows_so};
    ghost use mathlib.Core.Option.{none};
    ghost use mathlib.Core.List.{IsPrefix};
    ghost use Rattle.rtrb.specs.Ring as ring;
    ghost use Rattle.image.specs.declared.limits.TheConstants.{ENTRIES};
    ghost use Rattle.pipe.specs.contracts.drains.Drain.{the_row};
    ghost use Rattle.pipe.specs.Rings.{taken, all_sent, SameDrain, IsEndOf, Takes, TakesNothing};

    pub(crate) fn new(
        consumer: Consumer<Entry<A>, A, AtMostAnImage>,
        kept: Vec<Entry<A>, A>,
    ) -> Self
        requires none { (ring.received consumer ≡ []) × (kept.items ≡ []) }
        requires room { ENTRIES ≤ vec_capacity kept }
        ensures { result.consumer ≡ consumer }
    {
        Drain { consumer, kept }
    }

    /// Takes an entry, where one is found, and keeps it last.
    pub(crate) fn draw(&mut self) -> bool
        ensures ring { SameDrain self.old self.new }
        ensures taken { MatchBool result ((entry : _) × Takes self.old entry self.new) (TakesNothing self.old self.new) }
    {
        match self.consumer.pop() {
            Ok(entry) => {
                self.kept.push_reserved(entry);
                true
            }
            Err(_) => false,
        }
    }

    /// Takes an entry, where one is found, and lends it. It waits for nobody and takes no memory.
    pub fn take(&mut self) -> Option<&Entry<A>>
        ensures* { sem 𝓛 (follows_so (the_row A.row A.Allocator) (the_row A.row A.Allocator) self.entry.ghost_name none (λ _ _. ⊤) (λ new. SameDrain self.old new × MatchOption result (TakesNothing self.old new) (λ entry. Takes self.old entry.now new))) }
    {
        if self.draw() { self.kept.last() } else { None }
    }

    /// All entries that were sent, in order: those that were taken, and those that were left in the
    /// ring. The end is that of this drain's ring. It takes no memory.
    pub fn all_after(self, end: End<A>) -> Vec<Entry<A>, A>
        requires ring { IsEndOf end self }
        ensures all { result.items ≡ all_sent end }
        ensures front { IsPrefix (taken self) result.items }
    {
        let Drain {
            mut consumer,
            mut kept,
        } = self;
        let mut end = end;
        consumer.slots_after(&mut end.finished);
        while consumer.cached_slots() > 0 {
            kept.push_reserved(consumer.pop_known());
        }
        kept
    }
}

impl<A: Allocator> Drop for Drain<A> {
    fn drop(self) {
        let Drain {
            consumer: _consumer,
            kept: _kept,
        } = self;
    }
}
