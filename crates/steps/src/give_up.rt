//! How a call is given up.

ghost use Rattle.std.specs.Prelude.{◌≡◌, ◌↔◌, IsOk, IsSome, OnErr, OnOk};
ghost use Rattle.steps.specs.CoreViews.{GivesUp, open_at};

use crate::calls::taken;
use crate::cores::Core;
use crate::edits::undo_all;
use crate::errors::NotActive;
use crate::notes::{Room, keep_room};
use std::alloc::Allocator;

impl<A: Allocator> Core<A> {
    /// A session's call ends without an answer: what it wrote is undone, and its locks go. Records that
    /// it made stay, without a live version.
    pub fn give_up(&mut self, session: u16) -> Result<(), NotActive>
        ensures given_up { OnOk result (GivesUp self.old self.new session) }
        ensures refused { OnErr result (self.new ≡ self.old) }
        ensures active { IsOk result ↔ IsSome (open_at self.old session) }
    {
        let index = usize::from(session);
        match taken(&mut self.calls, index) {
            Some(mut call) => {
                undo_all(&mut self.store, &mut call.notes);
                let (_, _, registers) = call.machine.into_parts();
                let room = Room {
                    notes: call.notes,
                    registers,
                };
                keep_room(&mut self.rooms, room);
                self.locks.release_all(index);
                self.aside = self.aside.after_release();
                self.active.clear(index);
                Ok(())
            }
            None => Err(NotActive),
        }
    }
}
