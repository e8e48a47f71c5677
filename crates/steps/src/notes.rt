//! What a write replaced, and the room that a call leaves.

ghost use Rattle.std.specs.Prelude.{◌≡◌, [], IfOk};

use procedure::{Key, NoMemory, Registers, Value};
use std::alloc::Allocator;

/// The live version that a key had before a write: a value, or None where it was absent.
#[derive(Debug, Drop)]
pub(crate) struct Note<A: Allocator> {
    pub(crate) key: Key,
    pub(crate) before: Option<Value<A>>,
}

/// What a call leaves to a later one: the room of its notes and of its machine's registers.
#[derive(Drop)]
pub(crate) struct Room<A: Allocator> {
    pub(crate) notes: Vec<Note<A>, A>,
    pub(crate) registers: Registers<A>,
}

/// The room that calls left, of which the next call takes the last.
// So calls that follow one another use the same memory, whatever their sessions.
pub(crate) type Rooms<A> = Vec<Room<A>, A>;

/// The room of a call that begins, without notes: what an earlier call left, or else new room.
pub(crate) fn room_for<A: Allocator + Clone>(
    alloc: &A,
    left: &mut Option<Room<A>>,
) -> Result<Room<A>, NoMemory>
    ensures { IfOk result (λ room. room.notes.items ≡ []) }
{
    if let Some(mut room) = left.take() {
        room.notes.clear();
        return Ok(room);
    }
    Ok(Room {
        notes: Vec::new(alloc.clone()?),
        registers: Registers::new(alloc.clone()?)?,
    })
}

/// Room is kept for a later call, without what stood in it, where there is a place for it.
#[inline(always)]
pub(crate) fn keep_room<A: Allocator>(rooms: &mut Rooms<A>, mut room: Room<A>) {
    room.notes.clear();
    room.registers.clear();
    if rooms.len() < rooms.capacity() {
        rooms.push_reserved(room);
    }
}

/// Room that the call that was to begin has not taken is kept for another.
#[inline(always)]
pub(crate) fn put_back<A: Allocator>(rooms: &mut Rooms<A>, left: Option<Room<A>>) {
    if let Some(room) = left {
        keep_room(rooms, room);
    }
}
