//! An open call, as a core keeps it.

ghost use Rattle.std.specs.Prelude.{◌≡◌, IsNone, None, OnSome, option_copied, slice_index_or, slice_set, vec_capacity};

use crate::notes::Note;
use phase::Phase;
use procedure::Machine;
use std::alloc::Allocator;

/// A session's call between its begin and its end. Its writes stand in the store already; the notes
/// tell what they replaced, oldest first.
#[derive(Drop)]
pub(crate) struct OpenCall<A: Allocator> {
    pub(crate) number: u64,
    pub(crate) procedure: u16,
    pub(crate) start: Phase,
    pub(crate) executed: usize,
    pub(crate) machine: Machine<A>,
    pub(crate) notes: Vec<Note<A>, A>,
}

/// The open call of a session.
pub(crate) fn call_of<A: Allocator>(
    calls: &[Option<OpenCall<A>>],
    session: usize,
) -> Option<&OpenCall<A>>
    ensures { option_copied result ≡ slice_index_or calls.now session None }
{
    match calls.get(session) {
        Some(held) => held.as_ref(),
        None => None,
    }
}

/// What is kept of a session, by move.
pub(crate) fn taken<T: Drop, A: Allocator>(
    kept: &mut Vec<Option<T>, A>,
    session: usize,
) -> Option<T>
    ensures value { result ≡ slice_index_or kept.old.items session None }
    ensures some { OnSome result (kept.new.items ≡ slice_set kept.old.items session None) }
    ensures none { IsNone result → kept.new ≡ kept.old }
    ensures capacity { vec_capacity kept.new ≡ vec_capacity kept.old }
{
    if session < kept.len() && kept[session].is_some() {
        kept[session].take()
    } else {
        None
    }
}
