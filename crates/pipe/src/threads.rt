//! A ring whose tap sends from a thread of its own.

ghost use Rattle.std.specs.Prelude.{◌≡◌, ◌+◌, ◌<◌, ◌≤◌, [], ◌∷◌, ◌++◌, length, take, vec_len, IsTrue, MatchBool};
ghost use mathlib.Core.List.{IsPrefix};
ghost use Rattle.pipe.specs.Rings.{sent, taken, room, SameTap, SameDrain};
ghost use Rattle.image.specs.declared.limits.TheConstants.{ENTRIES};

use crate::drains::Drain;
use crate::taps::{Full, Tap};
use image::Entry;
use std::alloc::Allocator;
use std::thread;
use std::thread::Threads;

/// Both ends of a ring, back in one thread, and how many entries were sent.
#[derive(Drop)]
pub struct Joined<A: Allocator> {
    pub tap: Tap<A>,
    pub drain: Drain<A>,
    pub sent: usize,
}

// Sends an entry that was given back, if the ring has room soon enough.
fn send_again<A: Allocator>(tap: &mut Tap<A>, entry: Entry<A>, turns: &mut u64) -> bool
    ensures ring { SameTap tap.old tap.new }
    ensures sent { MatchBool result (sent tap.new ≡ sent tap.old ++ entry ∷ []) (sent tap.new ≡ sent tap.old) }
{
    let mut entry = entry;
    while *turns > 0 {
        *turns -= 1;
        thread::yield_now();
        match tap.send(entry) {
            Ok(()) => return true,
            Err(Full(back)) => entry = back,
        }
    }
    false
}

fn send_within<A: Allocator>(tap: &mut Tap<A>, entry: Entry<A>, turns: &mut u64) -> bool
    ensures ring { SameTap tap.old tap.new }
    ensures sent { MatchBool result (sent tap.new ≡ sent tap.old ++ entry ∷ []) (sent tap.new ≡ sent tap.old) }
    ensures room { 0 < room tap.old → length (sent tap.old) < ENTRIES → IsTrue result × (room tap.old ≤ room tap.new + 1) }
{
    match tap.send(entry) {
        Ok(()) => true,
        Err(Full(entry)) => send_again(tap, entry, turns),
    }
}

fn send_all<A: Allocator>(tap: Tap<A>, entries: Vec<Entry<A>, A>, turns: u64) -> (Tap<A>, usize)
    ensures ring { SameTap tap result.0 }
    ensures few { result.1 ≤ vec_len entries }
    ensures sent { sent result.0 ≡ sent tap ++ take result.1 entries.items }
    ensures all { vec_len entries ≤ room tap → length (sent tap) + vec_len entries ≤ ENTRIES → result.1 ≡ vec_len entries }
{
    let mut tap = tap;
    let mut turns = turns;
    let mut count = 0;
    for entry in entries {
        if !send_within(&mut tap, entry, &mut turns) {
            return (tap, count);
        }
        count += 1;
    }
    (tap, count)
}

// Takes so many entries, if they come soon enough.
fn take_within<A: Allocator>(drain: Drain<A>, count: usize, turns: u64) -> Drain<A>
    ensures ring { SameDrain drain result }
    ensures taken { IsPrefix (taken drain) (taken result) }
{
    let mut drain = drain;
    let mut count = count;
    let mut turns = turns;
    while count > 0 && turns > 0 {
        if drain.draw() {
            count -= 1;
        } else {
            turns -= 1;
            thread::yield_now();
        }
    }
    drain
}

/// Sends the entries in order from a thread of its own, while another takes as many, and hands both ends
/// back. Where the ring is full, or empty, each end tries again, `turns` times in all. Entries that
/// weren't sent then are dropped; where the tap knows of room for all of them, all are sent.
pub fn send_beside<A: Allocator + Send, R: Threads>(
    rt: &R,
    tap: Tap<A>,
    drain: Drain<A>,
    entries: Vec<Entry<A>, A>,
    turns: u64,
) -> Joined<A>
    ensures tap { SameTap tap result.tap }
    ensures drain { SameDrain drain result.drain }
    ensures few { result.sent ≤ vec_len entries }
    ensures sent { sent result.tap ≡ sent tap ++ take result.sent entries.items }
    ensures all { vec_len entries ≤ room tap → length (sent tap) + vec_len entries ≤ ENTRIES → result.sent ≡ vec_len entries }
    ensures taken { IsPrefix (taken drain) (taken result.drain) }
{
    let count = entries.len();
    let ((tap, sent), drain) = thread::join(
        rt,
        move || -> (Tap<A>, usize)
            ensures { SameTap tap result.0 × (result.1 ≤ vec_len entries) × (sent result.0 ≡ sent tap ++ take result.1 entries.items) × (vec_len entries ≤ room tap → length (sent tap) + vec_len entries ≤ ENTRIES → result.1 ≡ vec_len entries) }
        { send_all(tap, entries, turns) },
        move || -> Drain<A>
            ensures { SameDrain drain result × IsPrefix (taken drain) (taken result) }
        { take_within(drain, count, turns) },
    );
    Joined { tap, drain, sent }
}
