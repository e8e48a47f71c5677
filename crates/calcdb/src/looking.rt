//! Keys that are looked up in the view of a run, beside it and after it.

ghost use mathlib.Core.List.{IsPrefix};
ghost use Rattle.calcdb.specs.ThreadRuns.{IsFound};

use procedure::{Key, Value};
use std::alloc::Allocator;
use std::sync::Wait;
use std::sync::atomic::{AtomicBool, Ordering};
use view::{Answer, LookError, Looker, Naming, NoAnswer, Seen, Told};

/// How often a key is looked up where the table isn't open to the looker.
const TRIES: u32 = 1_000;

/// A looker, and the images that it has seen.
#[derive(Drop)]
pub(crate) struct Reader<J: Naming, A: Allocator> {
    pub looker: Looker<J, A>,
    pub seen: Seen<J, A>,
}

/// What was found of a key. Its value is a `Value<A>` in the program, and a byte string in the definitions
/// of `specs/`.
#[derive(Drop)]
pub(crate) enum Found<V> {
    /// The number of the last image that was seen, and what the key holds.
    Held(u64, Option<V>),
    /// The table was not open to the looker.
    NotEntered,
    NoMemory,
}

/// What the reader has seen, and what it was told.
pub(crate) fn learn<J: Naming, A: Allocator>(reader: Reader<J, A>, told: Told<J, A>) -> Reader<J, A>
    ensures { IsPrefix told result.seen }
{
    let Reader { looker, seen } = reader;
    let seen = looker.learn(seen, told);
    Reader { looker, seen }
}

/// Looks a key up, 1,000 times at most.
pub(crate) fn look<J: Naming, A: Allocator + Clone>(
    reader: Reader<J, A>,
    key: &Key,
) -> (Reader<J, A>, Found<Value<A>>)
    ensures later { IsPrefix reader.seen result.0.seen }
    ensures found { IsFound result.0.seen key.now result.1 }
{
    let Reader {
        mut looker,
        mut seen,
    } = reader;
    for _ in 0..TRIES {
        match looker.get(seen, key) {
            Ok(answer) => {
                let Answer {
                    number,
                    value,
                    seen,
                } = answer;
                return (Reader { looker, seen }, Found::Held(number, value));
            }
            Err(
                NoAnswer {
                    error: LookError::NoMemory,
                    seen,
                },
            ) => return (Reader { looker, seen }, Found::NoMemory),
            Err(
                NoAnswer {
                    error: LookError::NotEntered,
                    seen: kept,
                },
            ) => seen = kept,
        }
    }
    (Reader { looker, seen }, Found::NotEntered)
}

/// Looks the keys up, one after another.
fn look_once<J: Naming, A: Allocator + Clone>(reader: Reader<J, A>, keys: &[Key]) -> Reader<J, A> {
    let mut reader = reader;
    for key in keys {
        let (next, _found) = look(reader, key);
        reader = next;
    }
    reader
}

/// Looks the keys up again and again, until it is said that the run has ended.
pub(crate) fn look_beside<J: Naming, A: Allocator + Clone, T: Wait>(
    threads: &T,
    reader: Reader<J, A>,
    keys: &[Key],
    ended: &AtomicBool,
) -> Reader<J, A> {
    let mut reader = reader;
    if keys.is_empty() {
        return reader;
    }
    for _ in threads.forever() {
        if ended.load(Ordering::Relaxed) {
            break;
        }
        reader = look_once(reader, keys);
    }
    reader
}
