//! A checkpoint's steps to its cut copy no table: they succeed where there is less memory than a copy of the
//! table takes.

use image::{Entry, Image, Kind};
use linked_list_allocator::LocalHeap;
use phase::Phase;
use procedure::{Catalog, Key, Sequence, Value};
use std::test::Fail;
use steps::Core;

const HEAP: usize = 1_048_576;

const KEYS: u32 = 1_000;

/// The bytes that are left once the core is open. A copy of the table takes more than 32 for each key.
const ROOM: usize = 16_384;

fn opening(heap: &LocalHeap) -> Result<Image<&LocalHeap>, Fail> {
    let mut entries = Vec::with_capacity(heap, KEYS as usize)?;
    for key in 0..KEYS {
        let key = Key::new(&key.to_be_bytes()).ok_or("no key")?;
        let cell = Some(Value::of_number(7));
        entries.push(Entry { key, cell })?;
    }
    Ok(Image::new(Kind::Full, 0, 0, 0, entries).ok_or("not lawful")?)
}

fn opened(heap: &LocalHeap) -> Result<Core<&LocalHeap>, Fail> {
    let catalog = Catalog::new(Sequence::empty(heap))?;
    Ok(Core::open(heap, catalog, opening(heap)?)?)
}

/// The phases of a full checkpoint up to its cut, and of a streamed one up to its scan.
fn phases(core: &mut Core<&LocalHeap>) -> Result<[Phase; 3], Fail> {
    core.start(Kind::Full)?;
    let cut = core.advance()?;
    core.abandon()?;
    core.start_streamed(Kind::Full)?;
    Ok([cut, core.advance()?, core.advance()?])
}

/// The same where all other memory is taken.
fn phases_in_little_room(heap: &LocalHeap) -> Result<[Phase; 3], Fail> {
    let mut core = opened(heap)?;
    let rest = HEAP.saturating_sub(heap.used()).saturating_sub(ROOM);
    let taken: Result<Vec<u8, &LocalHeap>, _> = Vec::with_capacity(heap, rest);
    let phases = match taken {
        Ok(_) => phases(&mut core),
        Err(_) => Err(Fail::from("no heap")),
    };
    drop(core);
    phases
}

#[test]
fn cuts_without_a_copy(rt: HostRuntime) -> Result<(), Fail> {
    let heap = LocalHeap::new(rt.alloc(), HEAP)?;
    let phases = phases_in_little_room(&heap)?;
    assert_eq!(rt; phases, [Phase::Resolve, Phase::Resolve, Phase::Capture]);
    Ok(())
}
