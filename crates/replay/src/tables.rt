//! The table of an image.

ghost use Rattle.std.specs.Prelude.{◌≡◌, ◌≤◌, ◌∷◌, IfOk};
ghost use Rattle.std.specs.FinMap as finite;
ghost use Rattle.procedure.specs.Table.{with_pairs};
ghost use Rattle.image.specs.Merges.{table_of};
ghost use Rattle.image.specs.declared.limits.TheConstants.{ENTRIES};
ghost use Rattle.replay.specs.Parts.{pairs_of};

use image::{Entry, Image};
use procedure::{Key, NoMemory, Sequence, Table, Value};
use std::alloc::Allocator;

/// The keys that aren't gone, with their values.
fn pairs_of<A: Allocator + Clone>(
    alloc: A,
    entries: Vec<Entry<A>, A>,
) -> Result<Vec<(Key, Value<A>), A>, NoMemory>
    ensures { IfOk result (λ pairs. pairs.items ≡ pairs_of entries.items) }
{
    let mut pairs = Vec::with_capacity(alloc, entries.len())?;
    for entry in entries {
        let Entry { key, cell } = entry;
        if let Some(value) = cell {
            pairs.push((key, value))?;
        }
    }
    Ok(pairs)
}

fn table_with<A: Allocator + Copy>(
    alloc: A,
    entries: Vec<Entry<A>, A>,
) -> Result<Table<A>, NoMemory>
    ensures { IfOk result (λ t. t ≡ with_pairs finite.empty (pairs_of entries.items)) }
{
    let pairs = pairs_of(alloc.clone()?, entries)?;
    Table::from_pairs(alloc, Sequence::new(pairs))
}

/// What the image holds, by move.
pub(crate) fn into_table<A: Allocator + Copy>(
    alloc: A,
    image: Image<A>,
) -> Result<Table<A>, NoMemory>
    ensures table { IfOk result (λ t. t ≡ table_of image) }
    ensures few { IfOk result (λ t. finite.len t ≤ ENTRIES) }
{
    // Brings in that the image is lawful.
    let _entries = image.entries();
    table_with(alloc, image.into_entries())
}

/// What the image holds, copied.
pub(crate) fn copy_of_table<A: Allocator + Copy>(
    alloc: A,
    image: &Image<A>,
) -> Result<Table<A>, NoMemory>
    ensures { IfOk result (λ t. t ≡ table_of image.now) }
{
    let copy = image.entries().to_vec(alloc.clone()?)?;
    table_with(alloc, copy)
}
