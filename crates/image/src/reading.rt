//! Images from their bytes.

ghost use Rattle.std.specs.Prelude.{◌≡◌, ◌⊎◌, Err, IfOk};
ghost use Rattle.std.specs.declared.result.Result.{Result};
ghost use Rattle.image.specs.Images.{Image as SpecImage};
ghost use Rattle.image.specs.Refusals.{IsAnswer, Refuses};
ghost use Rattle.image.specs.declared.errors.ReadError.{ReadError};
ghost use Rattle.image.specs.declared.errors.ReadError.TheVariants as refused;

use crate::checking::check_image;
use crate::entries::Entry;
use crate::errors::ReadError;
use crate::images::Image;
use crate::stored_entries::StoredEntries;
use procedure::NoMemory;
use std::alloc::Allocator;

/// The entries, made one after another.
fn all_of<A: Allocator + Clone>(
    alloc: A,
    entries: StoredEntries<'_>,
) -> Result<Vec<Entry<A>, A>, NoMemory>
    ensures { IfOk result (λ made. made.items ≡ entries.entry) }
{
    let mut entries = entries;
    let mut made = Vec::with_capacity(alloc.clone()?, entries.len())?;
    while let Some(entry) = entries.next(alloc.clone()?)? {
        made.push(entry)?;
    }
    Ok(made)
}

/// The image of bytes in either version. They begin with `CALCIMG1` or `CALCIMG2` and have at least 69
/// bytes; else they are `NotAnImage`. In version 1 the digest at the end is looked at first, in version
/// 2 that of the header and then block by block; `BadForm` is all else that isn't a lawful image. The
/// bytes are checked first, and then the entries are made, which takes memory in proportion to the bytes.
pub fn read_image<A: Allocator + Clone>(alloc: A, bytes: &[u8]) -> Result<Image<A>, ReadError>
    ensures answer { (result ≡ Err refused.NoMemory) ⊎ IsAnswer bytes.now result }
    ensures exact { (answer : Result SpecImage ReadError) → IsAnswer bytes.now answer → (result ≡ answer) ⊎ (result ≡ Err refused.NoMemory) }
    // What is wrong with the bytes is answered whatever memory there is.
    ensures refusal { (e : ReadError) → Refuses e bytes.now → result ≡ Err e }
{
    let checked = check_image(bytes)?;
    let entries = all_of(alloc, checked.entries())?;
    match Image::new(
        checked.kind(),
        checked.number(),
        checked.base(),
        checked.place(),
        entries,
    ) {
        Some(image) => Ok(image),
        None => unreachable!(),
    }
}
