//! Images as bytes.

ghost use Rattle.std.specs.Prelude.{◌≡◌, ◌↔◌, ◌++◌, ◌≤◌, ◌<◌, ◌+◌, Err, IfOk, IfSome, IsTrue, OnErr, OnOk, drop, length, take};
ghost use Rattle.std.specs.Vec.{vec_capacity, vec_len};
ghost use Rattle.std.specs.List.{All, AllByRecursion};
ghost use Rattle.byteorder.specs.Endian.{big_bytes};
ghost use Rattle.sha2.specs.Sha256.{sha256};
ghost use Rattle.procedure.specs.declared.limits.TheConstants.{VALUE_BYTES};
ghost use Rattle.image.specs.EntryBytes.{entry_bytes};
ghost use Rattle.image.specs.ImageBytes.{HasNumbers, HasSmallValues, IsVersion1, IsVersion2, IsWithin, block_bytes, block_count, block_digest, blocks_bytes, entries_bytes, image_header_bytes, signed, version_1};
ghost use Rattle.image.specs.declared.errors.SealError.TheVariants as refused;

use crate::entries::Entry;
use crate::errors::SealError;
use crate::images::{Image, Kind};
use crate::limits::{BLOCK, VALUE_BYTES_V1};
use procedure::NoMemory;
use procedure::bytes::{chained_digest, write_u16, write_u32, write_u64};
use sha2::{Digest, Sha256};
use std::alloc::Allocator;

/// With what the bytes of version 1 begin.
pub const MAGIC_V1: [u8; 8] = *b"CALCIMG1";

/// With what the bytes of version 2 begin.
pub const MAGIC_V2: [u8; 8] = *b"CALCIMG2";

#[tactic(auto, using(crate::proofs::Written::never_ok))]
fn write_entry<A: Allocator, B: Allocator>(
    out: &mut Vec<u8, B>,
    entry: &Entry<A>,
) -> Result<(), NoMemory>
    ensures bytes { OnOk result (out.new.items ≡ out.old.items ++ entry_bytes entry.now) }
    ensures fits { OnOk result (IsWithin VALUE_BYTES entry.now) }
    ensures capacity { vec_capacity out.old ≤ vec_capacity out.new }
    ensures full { OnErr result (vec_capacity out.old < vec_len out.old + length (entry_bytes entry.now)) }
{
    let key = entry.key.as_bytes();
    out.push(key.len() as u8)?;
    out.extend_from_slice(key)?;
    match &entry.cell {
        None => out.push(0)?,
        Some(value) => {
            let bytes = value.as_bytes();
            out.push(1)?;
            write_u16(out, bytes.len() as u16)?;
            out.extend_from_slice(bytes)?;
        }
    }
    Ok(())
}

fn write_entries<A: Allocator, B: Allocator>(
    out: &mut Vec<u8, B>,
    entries: &[Entry<A>],
) -> Result<(), NoMemory>
    ensures bytes { OnOk result (out.new.items ≡ out.old.items ++ entries_bytes entries.now) }
    ensures fits { OnOk result (AllByRecursion (IsWithin VALUE_BYTES) entries.now) }
    ensures capacity { vec_capacity out.old ≤ vec_capacity out.new }
    ensures full { OnErr result (vec_capacity out.old < vec_len out.old + length (entries_bytes entries.now)) }
{
    for entry in entries {
        write_entry(out, entry)?;
    }
    Ok(())
}

fn kind_byte(kind: Kind) -> u8
    ensures { result ≡ Rattle.image.specs.ImageBytes.kind_byte kind }
{
    match kind {
        Kind::Full => 0,
        Kind::Partial => 1,
    }
}

#[tactic(auto, using(crate::proofs::Written::never_ok))]
fn write_header<A: Allocator, B: Allocator>(
    out: &mut Vec<u8, B>,
    magic: &[u8; 8],
    image: &Image<A>,
) -> Result<(), NoMemory>
    ensures bytes { OnOk result (out.new.items ≡ out.old.items ++ image_header_bytes magic.now image.now) }
    ensures fits { OnOk result (HasNumbers image.now) }
    ensures capacity { vec_capacity out.old ≤ vec_capacity out.new }
{
    out.extend_from_slice(magic)?;
    out.push(kind_byte(image.kind()))?;
    write_u64(out, image.number())?;
    write_u64(out, image.base())?;
    write_u64(out, image.place())?;
    write_u32(out, image.entries().len() as u32)
}

/// The header of version 2 and its digest, which is handed back.
pub(crate) fn write_signed_header<A: Allocator, B: Allocator>(
    out: &mut Vec<u8, B>,
    image: &Image<A>,
) -> Result<[u8; 32], NoMemory>
    ensures bytes { OnOk result (out.new.items ≡ out.old.items ++ signed (image_header_bytes MAGIC_V2 image.now)) }
    ensures digest { IfOk result (λ d. d ≡ sha256 (image_header_bytes MAGIC_V2 image.now)) }
    ensures fits { OnOk result (HasNumbers image.now) }
    ensures capacity { vec_capacity out.old ≤ vec_capacity out.new }
{
    let start = out.len();
    write_header(out, &MAGIC_V2, image)?;
    let digest = Sha256::digest(&out[start..]);
    out.extend_from_slice(&digest)?;
    Ok(digest)
}

/// A block of entries and the digest after it, which is handed back.
pub(crate) fn write_block<A: Allocator, B: Allocator>(
    out: &mut Vec<u8, B>,
    before: &[u8; 32],
    entries: &[Entry<A>],
) -> Result<[u8; 32], NoMemory>
    ensures bytes { OnOk result (out.new.items ≡ out.old.items ++ block_bytes before.now entries.now) }
    ensures digest { IfOk result (λ d. d ≡ block_digest before.now entries.now) }
    ensures fits { OnOk result (AllByRecursion (IsWithin VALUE_BYTES) entries.now) }
    ensures capacity { vec_capacity out.old ≤ vec_capacity out.new }
    ensures full { OnErr result (vec_capacity out.old < vec_len out.old + length (entries_bytes entries.now) + 32) }
{
    let start = out.len();
    write_entries(out, entries)?;
    let digest = chained_digest(before, &out[start..]);
    out.extend_from_slice(&digest)?;
    Ok(digest)
}

/// The entries of the first block, and those after it.
#[tactic(auto, using(crate::proofs::Blocks::cut_take, crate::proofs::Blocks::cut_drop))]
pub(crate) fn first_block<A: Allocator>(entries: &[Entry<A>]) -> (&[Entry<A>], &[Entry<A>])
    ensures block { result.0.now ≡ take BLOCK entries.now }
    ensures after { result.1.now ≡ drop BLOCK entries.now }
    ensures few { length result.0.now ≤ BLOCK }
    ensures fewer { 0 < length entries.now → length result.1.now < length entries.now }
{
    entries.split_at(entries.len().min(BLOCK))
}

fn write_blocks<A: Allocator, B: Allocator>(
    out: &mut Vec<u8, B>,
    before: [u8; 32],
    entries: &[Entry<A>],
) -> Result<(), NoMemory>
    ensures bytes { OnOk result (out.new.items ≡ out.old.items ++ blocks_bytes (block_count (length entries.now)) before entries.now) }
    ensures fits { OnOk result (AllByRecursion (IsWithin VALUE_BYTES) entries.now) }
{
    let mut digest = before;
    let mut rest = entries;
    while !rest.is_empty() {
        let (block, after) = first_block(rest);
        digest = write_block(out, &digest, block)?;
        rest = after;
    }
    Ok(())
}

/// The image's bytes in version 2.
pub fn seal<A: Allocator>(alloc: A, image: &Image<A>) -> Result<Vec<u8, A>, NoMemory>
    ensures { IfOk result (λ bytes. IsVersion2 image.now bytes.items) }
{
    let mut out = Vec::new(alloc);
    let digest = write_signed_header(&mut out, image)?;
    write_blocks(&mut out, digest, image.entries())?;
    Ok(out)
}

fn is_small<A: Allocator>(entry: &Entry<A>) -> bool
    ensures { IsTrue result ↔ IfSome entry.now.1 (λ v. length v ≤ VALUE_BYTES_V1) }
{
    match &entry.cell {
        None => true,
        Some(value) => value.as_bytes().len() <= VALUE_BYTES_V1,
    }
}

fn are_small<A: Allocator>(entries: &[Entry<A>]) -> bool
    ensures { IsTrue result ↔ All (λ e. IfSome e.1 (λ v. length v ≤ VALUE_BYTES_V1)) entries.now }
{
    entries.iter().all(|entry| is_small(entry))
}

/// Header and entries of version 1, and their digest.
fn write_v1<A: Allocator, B: Allocator>(
    out: &mut Vec<u8, B>,
    image: &Image<A>,
) -> Result<(), NoMemory>
    ensures bytes { OnOk result (out.new.items ≡ out.old.items ++ version_1 image.now) }
    ensures numbers { OnOk result (HasNumbers image.now) }
    ensures entries { OnOk result (AllByRecursion (IsWithin VALUE_BYTES) image.now.entries) }
{
    let start = out.len();
    write_header(out, &MAGIC_V1, image)?;
    write_entries(out, image.entries())?;
    let digest = Sha256::digest(&out[start..]);
    Ok(out.extend_from_slice(&digest)?)
}

/// The image's bytes in version 1, which has room for values of up to 256 bytes.
pub fn seal_v1<A: Allocator>(alloc: A, image: &Image<A>) -> Result<Vec<u8, A>, SealError>
    ensures bytes { IfOk result (λ bytes. IsVersion1 image.now bytes.items) }
    ensures too_large { (result ≡ Err refused.TooLarge) ↔ (HasSmallValues image.now → ⊥) }
{
    if !are_small(image.entries()) {
        return Err(SealError::TooLarge);
    }
    let mut out = Vec::new(alloc);
    write_v1(&mut out, image)?;
    Ok(out)
}
