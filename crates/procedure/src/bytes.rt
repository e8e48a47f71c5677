//! Parts of the formats: numbers, the highest byte first, and digests that are chained.

ghost use Rattle.std.specs.Prelude.{◌≡◌, ◌≤◌, ◌<◌, ◌+◌, ◌++◌, OnErr, OnOk};
ghost use Rattle.std.specs.Vec.{vec_capacity, vec_len};
ghost use Rattle.byteorder.specs.Endian.{big_bytes};
ghost use Rattle.sha2.specs.Sha256.{sha256};

use crate::memory::NoMemory;
use byteorder::{BigEndian, ByteOrder};
use sha2::{Digest, Sha256};
use std::alloc::Allocator;

/// Writes a number as 2 bytes, the highest first.
pub fn write_u16<A: Allocator>(out: &mut Vec<u8, A>, number: u16) -> Result<(), NoMemory>
    ensures bytes { OnOk result (out.new.items ≡ out.old.items ++ big_bytes 2 number) }
    ensures capacity { vec_capacity out.old ≤ vec_capacity out.new }
    ensures full { OnErr result (vec_capacity out.old < vec_len out.old + 2) }
{
    let mut bytes = [0u8; 2];
    BigEndian::write_u16(&mut bytes, number);
    Ok(out.extend_from_slice(&bytes)?)
}

/// Writes a number as 4 bytes, the highest first.
pub fn write_u32<A: Allocator>(out: &mut Vec<u8, A>, number: u32) -> Result<(), NoMemory>
    ensures bytes { OnOk result (out.new.items ≡ out.old.items ++ big_bytes 4 number) }
    ensures capacity { vec_capacity out.old ≤ vec_capacity out.new }
    ensures full { OnErr result (vec_capacity out.old < vec_len out.old + 4) }
{
    let mut bytes = [0u8; 4];
    BigEndian::write_u32(&mut bytes, number);
    Ok(out.extend_from_slice(&bytes)?)
}

/// Writes a number as 8 bytes, the highest first.
pub fn write_u64<A: Allocator>(out: &mut Vec<u8, A>, number: u64) -> Result<(), NoMemory>
    ensures bytes { OnOk result (out.new.items ≡ out.old.items ++ big_bytes 8 number) }
    ensures capacity { vec_capacity out.old ≤ vec_capacity out.new }
    ensures full { OnErr result (vec_capacity out.old < vec_len out.old + 8) }
{
    let mut bytes = [0u8; 8];
    BigEndian::write_u64(&mut bytes, number);
    Ok(out.extend_from_slice(&bytes)?)
}

/// The digest of a chain with one piece more: the SHA-256 of the digest so far and the piece.
pub fn chained_digest(before: &[u8; 32], piece: &[u8]) -> [u8; 32]
    ensures { result ≡ sha256 (before.now ++ piece.now) }
{
    let mut hasher = Sha256::new();
    hasher.update(before.as_slice());
    hasher.update(piece);
    hasher.finalize()
}
