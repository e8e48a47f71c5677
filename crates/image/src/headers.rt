//! An image in two parts: a header, and entries in the order in which they were captured.

ghost use Rattle.std.specs.Prelude.{◌≡◌, ◌≢◌, Err, IfOk, OnOk, length, Some};
ghost use Rattle.byteorder.specs.Endian.{big_bytes};
ghost use Rattle.image.specs.Headers.{FitsHeader, assembled, chain_digest, linked};
ghost use Rattle.image.specs.declared.headers.AssembleError.TheVariants as refused;
ghost use Rattle.image.specs.Texts.{assemble_error_text};

use crate::entries::Entry;
use crate::images::{Image, Kind};
use byteorder::{BigEndian, ByteOrder};
use sha2::{Digest, Sha256};
use std::alloc::{AllocError, Allocator};
use std::error::Error;
use std::fmt;

/// The digest of a chain without entries.
pub const NO_ENTRIES: [u8; 32] = [0; 32];

/// An image without its entries: how many there are, and the digest of their chain in the order in
/// which they were captured.
#[derive(Clone, Copy, Debug, PartialEq, Eq)]
pub struct Header {
    pub kind: Kind,
    pub number: u64,
    pub base: u64,
    pub place: u64,
    pub count: usize,
    pub chain: [u8; 32],
}

/// Why a header and entries make no image.
#[derive(Clone, Copy, Debug, PartialEq, Eq)]
pub enum AssembleError {
    /// The image isn't lawful, a key comes twice, or the count or the digest is that of other entries.
    BadForm,
    NoMemory,
}

impl fmt::Display for AssembleError {
    ghost output = { λ e. Some (assemble_error_text e) };

    fn fmt<W: fmt::Write>(&self, f: &mut fmt::Formatter<W>) -> fmt::Result {
        f.write_str(match self {
            AssembleError::BadForm => "bad form",
            AssembleError::NoMemory => "no memory",
        })
    }
}

impl Error for AssembleError {}

impl From<AllocError> for AssembleError {
    ghost from_gives = { λ _ e. e ≡ refused.NoMemory };

    fn from(_refused: AllocError) -> Self {
        AssembleError::NoMemory
    }
}

fn length_bytes(length: u16) -> [u8; 2]
    ensures { result ≡ big_bytes 2 length }
{
    let mut bytes = [0u8; 2];
    BigEndian::write_u16(&mut bytes, length);
    bytes
}

/// The digest of a chain with one entry more: the SHA-256 of the digest so far and the entry's bytes.
pub fn link<A: Allocator>(chain: &[u8; 32], entry: &Entry<A>) -> [u8; 32]
    ensures { result ≡ linked chain.now entry.now }
{
    let key = entry.key.as_bytes();
    let mut hasher = Sha256::new();
    hasher.update(chain.as_slice());
    hasher.update([key.len() as u8]);
    hasher.update(key);
    match &entry.cell {
        None => {
            hasher.update([0]);
            hasher.finalize()
        }
        Some(value) => {
            let value = value.as_bytes();
            hasher.update([1]);
            hasher.update(length_bytes(value.len() as u16));
            hasher.update(value);
            hasher.finalize()
        }
    }
}

fn chain_of<A: Allocator>(entries: &[Entry<A>]) -> [u8; 32]
    ensures { result ≡ chain_digest entries.now }
{
    let mut chain = NO_ENTRIES;
    for entry in entries {
        chain = link(&chain, entry);
    }
    chain
}

/// The image of a header and its entries. The digest is compared in the order in which they are
/// handed in; then a copy of them is sorted by key.
pub fn assemble<A: Allocator + Clone>(
    alloc: A,
    header: &Header,
    entries: &[Entry<A>],
) -> Result<Image<A>, AssembleError>
    ensures value { IfOk result (λ i. i ≡ assembled header.now entries.now) }
    ensures fits { OnOk result (FitsHeader header.now entries.now) }
    ensures bad_form { result ≡ Err refused.BadForm → FitsHeader header.now entries.now → ⊥ }
    // Another count is found without memory.
    ensures count { header.now.count ≢ length entries.now → result ≡ Err refused.BadForm }
{
    if header.count != entries.len() || header.chain != chain_of(entries) {
        return Err(AssembleError::BadForm);
    }
    let copy = entries.to_vec(alloc)?;
    match Image::captured(header.kind, header.number, header.base, header.place, copy) {
        Some(image) => Ok(image),
        None => Err(AssembleError::BadForm),
    }
}
