//! What stands at the front of a text.

ghost use Rattle.std.specs.Prelude.{◌≡◌, ◌++◌, option_map};
ghost use Rattle.sha2.specs.Sha256.{sha256};
ghost use Rattle.image.specs.Fronts as spec;
ghost use Rattle.image.specs.Fronts.{Gives, behind, behind_ok};
ghost use Rattle.image.specs.ImageBytes.{block_count};

use crate::errors::ReadError;
use crate::limits::BLOCK;
use byteorder::{BigEndian, ByteOrder};
use procedure::bytes::chained_digest;
use std::marker::Model;

/// An entry as pieces of a text, lawful or not.
#[derive(Debug, Drop)]
pub(crate) struct Piece<'a> {
    pub key: &'a [u8],
    pub cell: Option<&'a [u8]>,
}

impl<'a> Model for Piece<'a> {
    ghost use Rattle.std.specs.Prelude.{option_map};
    ghost use Rattle.procedure.specs.Bytes.{Bytes, Cell};

    ghost Value = { Bytes × Cell };

    ghost view = { λ e. (e.key.now, option_map (λ v. v.now) e.cell) };
}

fn parted(bytes: &[u8], count: usize) -> Option<(&[u8], &[u8])>
    ensures { option_map (λ p. (p.0.now, p.1.now)) result ≡ spec.parted count bytes.now }
{
    if bytes.len() < count {
        return None;
    }
    Some(bytes.split_at(count))
}

fn key_at(bytes: &[u8]) -> Option<(&[u8], &[u8])>
    ensures { option_map (λ p. (p.0.now, p.1.now)) result ≡ spec.key_at bytes.now }
{
    match bytes {
        [] => None,
        [length, rest @ ..] => parted(rest, usize::from(*length)),
    }
}

#[tactic(auto, unfolding(crate::specs::Fronts::cell_at))]
fn cell_at(bytes: &[u8]) -> Option<(Option<&[u8]>, &[u8])>
    ensures { option_map (λ p. (option_map (λ v. v.now) p.0, p.1.now)) result ≡ spec.cell_at bytes.now }
{
    match bytes {
        [] => None,
        [0, rest @ ..] => Some((None, rest)),
        [1, rest @ ..] => {
            let (length, rest) = parted(rest, 2)?;
            let (value, rest) = parted(rest, usize::from(BigEndian::read_u16(length)))?;
            Some((Some(value), rest))
        }
        [_, ..] => None,
    }
}

#[tactic(auto, unfolding(crate::specs::Fronts::entry_at))]
pub(crate) fn entry_at<'a>(bytes: &'a [u8]) -> Option<(Piece<'a>, &'a [u8])>
    ensures { option_map (λ p. (p.0, p.1.now)) result ≡ spec.entry_at bytes.now }
{
    let (key, rest) = key_at(bytes)?;
    let (cell, rest) = cell_at(rest)?;
    Some((Piece { key, cell }, rest))
}

/// What stands after so many entries; None where they aren't wholly there, or a tag is neither 0 nor 1.
pub(crate) fn past_entries(count: usize, bytes: &[u8]) -> Option<&[u8]>
    ensures { option_map (λ r. r.now) result ≡ behind (spec.entries_at count bytes.now) }
{
    let mut rest = bytes;
    for _ in 0..count {
        let (_piece, after) = entry_at(rest)?;
        rest = after;
    }
    Some(rest)
}

/// What stands after a block of `count` entries; None where it isn't wholly there, or a tag is neither 0
/// nor 1, or the digest is another. The digest before the block becomes the block's.
#[tactic(auto, unfolding(crate::specs::Fronts::block_at))]
fn past_block<'a>(digest: &mut [u8; 32], count: usize, bytes: &'a [u8]) -> Option<&'a [u8]>
    ensures { option_map (λ r. (digest.new, r.now)) result ≡ behind (spec.block_at digest.old count bytes.now) }
{
    let left = past_entries(count, bytes)?;
    let (stated, rest) = parted(left, 32)?;
    *digest = chained_digest(digest, &bytes[..bytes.len() - left.len()]);
    if stated != digest.as_slice() {
        return None;
    }
    Some(rest)
}

/// What stands after so many entries in blocks.
pub(crate) fn past_blocks(digest: [u8; 32], count: usize, bytes: &[u8]) -> Result<&[u8], ReadError>
    ensures { Gives (λ rest. rest.now) result (behind_ok (spec.blocks_at (block_count count) 0 count digest bytes.now)) }
{
    let mut digest = digest;
    let mut rest = bytes;
    let mut left = count;
    let mut block = 0;
    while left > 0 {
        block += 1;
        match past_block(&mut digest, left.min(BLOCK), rest) {
            None => return Err(ReadError::BadBlock(block)),
            Some(behind) => rest = behind,
        }
        left = left.saturating_sub(BLOCK);
    }
    Ok(rest)
}
