//! Images that are checked in their bytes, without making their entries.

ghost use Rattle.std.specs.Prelude.{◌≡◌, ◌≤◌, ◌⊎◌, ◌↔◌, ◌+◌, Err, IfErr, IfOk, IfSome, IsSome, IsTrue, Ok, Some, length, drop, slice_index};
ghost use Rattle.std.specs.declared.result.Result.{Result};
ghost use Rattle.byteorder.specs.Endian.{big_number};
ghost use Rattle.image.specs.Fronts.{Gives};
ghost use Rattle.image.specs.ImageBytes.{IsWritable, block_count};
ghost use Rattle.image.specs.Images.{Image as SpecImage};
ghost use Rattle.image.specs.Readings.{IsBad, Judges, alone_or_bad, alone_or_refused, first_entries, image_at, second_entries};
ghost use Rattle.image.specs.Refusals.{IsAnswer, stated};
ghost use Rattle.image.specs.inside.Pieces.{AreLawful, AreParts, Fits, IsBased};
ghost use Rattle.image.specs.inside.Pieces as spec;
ghost use Rattle.image.specs.declared.errors.ReadError.{ReadError};
ghost use Rattle.image.specs.declared.errors.ReadError.TheVariants as refused;

use crate::errors::ReadError;
use crate::fronts::{Piece, past_blocks, past_entries};
use crate::images::Kind;
use crate::limits::{BLOCK, ENTRIES, SHORTEST, VALUE_BYTES_V1};
use crate::pieces::Pieces;
use crate::sealing::{MAGIC_V1, MAGIC_V2};
use crate::stored_entries::StoredEntries;
use byteorder::{BigEndian, ByteOrder};
use procedure::Key;
use procedure::limits::VALUE_BYTES;
use sha2::{Digest, Sha256};
use std::marker::Model;

/// An image that was checked, and whose entries stand in its bytes alone. Contracts see the image.
#[derive(Drop)]
pub struct CheckedImage<'a> {
    kind: Kind,
    number: u64,
    base: u64,
    place: u64,
    entries: StoredEntries<'a>,
}

impl<'a> Model for CheckedImage<'a> {
    ghost use Rattle.image.specs.Images.{Image};

    ghost Value = { Image };

    ghost view = { λ i. record { kind = i.kind; number = i.number; base = i.base; place = i.place; entries = i.entries } };
}

impl<'a> CheckedImage<'a> {
    /// Whether it is full or partial.
    pub fn kind(&self) -> Kind
        ensures { result ≡ self.now.kind }
    {
        self.kind
    }

    /// The number of its checkpoint.
    pub fn number(&self) -> u64
        ensures { result ≡ self.now.number }
    {
        self.number
    }

    /// The number of the image that is its base; in a full image its own.
    pub fn base(&self) -> u64
        ensures { result ≡ self.now.base }
    {
        self.base
    }

    /// How many records of the log stand before the checkpoint's cut.
    pub fn place(&self) -> u64
        ensures { result ≡ self.now.place }
    {
        self.place
    }

    /// All its entries, in the byte order of their keys.
    pub fn entries(&self) -> StoredEntries<'a>
        ensures { result ≡ self.now.entries }
    {
        self.entries.again()
    }
}

/// The key of a piece that an image of this kind may have.
fn fitting_key(most: usize, kind: Kind, piece: &Piece<'_>) -> Option<Key>
    ensures key { IfSome result (λ k. k ≡ piece.now.0) }
    ensures fits { IsSome result ↔ Fits most kind piece.now }
{
    match piece.cell {
        None if kind == Kind::Full => None,
        Some(bytes) if bytes.len() > most => None,
        _ => Key::new(piece.key),
    }
}

fn is_above(last: &Option<Key>, key: &Key) -> bool
    ensures { result ≡ spec.is_above last.now key.now }
{
    match last {
        Some(last) => last < key,
        None => true,
    }
}

/// Whether the pieces are the entries of an image of this kind.
fn are_lawful(most: usize, kind: Kind, pieces: Pieces<'_>) -> bool
    ensures { IsTrue result ↔ AreLawful most kind pieces.entry }
{
    let mut pieces = pieces;
    let mut last = None;
    while let Some(piece) = pieces.next() {
        let Some(key) = fitting_key(most, kind, &piece) else {
            return false;
        };
        if !is_above(&last, &key) {
            return false;
        }
        last = Some(key);
    }
    true
}

fn count_at(bytes: &[u8]) -> usize
    requires { 69 ≤ length bytes.now }
    ensures { result ≡ stated bytes.now }
{
    BigEndian::read_u32(&bytes[33..]) as usize
}

fn number_at(bytes: &[u8], place: usize) -> u64
    requires { place + 8 ≤ length bytes.now }
    ensures { result ≡ big_number 8 (drop place bytes.now) }
{
    BigEndian::read_u64(&bytes[place..])
}

fn kind_of(byte: u8) -> Option<Kind>
    ensures { result ≡ Rattle.image.specs.Readings.kind_of byte }
{
    match byte {
        0 => Some(Kind::Full),
        1 => Some(Kind::Partial),
        _ => None,
    }
}

/// So many entries, lawful or not, and nothing after them.
fn only_entries(count: usize, bytes: &[u8]) -> Result<Pieces<'_>, ReadError>
    ensures { Gives (λ pieces. pieces) result (alone_or_bad (Rattle.image.specs.Fronts.entries_at count bytes.now)) }
{
    match past_entries(count, bytes) {
        Some([]) => Ok(Pieces::new(count, count, bytes)),
        _ => Err(ReadError::BadForm),
    }
}

/// So many entries in blocks, lawful or not, and nothing after them.
fn only_blocks(digest: [u8; 32], count: usize, bytes: &[u8]) -> Result<Pieces<'_>, ReadError>
    ensures { Gives (λ pieces. pieces) result (alone_or_refused (Rattle.image.specs.Fronts.blocks_at (block_count count) 0 count digest bytes.now)) }
{
    let rest = past_blocks(digest, count, bytes)?;
    if !rest.is_empty() {
        return Err(ReadError::BadForm);
    }
    Ok(Pieces::new(count, count.min(BLOCK), bytes))
}

/// The entries of version 1, lawful or not.
#[tactic(auto, unfolding(crate::specs::Readings::first_entries))]
fn first_pieces(bytes: &[u8]) -> Result<Pieces<'_>, ReadError>
    requires { 69 ≤ length bytes.now }
    ensures { Gives (λ pieces. pieces) result (first_entries bytes.now) }
{
    let (signed, digest) = bytes.split_at(bytes.len() - 32);
    if digest != Sha256::digest(signed).as_slice() {
        return Err(ReadError::BadDigest);
    }
    let (_, entries) = signed.split_at(37);
    only_entries(count_at(bytes), entries)
}

/// The entries of version 2, lawful or not.
#[tactic(auto, unfolding(crate::specs::Readings::second_entries))]
fn second_pieces(bytes: &[u8]) -> Result<Pieces<'_>, ReadError>
    requires { 69 ≤ length bytes.now }
    ensures { Gives (λ pieces. pieces) result (second_entries bytes.now) }
{
    let (header, behind) = bytes.split_at(37);
    let (stated, blocks) = behind.split_at(32);
    let digest = Sha256::digest(header);
    if stated != digest.as_slice() {
        return Err(ReadError::BadBlock(0));
    }
    only_blocks(digest, count_at(bytes), blocks)
}

/// Whether these are a number and the number of its base.
fn are_numbers(kind: Kind, number: u64, base: u64) -> bool
    ensures { IsTrue result ↔ IsBased kind number base }
{
    match kind {
        Kind::Full => base == number,
        Kind::Partial => base < number,
    }
}

/// Whether these are the parts of a lawful image.
fn are_parts(most: usize, kind: Kind, number: u64, base: u64, pieces: Pieces<'_>) -> bool
    ensures { IsTrue result ↔ AreParts most kind number base pieces.entry }
{
    pieces.len() <= ENTRIES && are_numbers(kind, number, base) && are_lawful(most, kind, pieces)
}

/// The image of a header and entries, where it is lawful.
#[tactic(auto, unfolding(crate::specs::Readings::image_at))]
fn image_of<'a>(
    most: usize,
    bytes: &[u8],
    pieces: Pieces<'a>,
) -> Result<CheckedImage<'a>, ReadError>
    requires long { 69 ≤ length bytes.now }
    requires most { most ≤ VALUE_BYTES }
    ensures value { IfOk result (λ i. (image_at bytes.now pieces.entry ≡ Some i) × IsWritable most i) }
    ensures err { IfErr result (λ e. (e ≡ refused.BadForm) × IsBad most bytes.now pieces.entry) }
{
    let Some(kind) = kind_of(bytes[8]) else {
        return Err(ReadError::BadForm);
    };
    let number = number_at(bytes, 9);
    let base = number_at(bytes, 17);
    let place = number_at(bytes, 25);
    if !are_parts(most, kind, number, base, pieces.again()) {
        return Err(ReadError::BadForm);
    }
    Ok(CheckedImage {
        kind,
        number,
        base,
        place,
        entries: StoredEntries::new(pieces),
    })
}

/// The image of bytes in version 1.
fn check_first(bytes: &[u8]) -> Result<CheckedImage<'_>, ReadError>
    requires { 69 ≤ length bytes.now }
    ensures { Judges VALUE_BYTES_V1 bytes.now (first_entries bytes.now) result }
{
    image_of(VALUE_BYTES_V1, bytes, first_pieces(bytes)?)
}

/// The image of bytes in version 2.
fn check_second(bytes: &[u8]) -> Result<CheckedImage<'_>, ReadError>
    requires { 69 ≤ length bytes.now }
    ensures { Judges VALUE_BYTES bytes.now (second_entries bytes.now) result }
{
    image_of(VALUE_BYTES, bytes, second_pieces(bytes)?)
}

/// Reads an image as `read_image` does, and makes no entry: it takes no memory. Each entry is made of the
/// bytes afterward, when it is asked for.
pub fn check_image(bytes: &[u8]) -> Result<CheckedImage<'_>, ReadError>
    ensures answer { IsAnswer bytes.now result }
    ensures exact { (answer : Result SpecImage ReadError) → IsAnswer bytes.now answer → result ≡ answer }
{
    if bytes.len() < SHORTEST {
        return Err(ReadError::NotAnImage);
    }
    let (magic, _) = bytes.split_at(8);
    if magic == MAGIC_V1.as_slice() {
        return check_first(bytes);
    }
    if magic == MAGIC_V2.as_slice() {
        return check_second(bytes);
    }
    Err(ReadError::NotAnImage)
}
