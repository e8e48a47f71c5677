//! The merge of a chain of images.

ghost use Rattle.std.specs.Prelude.{◌≡◌, [], ◌∷◌, Err, IfOk, OnOk, Some, is_some, length};
ghost use Rattle.std.specs.Ordering.{nat_cmp};
ghost use Rattle.std.specs.Cmp.Lexicographic.{slice_cmp};
ghost use Rattle.std.specs.Result.{result_err};
ghost use Rattle.image.specs.Images.{Rises};
ghost use Rattle.image.specs.Joins.{Say, later_of, lent, present, said_by};
ghost use Rattle.image.specs.Merges.{Answers, IsChain, chain_refusal, last_of, links_refusal, merged_image, refusal_of};
ghost use Rattle.image.specs.declared.merges.MergeError.{MergeError};
ghost use Rattle.image.specs.Texts.{merge_error_text};
ghost use Rattle.image.specs.declared.merges.MergeError.TheVariants as refused;

use crate::entries::{Entry, compared};
use crate::images::{Image, Kind, full_of};
use crate::limits::{ENTRIES, IMAGES};
use procedure::NoMemory;
use std::alloc::{AllocError, Allocator};
use std::cmp::Ordering;
use std::error::Error;
use std::fmt;

/// Why images aren't merged. The places count the partial images from 0.
#[derive(Clone, Copy, Debug, PartialEq, Eq)]
pub enum MergeError {
    /// Over 64 images, or over 100,000 entries left in the merged one.
    TooMany,
    /// The first image is partial.
    NotFull,
    /// The image at this place is full.
    NotPartial(usize),
    /// The base of the image at this place isn't the number of the image before it.
    Gap(usize),
    NoMemory,
}

impl fmt::Display for MergeError {
    ghost output = { λ e. Some (merge_error_text e) };

    fn fmt<W: fmt::Write>(&self, f: &mut fmt::Formatter<W>) -> fmt::Result {
        match self {
            MergeError::TooMany => write!(f, "too many"),
            MergeError::NotFull => write!(f, "not full"),
            MergeError::NotPartial(place) => write!(f, "not partial {place}"),
            MergeError::Gap(place) => write!(f, "gap {place}"),
            MergeError::NoMemory => write!(f, "no memory"),
        }
    }
}

impl Error for MergeError {}

impl From<AllocError> for MergeError {
    ghost from_gives = { λ _ e. e ≡ refused.NoMemory };

    fn from(_refused: AllocError) -> Self {
        MergeError::NoMemory
    }
}

impl From<NoMemory> for MergeError {
    ghost from_gives = { λ _ e. e ≡ refused.NoMemory };

    fn from(_refused: NoMemory) -> Self {
        MergeError::NoMemory
    }
}

/// Whether the image at a place is partial, and based on this number.
pub(crate) fn check_link<A: Allocator>(
    place: usize,
    number: u64,
    partial: &Image<A>,
) -> Result<(), MergeError>
    ensures { result_err result ≡ links_refusal place number (partial.now ∷ []) }
{
    if partial.kind() != Kind::Partial {
        return Err(MergeError::NotPartial(place));
    }
    if partial.base() != number {
        return Err(MergeError::Gap(place));
    }
    Ok(())
}

/// Whether the images are partial, and each is based on the one before it.
fn check_links<A: Allocator>(number: u64, partials: &[Image<A>]) -> Result<(), MergeError>
    ensures { result_err result ≡ links_refusal 0 number partials.now }
{
    let mut before = number;
    for (place, partial) in partials.iter().enumerate() {
        check_link(place, before, partial)?;
        before = partial.number();
    }
    Ok(())
}

fn check_chain<A: Allocator>(full: &Image<A>, partials: &[Image<A>]) -> Result<(), MergeError>
    ensures { result_err result ≡ chain_refusal full.now partials.now }
{
    if partials.len() >= IMAGES {
        return Err(MergeError::TooMany);
    }
    if full.kind() != Kind::Full {
        return Err(MergeError::NotFull);
    }
    check_links(full.number(), partials)
}

fn order<A: Allocator>(x: &Entry<A>, y: &Entry<A>) -> Ordering
    ensures { result ≡ slice_cmp nat_cmp x.now.0 y.now.0 }
{
    compared(x, &y.key)
}

fn borrowed<'a, A: Allocator>(
    alloc: A,
    entries: &'a [Entry<A>],
) -> Result<Vec<&'a Entry<A>, A>, AllocError>
    ensures { IfOk result (λ es. lent es.items ≡ entries.now) }
{
    entries.iter().collect(alloc)
}

/// Two lists as one, in the order of their keys; at a key of both the newer counts.
fn joined<'a, A: Allocator>(
    alloc: A,
    older: &[&'a Entry<A>],
    newer: &[&'a Entry<A>],
) -> Result<Vec<&'a Entry<A>, A>, NoMemory>
    requires older { Rises (lent older.now) }
    requires newer { Rises (lent newer.now) }
    ensures { IfOk result (λ es. Say (later_of (lent older.now) (lent newer.now)) (lent es.items)) }
{
    let mut out = Vec::new(alloc);
    let mut i = 0;
    let mut j = 0;
    while i < older.len() && j < newer.len() {
        match order(older[i], newer[j]) {
            Ordering::Less => {
                out.push(older[i])?;
                i += 1;
            }
            Ordering::Equal => {
                out.push(newer[j])?;
                i += 1;
                j += 1;
            }
            Ordering::Greater => {
                out.push(newer[j])?;
                j += 1;
            }
        }
    }
    out.extend_from_slice(&older[i..])?;
    out.extend_from_slice(&newer[j..])?;
    Ok(out)
}

/// What the images say, where of two that name a key the later counts. The list is halved as long as
/// it has two images, so that each entry is looked at a number of times that goes by the logarithm of
/// their count.
fn gathered<'a, A: Allocator + Clone>(
    alloc: A,
    images: &'a [Image<A>],
) -> Result<Vec<&'a Entry<A>, A>, NoMemory>
    ensures { IfOk result (λ es. Say (said_by images.now) (lent es.items)) }
{
    if let Some((image, rest)) = images.split_first() {
        if rest.is_empty() {
            return Ok(borrowed(alloc, image.entries())?);
        }
        let (first, second) = images.split_at(images.len() / 2);
        let older = gathered(alloc.clone()?, first)?;
        let newer = gathered(alloc.clone()?, second)?;
        return joined(alloc, older.as_slice(), newer.as_slice());
    }
    Ok(Vec::new(alloc))
}

/// What a full image and partial ones that stand on it say.
fn changed<'a, A: Allocator + Clone>(
    alloc: A,
    full: &'a Image<A>,
    partials: &'a [Image<A>],
) -> Result<Vec<&'a Entry<A>, A>, NoMemory>
    ensures { IfOk result (λ es. Say (said_by (full.now ∷ partials.now)) (lent es.items)) }
{
    let older = borrowed(alloc.clone()?, full.entries())?;
    let newer = gathered(alloc.clone()?, partials)?;
    joined(alloc, older.as_slice(), newer.as_slice())
}

fn is_present<A: Allocator>(entry: &Entry<A>) -> bool
    ensures { result ≡ is_some entry.now.1 }
{
    entry.cell.is_some()
}

fn count_present<A: Allocator>(changes: &[&Entry<A>]) -> usize
    ensures { result ≡ length (present (lent changes.now)) }
{
    let mut count = 0;
    for &entry in changes {
        if is_present(entry) {
            count += 1;
        }
    }
    count
}

fn copy_of_present<A: Allocator + Clone>(
    alloc: A,
    changes: &[&Entry<A>],
) -> Result<Vec<Entry<A>, A>, NoMemory>
    ensures { IfOk result (λ es. es.items ≡ present (lent changes.now)) }
{
    let mut copy = Vec::new(alloc);
    for &entry in changes {
        if is_present(entry) {
            copy.push(entry.clone()?)?;
        }
    }
    Ok(copy)
}

fn last_image<'a, A: Allocator>(full: &'a Image<A>, partials: &'a [Image<A>]) -> &'a Image<A>
    ensures { result.now ≡ last_of full.now partials.now }
{
    match partials.last() {
        Some(last) => last,
        None => full,
    }
}

/// A chain as one full image: what the full image says, changed by the partial ones in turn, with the
/// number and place of the last. It takes the entries of the chain times the logarithm of its images.
pub fn merge<A: Allocator + Clone>(
    alloc: A,
    full: &Image<A>,
    partials: &[Image<A>],
) -> Result<Image<A>, MergeError>
    ensures value { IfOk result (λ i. i ≡ merged_image full.now partials.now) }
    ensures chain { OnOk result (IsChain full.now partials.now) }
    ensures refusal { Answers (refusal_of full.now partials.now) result }
    ensures no_chain { (e : MergeError) → chain_refusal full.now partials.now ≡ Some e → result ≡ Err e }
{
    check_chain(full, partials)?;
    let changes = changed(alloc.clone()?, full, partials)?;
    if count_present(changes.as_slice()) > ENTRIES {
        return Err(MergeError::TooMany);
    }
    let entries = copy_of_present(alloc, changes.as_slice())?;
    let last = last_image(full, partials);
    Ok(full_of(last.number(), last.place(), entries))
}
