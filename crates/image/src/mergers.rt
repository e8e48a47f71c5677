//! The merge of a chain whose images come one after another.

ghost use Rattle.std.specs.Prelude.{◌≡◌, ◌<◌, ◌-◌, ◌⊎◌, ◌++◌, [], ◌∷◌, List, Err, IfOk, OnOk, Some, nat_le};
ghost use Rattle.std.specs.FinMap as finite;
ghost use Rattle.std.specs.Result.{result_err};
ghost use Rattle.image.specs.Images.{Image as SpecImage, full_image};
ghost use Rattle.image.specs.Merges.{Answers, chain_refusal, is_full, links_refusal, unless};
ghost use Rattle.image.specs.Mergers.{after, merge_of, unless_refused, with_image};
ghost use Rattle.image.specs.declared.merges.MergeError.{MergeError as SpecError};
ghost use Rattle.image.specs.declared.merges.MergeError.TheVariants as refused;

use crate::images::{Image, Kind, full_of};
use crate::layers::Layers;
use crate::limits::{ENTRIES, IMAGES};
use crate::merges::{MergeError, check_link};
use procedure::NoMemory;
use std::alloc::Allocator;
use std::marker::Model;

/// A chain so far: the number and place of its last image, which are 0 while there is none, and its
/// table.
#[derive(Debug, Drop)]
struct Chain<A: Allocator> {
    number: u64,
    place: u64,
    table: Layers<A>,
}

impl<A: Allocator> Model for Chain<A> {
    ghost use Rattle.image.specs.Mergers.{Chain, chain_code};

    ghost Value = { Chain };

    ghost coded = { chain_code };

    ghost view = { λ c. record { number = c.number; place = c.place; table = c.table } };
}

/// Merges the images of a chain that come one after another, the full one first. It keeps their table,
/// and no image; once they are no chain, it keeps no table either.
#[derive(Debug, Drop)]
pub struct Merger<A: Allocator> {
    /// How many have come, up to as many as a chain has.
    count: usize,
    chain: Result<Chain<A>, MergeError>,
}

impl<A: Allocator> Model for Merger<A> {
    ghost use Rattle.std.specs.Coded.{codes};
    ghost use Rattle.image.specs.Mergers.{Merging, chain_code};

    ghost Value = { Merging };

    ghost coded = { Prim.hlevel (codes, chain_code) };

    ghost view = { λ m. record { count = m.count; chain = m.chain } };
}

/// Whether an image goes on from those before it: the first is full, and each later one is partial and
/// based on the number of the one before.
fn check_next<A: Allocator>(count: usize, number: u64, image: &Image<A>) -> Result<(), MergeError>
    ensures first { count ≡ 0 → result_err result ≡ unless (is_full image.now.kind) refused.NotFull }
    ensures later { 0 < count → result_err result ≡ links_refusal (count - 1) number (image.now ∷ []) }
{
    if count > 0 {
        return check_link(count - 1, number, image);
    }
    if image.kind() != Kind::Full {
        return Err(MergeError::NotFull);
    }
    Ok(())
}

/// The chain with one more image, or why that is refused.
fn extended<A: Allocator + Clone>(
    count: usize,
    chain: Chain<A>,
    image: Image<A>,
) -> Result<Result<Chain<A>, MergeError>, NoMemory>
    ensures first { count ≡ 0 → IfOk result (λ c. c ≡ unless_refused (unless (is_full image.kind) refused.NotFull) (with_image chain image)) }
    ensures later { 0 < count → IfOk result (λ c. c ≡ unless_refused (links_refusal (count - 1) chain.number (image ∷ [])) (with_image chain image)) }
{
    match check_next(count, chain.number, &image) {
        Ok(()) => {
            // Brings in that the image is lawful.
            let _entries = image.entries();
            Ok(Ok(Chain {
                number: image.number(),
                place: image.place(),
                table: chain.table.with(image.into_entries())?,
            }))
        }
        Err(refusal) => Ok(Err(refusal)),
    }
}

/// The full image of a chain.
fn full_image_of<A: Allocator + Clone>(alloc: A, chain: Chain<A>) -> Result<Image<A>, MergeError>
    ensures value { IfOk result (λ i. i ≡ full_image chain.number chain.place chain.table) }
    ensures refusal { Answers (unless (nat_le (finite.len chain.table) ENTRIES) refused.TooMany) result }
{
    let entries = chain.table.into_entries(alloc)?;
    if entries.len() > ENTRIES {
        return Err(MergeError::TooMany);
    }
    Ok(full_of(chain.number, chain.place, entries))
}

impl<A: Allocator> Merger<A> {
    /// One that no image has come to. It takes no memory.
    pub fn new(alloc: A) -> Self
        ensures { result ≡ after [] }
    {
        Merger {
            count: 0,
            chain: Ok(Chain {
                number: 0,
                place: 0,
                table: Layers::new(alloc),
            }),
        }
    }
}

impl<A: Allocator + Clone> Merger<A> {
    /// Takes the next image, whose entries move into those of the chain. Each is looked at a number of
    /// times that goes by the logarithm of all, and none is looked up. Where memory is refused the merger
    /// is given up. Whether the images are a chain is told by `finish`.
    pub fn push(self, image: Image<A>) -> Result<Self, NoMemory>
        ensures { (images : List SpecImage) → self ≡ after images → IfOk result (λ m. m ≡ after (images ++ image ∷ [])) }
    {
        let Merger { count, chain } = self;
        if count >= IMAGES {
            return Ok(Merger {
                count,
                chain: Err(MergeError::TooMany),
            });
        }
        let chain = match chain {
            Ok(chain) => extended(count, chain, image)?,
            Err(refusal) => Err(refusal),
        };
        Ok(Merger {
            count: count + 1,
            chain,
        })
    }

    /// The images as one, with the number and place of the last; or the first refusal that `merge` has of
    /// them, which is `NotFull` where there is no image.
    pub fn finish(self, alloc: A) -> Result<Image<A>, MergeError>
        ensures merge { (images : List SpecImage) → self ≡ after images → (result ≡ merge_of images) ⊎ (result ≡ Err refused.NoMemory) }
        ensures no_chain { (full : SpecImage) (ps : List SpecImage) (e : SpecError) → self ≡ after (full ∷ ps) → chain_refusal full ps ≡ Some e → result ≡ Err e }
        ensures nothing { self ≡ after [] → result ≡ Err refused.NotFull }
    {
        let Merger { count, chain } = self;
        let chain = chain?;
        if count == 0 {
            return Err(MergeError::NotFull);
        }
        full_image_of(alloc, chain)
    }
}
