//! What takes the records and the images of a core as they come, while the core's lock is held.

use crate::shared::Origin;
use commitlog::Record;
use image::Image;
use std::alloc::Allocator;
use std::marker::Brand;

/// What takes each record that a core adds to its log, and each image that is taken of it, in order and before the
/// lock of the core is released. So it has at each moment what the core has.
///
/// Where it fails it remembers that, and takes no more: no method answers, since the core has accepted what it is told.
pub trait Keeper<A: Allocator> {
    ghost use Rattle.std.specs.Prelude.{◌≡◌, Bool, List, ◌++◌, ◌∷◌, []};
    ghost use Rattle.commitlog.specs.Records.{Record as SpecRecord};
    ghost use Rattle.image.specs.Images.{Image as SpecImage};

    /// It began so, and was told of this log and these images since.
    ghost Has: { (begun now : Self) → List SpecRecord → List SpecImage → Type 0 };

    /// Whether it takes more.
    ghost is_going: { Self → Bool };

    /// Takes the records that a call of the core added.
    fn keep_records(&mut self, records: &[Record<A>])
        ensures { (begun : Self) (log : List SpecRecord) (images : List SpecImage) → Has begun self.old log images → Has begun self.new (log ++ records.now) images };

    /// Takes the image that was taken last.
    fn keep_image(&mut self, image: &Image<A>)
        ensures { (begun : Self) (log : List SpecRecord) (images : List SpecImage) → Has begun self.old log images → Has begun self.new log (images ++ image.now ∷ []) };

    /// Whether it takes more, as it does until it fails.
    fn goes_on(&self) -> bool
        ensures { result ≡ is_going self.now };
}

/// The keeper that keeps nothing.
#[derive(Debug, Drop)]
pub struct NoKeeper;

impl<A: Allocator> Keeper<A> for NoKeeper {
    ghost use Rattle.std.specs.Prelude.{true};

    ghost Has = { λ _ _ _ _. Unit {0} };

    ghost is_going = { λ _. true };

    fn keep_records(&mut self, _records: &[Record<A>]) {}

    fn keep_image(&mut self, _image: &Image<A>) {}

    fn goes_on(&self) -> bool {
        true
    }
}

/// Names what the keeper of a shared core was when it began. No value of it is made, as none of `Origin`.
pub trait Beginning<K>: Origin {
    ghost use Rattle.std.specs.Prelude.{Option};

    ghost begun: { Option K };
}

impl<K> Beginning<K> for Brand {
    ghost use Rattle.std.specs.Prelude.{None};

    ghost begun = { None };
}
