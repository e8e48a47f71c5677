//! Images, each of them lawful.

ghost use Rattle.std.specs.Prelude.{◌≡◌, ◌<◌, ◌↔◌, Err, IfOk, IfSome, IsSome, IsTrue, map, option_copied, Some};
ghost use Rattle.procedure.specs.Table.{change_at};
ghost use Rattle.std.specs.FinMap as finite;
ghost use Rattle.image.specs.Images.{Image, IsLawfulImage, Rises, SuitsKind, changes_of, entries_of, full_image};
ghost use Rattle.image.specs.Headers.{EachKeyOnce, of_captured};
ghost use Rattle.image.specs.Openings.{is_opening};
ghost use Rattle.image.specs.declared.images.Kind.TheVariants.{Full};
ghost use Rattle.image.specs.declared.images.OpeningError.TheVariants as refused;
ghost use Rattle.image.specs.Texts.{opening_error_text};

use crate::entries::{Entry, all_present, compared, keys_rise, sort_by_keys};
use crate::limits::ENTRIES;
use procedure::{Key, NoMemory, Table, Value};
use std::alloc::{AllocError, Allocator};
use std::error::Error;
use std::fmt;
use std::marker::Model;

/// What an image says of the keys that it doesn't name.
#[derive(Clone, Copy, Debug, PartialEq, Eq)]
pub enum Kind {
    /// They are absent.
    Full,
    /// They are as in the image that is its base.
    Partial,
}

/// What a checkpoint leaves: its number, that of the image that is its base (its own, in a full
/// image), its place in the log, and entries.
///
/// It is lawful by its type: the keys strictly rise, there are at most 100,000 entries, a full image
/// has its own number as base and no key that is gone, and the base of a partial one is below its
/// number.
#[derive(Debug, Drop)]
pub struct Image<A: Allocator> {
    kind: Kind,
    number: u64,
    base: u64,
    place: u64,
    entries: Vec<Entry<A>, A>,
}

impl<A: Allocator> Model for Image<A> {
    ghost use Rattle.image.specs.Images.{Image};

    ghost Value = { Image };

    ghost use Rattle.image.specs.Images.{IsLawfulImage};
    ghost use Rattle.image.specs.Views.{image_of};

    ghost view = { image_of };

    ghost invariant = { λ i. IsLawfulImage (image_of i) };
}

/// Why a table is no opening image.
#[derive(Clone, Copy, Debug, PartialEq, Eq)]
pub enum OpeningError {
    /// Over 100,000 keys.
    TooMany,
    NoMemory,
}

impl fmt::Display for OpeningError {
    ghost output = { λ e. Some (opening_error_text e) };

    fn fmt<W: fmt::Write>(&self, f: &mut fmt::Formatter<W>) -> fmt::Result {
        f.write_str(match self {
            OpeningError::TooMany => "too many",
            OpeningError::NoMemory => "no memory",
        })
    }
}

impl Error for OpeningError {}

impl From<NoMemory> for OpeningError {
    ghost from_gives = { λ _ e. e ≡ refused.NoMemory };

    fn from(_refused: NoMemory) -> Self {
        OpeningError::NoMemory
    }
}

fn suits_kind<A: Allocator>(kind: Kind, number: u64, base: u64, entries: &[Entry<A>]) -> bool
    ensures { IsTrue result ↔ SuitsKind kind number base entries.now }
{
    match kind {
        Kind::Full => base == number && all_present(entries),
        Kind::Partial => base < number,
    }
}

impl<A: Allocator> Image<A> {
    /// The image of these parts; None where it isn't lawful.
    pub fn new(
        kind: Kind,
        number: u64,
        base: u64,
        place: u64,
        entries: Vec<Entry<A>, A>,
    ) -> Option<Self>
        ensures value { IfSome result (λ i. i ≡ record { kind = kind; number = number; base = base; place = place; entries = entries.items }) }
        ensures lawful { IsSome result ↔ IsLawfulImage (record { kind = kind; number = number; base = base; place = place; entries = entries.items }) }
    {
        if !keys_rise(entries.as_slice()) {
            return None;
        }
        Image::of_rising(kind, number, base, place, entries)
    }

    /// As `new`, of entries whose keys strictly rise.
    fn of_rising(
        kind: Kind,
        number: u64,
        base: u64,
        place: u64,
        entries: Vec<Entry<A>, A>,
    ) -> Option<Self>
        requires { Rises entries.items }
        ensures value { IfSome result (λ i. i ≡ record { kind = kind; number = number; base = base; place = place; entries = entries.items }) }
        ensures lawful { IsSome result ↔ IsLawfulImage (record { kind = kind; number = number; base = base; place = place; entries = entries.items }) }
    {
        if entries.len() > ENTRIES || !suits_kind(kind, number, base, entries.as_slice()) {
            return None;
        }
        Some(Image {
            kind,
            number,
            base,
            place,
            entries,
        })
    }

    /// The image of entries that were captured in any order; None where it isn't lawful or a key comes
    /// twice. It sorts them in place, where they aren't in order, and takes no memory.
    pub fn captured(
        kind: Kind,
        number: u64,
        base: u64,
        place: u64,
        mut entries: Vec<Entry<A>, A>,
    ) -> Option<Self>
        ensures value { IfSome result (λ i. i ≡ of_captured kind number base place entries.items) }
        ensures lawful { IsSome result ↔ (EachKeyOnce entries.items × IsLawfulImage (of_captured kind number base place entries.items)) }
    {
        if keys_rise(entries.as_slice()) {
            return Image::of_rising(kind, number, base, place, entries);
        }
        sort_by_keys(&mut entries);
        Image::new(kind, number, base, place, entries)
    }

    pub fn kind(&self) -> Kind
        ensures { result ≡ self.now.kind }
    {
        self.kind
    }

    pub fn number(&self) -> u64
        ensures { result ≡ self.now.number }
    {
        self.number
    }

    /// The number of the image that is its base; in a full image its own.
    pub fn base(&self) -> u64
        ensures { result ≡ self.now.base }
    {
        self.base
    }

    /// How many records of the log stand before the checkpoint's cut.
    pub fn place(&self) -> u64
        ensures { result ≡ self.now.place }
    {
        self.place
    }

    /// Whether a table opens with this image: it is full, with number, base and place 0.
    pub fn is_opening(&self) -> bool
        ensures { result ≡ is_opening self.now }
    {
        match self.kind {
            Kind::Full => self.number == 0 && self.base == 0 && self.place == 0,
            Kind::Partial => false,
        }
    }

    /// The entries, in the byte order of their keys.
    pub fn entries(&self) -> &[Entry<A>]
        ensures value { result.now ≡ self.now.entries }
        ensures lawful { IsLawfulImage self.now }
    {
        self.entries.as_slice()
    }

    pub fn into_entries(self) -> Vec<Entry<A>, A>
        ensures { result.items ≡ self.entries }
    {
        let Image { entries, .. } = self;
        entries
    }

    /// What the image says of a key: a value, or gone; None where it doesn't name it. The time goes
    /// by the logarithm of the entries.
    pub fn get(&self, key: &Key) -> Option<&Option<Value<A>>>
        ensures { option_copied result ≡ change_at (changes_of self.now) key.now }
    {
        match self.entries.binary_search_by(|entry| compared(entry, key)) {
            Ok(at) => Some(&self.entries[at].cell),
            Err(_) => None,
        }
    }
}

/// A full image, of parts that are lawful.
pub(crate) fn full_of<A: Allocator>(number: u64, place: u64, entries: Vec<Entry<A>, A>) -> Image<A>
    requires { IsLawfulImage (record { kind = Full; number = number; base = number; place = place; entries = entries.items }) }
    ensures { result ≡ record { kind = Full; number = number; base = number; place = place; entries = entries.items } }
{
    Image {
        kind: Kind::Full,
        number,
        base: number,
        place,
        entries,
    }
}

fn present_entries<A: Allocator>(
    alloc: A,
    pairs: Vec<(Key, Value<A>), A>,
) -> Result<Vec<Entry<A>, A>, AllocError>
    ensures { IfOk result (λ entries. entries.items ≡ map (λ p. (p.0, Some p.1)) pairs.items) }
{
    pairs
        .into_iter()
        .map(|pair| Entry {
            key: pair.0,
            cell: Some(pair.1),
        })
        .collect(alloc)
}

/// The entries of a table, in the byte order of their keys.
pub(crate) fn entries_of_table<A: Allocator + Clone>(
    alloc: A,
    table: Table<A>,
) -> Result<Vec<Entry<A>, A>, NoMemory>
    ensures { IfOk result (λ entries. entries.items ≡ entries_of table) }
{
    let pairs = table.into_pairs(alloc.clone()?)?.into_vec();
    Ok(present_entries(alloc, pairs)?)
}

impl<A: Allocator + Clone> Image<A> {
    /// The image of an opening table: full, with number, base and place 0. With a refusal the table
    /// is given up.
    pub fn opening(alloc: A, table: Table<A>) -> Result<Self, OpeningError>
        ensures value { IfOk result (λ i. i ≡ full_image 0 0 table) }
        ensures too_many { (result ≡ Err refused.TooMany) ↔ (ENTRIES < finite.len table) }
    {
        if table.len() > ENTRIES {
            return Err(OpeningError::TooMany);
        }
        Ok(full_of(0, 0, entries_of_table(alloc, table)?))
    }
}
