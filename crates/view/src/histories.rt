//! The history of a view: the images that were ever appended, in order. It exists in proofs alone. What
//! threads share of it is a word, its length, and each of them holds beginnings of it.

ghost use Rattle.std.specs.Prelude.{◌≡◌, ◌<◌, ◌^◌, ◌++◌, ◌∷◌, ◌⊎◌, [], length, MatchBool, IsTrue, IfSome};
ghost use mathlib.Core.List.{IsPrefix};
ghost use Rattle.view.specs.Histories.{length_word};

use image::Image;
use logbook::{Gain, Offer, Plain, Play, Rule, Seen, Start, Word};
use std::alloc::Allocator;
use std::marker::{Brand, Model, PhantomData};

/// The rule of the history: the word is its length.
pub struct Counted;

impl<A: Allocator> Rule<Image<A>, u64> for Counted {
    ghost use Rattle.std.specs.Prelude.{[]};
    ghost use base.Fml.{ftrue};
    ghost use Rattle.view.specs.Histories.{IsCounted};

    ghost holds = { λ cells log. IsCounted cells log };

    ghost first = { [] };

    ghost hinted = { λ n log. Unit {0} };

    ghost shows = { λ log. [] };

    ghost keeps = { λ names log. ftrue };

    ghost moves = { λ ask before after answer. Unit {0} };
}

/// Those who append keep nothing beside the history.
pub struct Nothing;

impl<A: Allocator> Gain<Image<A>, u64> for Nothing {
    ghost use base.Fml.{ftrue};

    ghost after = { λ names about answer. ftrue };
}

/// The step that appends an image.
pub struct Append;

impl<A: Allocator> Play<Image<A>, u64> for Append {
    ghost use Rattle.view.specs.Histories.{Appends};

    ghost then = { Appends };
}

impl<A: Allocator> Plain<Image<A>, Image<A>, u64> for Append {
    ghost use Rattle.std.specs.Prelude.{None};

    ghost ask = { λ image. image };

    ghost state = { λ image. None };
}

/// Names a view, so that the types of its publisher, lookers and lists belong together. No value of it is
/// made. The function that opens the view picks the name, as `Brand` where its own caller gives none.
pub trait Naming {
    ghost use Rattle.logbook.specs.Pages.{Book};

    ghost book: { Book };
}

impl Naming for Brand {
    ghost book = { record { number = 0; log_name = 0; cells_name = 0 } };
}

/// An empty history, which has no name yet. A view is opened of it.
#[derive(Drop)]
pub struct Opened<A: Allocator> {
    word: Word<Image<A>, u64, Counted>,
    seen: Seen<Image<A>, u64, Counted>,
    pub ghost empty: { seen.log ≡ [] },
    pub ghost word_is: { word ≡ length_word seen.book },
}

impl<A: Allocator> Opened<A> {
    ghost use Rattle.view.specs.Views.{name_of};

    /// A history without images. It takes no memory.
    pub fn new() -> Self {
        let (seen, mut first, _second) = Seen::open(Start::alone(), 0, 0);
        Opened {
            word: Word::tracked(0, &mut first),
            seen,
        }
    }

    /// The history by its name, and its beginning.
    pub(crate) fn named<J: Naming>(self) -> (History<J, A>, Beginning<J, A>)
        requires { name_of self ≡ J.book }
        ensures { result.1 ≡ [] }
    {
        let Opened { word, seen } = self;
        (
            History {
                word,
                name: PhantomData,
            },
            Beginning {
                len: 0,
                seen,
                name: PhantomData,
            },
        )
    }
}

/// What threads share of a history: the word that is its length.
#[derive(Drop)]
pub(crate) struct History<J: Naming, A: Allocator> {
    word: Word<Image<A>, u64, Counted>,
    name: PhantomData<J>,
}

impl<J: Naming, A: Allocator> Model for History<J, A> {
    ghost use Rattle.std.specs.Prelude.{◌≡◌};
    ghost use Rattle.view.specs.Histories.{length_word};

    ghost Value = { Unit {0} };

    ghost view = { λ h. tt };

    ghost invariant = { λ h. h.word ≡ length_word J.book };
}

/// A beginning of a history. Contracts see it as its images; it takes no memory for them.
#[derive(Drop)]
pub struct Beginning<J: Naming, A: Allocator> {
    len: u64,
    seen: Seen<Image<A>, u64, Counted>,
    name: PhantomData<J>,
}

impl<J: Naming, A: Allocator> Model for Beginning<J, A> {
    ghost use Rattle.std.specs.Prelude.{◌≡◌, List, length};
    ghost use Rattle.image.specs.Images.{Image};

    ghost Value = { List Image };

    ghost view = { λ b. b.seen.log };

    ghost invariant = { λ b. (b.len ≡ length b.seen.log) × (b.seen.book ≡ J.book) };
}

impl<J: Naming, A: Allocator> Beginning<J, A> {
    pub(crate) fn len(&self) -> u64
        ensures { result ≡ length self.now }
    {
        self.len
    }

    pub(crate) fn again(&self) -> Self
        ensures { result ≡ self.now }
    {
        Beginning {
            len: self.len,
            seen: self.seen.again(),
            name: PhantomData,
        }
    }

    /// Whether it begins the other, of which it then has the first images.
    pub(crate) fn begins(&self, other: &Self) -> bool
        ensures { MatchBool result (IsPrefix self.now other.now) (IsPrefix other.now self.now) }
    {
        let mut both = self.seen.again();
        both.learn(&other.seen);
        if self.len <= other.len { true } else { false }
    }

    /// Whether it is the other.
    pub(crate) fn is(&self, other: &Self) -> bool
        ensures { IsTrue result → self.now ≡ other.now }
    {
        let mut both = self.seen.again();
        both.learn(&other.seen);
        if self.len == other.len { true } else { false }
    }

    /// The longer of two, which both begin.
    pub(crate) fn longer(self, other: Self) -> Self
        ensures one { (result ≡ self) ⊎ (result ≡ other) }
        ensures this { IsPrefix self result }
        ensures that { IsPrefix other result }
    {
        if self.begins(&other) { other } else { self }
    }

    /// The history with an image more, where it has no more images than this. Where it has, nothing is
    /// appended.
    pub(crate) fn with(&self, history: &History<J, A>, image: &Image<A>) -> Option<Self>
        requires { length self.now < 2 ^ 62 }
        ensures { IfSome result (λ longer. longer ≡ self.now ++ image.now ∷ []) }
    {
        let mut seen = self.seen.again();
        let mut offer: Offer<Image<A>, u64, Counted, Nothing> = seen.plain::<
            Nothing,
            Image<A>,
            Append,
        >(image);
        let mut pen = seen.no_pen();
        let len = self.len;
        let found = history
            .word
            .compare_exchange::<Append, Nothing>(len, len + 1, &mut seen, &mut offer, &mut pen);
        if found != len {
            return None;
        }
        Some(Beginning {
            len: len + 1,
            seen,
            name: PhantomData,
        })
    }
}
