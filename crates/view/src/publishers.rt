//! What appends images and publishes them.

ghost use Rattle.std.specs.Prelude.{◌≡◌, ◌++◌, Some, codes};
ghost use Rattle.left_right.specs.Handles as handles;

use crate::histories::{Beginning, History, Naming};
use crate::limits::IMAGES;
use crate::lookers::Told;
use crate::tables::{Appended, Shown};
use image::{Image, Kind};
use left_right::{Absorb, WriteHandle};
use procedure::NoMemory;
use std::alloc::Allocator;
use std::collections::VecDeque;
use std::error::Error;
use std::fmt;
use std::marker::Model;
use std::sync::Wait;

/// Why an image isn't appended.
#[derive(Clone, Copy, Debug, PartialEq, Eq)]
pub enum AppendError {
    /// It is the first, and partial.
    NotFull,
    /// Its number is not above that of the image before it.
    Older,
    /// It is partial and stands on another image than the one before it.
    Gap,
    NoMemory,
}

impl fmt::Display for AppendError {
    ghost use Rattle.view.specs.Texts.{append_error_text};

    ghost output = { λ e. Some (append_error_text e) };

    fn fmt<W: fmt::Write>(&self, f: &mut fmt::Formatter<W>) -> fmt::Result {
        f.write_str(match self {
            AppendError::NotFull => "not full",
            AppendError::Older => "older",
            AppendError::Gap => "gap",
            AppendError::NoMemory => "no memory",
        })
    }
}

impl Error for AppendError {}

/// The images that were appended, of which it keeps the last one's number. Contracts see it as their list.
#[derive(Drop)]
struct Tip<J: Naming, A: Allocator> {
    images: Beginning<J, A>,
    last: Option<u64>,
}

impl<J: Naming, A: Allocator> Model for Tip<J, A> {
    ghost use Rattle.std.specs.Prelude.{◌≡◌, List};
    ghost use Rattle.image.specs.Images.{Image};
    ghost use Rattle.view.specs.Shown.{last_number};

    ghost Value = { List Image };

    ghost view = { λ t. t.images };

    ghost invariant = { λ t. t.last ≡ last_number t.images };
}

impl<J: Naming, A: Allocator> Tip<J, A> {
    ghost use Rattle.std.specs.Prelude.{◌≡◌, ◌<◌, ◌^◌, ◌++◌, ◌∷◌, [], length, IfNone, IfSome};
    ghost use Rattle.view.specs.Shown.{last_number, refusal_after};

    fn len(&self) -> u64
        ensures { result ≡ length self.now }
    {
        self.images.len()
    }

    /// Appends an image, where the history has no more images than this.
    fn append(&mut self, history: &History<J, A>, image: Image<A>) -> Option<Appended<J, A>>
        requires { length self.old < 2 ^ 62 }
        ensures image { IfSome result (λ appended. appended ≡ image) }
        ensures more { IfSome result (λ _. self.new ≡ self.old ++ image ∷ []) }
        ensures none { IfNone result (self.new ≡ self.old) }
    {
        let before = self.images.again();
        let with = before.with(history, &image)?;
        *self = Tip {
            images: with.again(),
            last: Some(image.number()),
        };
        Some(Appended::new(image, before, with))
    }

    /// Why an image may not be appended, out of memory apart.
    fn refusal(&self, image: &Image<A>) -> Option<AppendError>
        ensures { result ≡ refusal_after (last_number self.now) image.now }
    {
        match self.last {
            None => match image.kind() {
                Kind::Full => None,
                Kind::Partial => Some(AppendError::NotFull),
            },
            Some(last) if image.number() <= last => Some(AppendError::Older),
            Some(last) => match image.kind() {
                Kind::Full => None,
                Kind::Partial if image.base() == last => None,
                Kind::Partial => Some(AppendError::Gap),
            },
        }
    }
}

/// Appends images and publishes them. It may move to a thread of its own.
#[derive(Drop)]
pub struct Publisher<J: Naming, R: Wait + Drop, A: Allocator + Copy>
where
    Shown<J, A>: Absorb<Appended<J, A>>,
{
    writer: WriteHandle<Shown<J, A>, Appended<J, A>, R, A>,
    waiting: VecDeque<Appended<J, A>, A>,
    history: History<J, A>,
    tip: Tip<J, A>,
    ghost all: { tip ≡ handles.published writer ++ (handles.pending writer ++ waiting.items) },
}

impl<J: Naming, R: Wait + Drop, A: Allocator + Copy> Publisher<J, R, A> {
    ghost use Rattle.std.specs.Prelude.{◌≡◌, [], ◌∷◌, ◌++◌, OnOk, OnErr, MatchResult};
    ghost use Rattle.view.specs.Shown.{Answers, last_number, refusal_after};
    ghost use Rattle.left_right.specs.Handles as handles;
    ghost use Rattle.view.specs.Views.{published, pending};

    pub(crate) fn new(
        writer: WriteHandle<Shown<J, A>, Appended<J, A>, R, A>,
        alloc: A,
        history: History<J, A>,
        images: Beginning<J, A>,
    ) -> Self
        requires writer { (handles.published writer ≡ []) × (handles.pending writer ≡ []) }
        requires images { images ≡ [] }
        ensures published { published result ≡ [] }
        ensures pending { pending result ≡ [] }
    {
        Publisher {
            writer,
            waiting: VecDeque::new(alloc),
            history,
            tip: Tip { images, last: None },
        }
    }

    /// Appends an image to those that are pending. It waits for nobody.
    pub fn append(&mut self, image: Image<A>) -> Result<(), AppendError>
        ensures published { published self.new ≡ published self.old }
        ensures ok { OnOk result (pending self.new ≡ pending self.old ++ image ∷ []) }
        ensures err { OnErr result (pending self.new ≡ pending self.old) }
        ensures answer { Answers (refusal_after (last_number (published self.old ++ pending self.old)) image) result }
    {
        if let Some(refusal) = self.tip.refusal(&image) {
            return Err(refusal);
        }
        if self.tip.len() >= IMAGES {
            return Err(AppendError::NoMemory);
        }
        if self.waiting.reserve(1).is_err() {
            return Err(AppendError::NoMemory);
        }
        let Some(appended) = self.tip.append(&self.history, image) else {
            return Err(AppendError::NoMemory);
        };
        self.waiting.push_back_reserved(appended);
        Ok(())
    }

    // Hands what waits to the writer.
    fn hand_over(&mut self) -> Result<(), NoMemory>
        ensures published { published self.new ≡ published self.old }
        ensures pending { pending self.new ≡ pending self.old }
        ensures ok { OnOk result (self.new.waiting.items ≡ []) }
    {
        while let Some(appended) = self.waiting.pop_front() {
            if let Err(appended) = self.writer.append(appended) {
                self.waiting.push_front_reserved(appended);
                return Err(NoMemory);
            }
        }
        self.waiting = VecDeque::new(*self.waiting.allocator());
        Ok(())
    }

    /// Publishes what is pending. It waits for lookers that still read the table from before the last
    /// publication.
    pub fn publish(&mut self) -> Result<(), NoMemory>
        ensures ok { OnOk result ((published self.new ≡ published self.old ++ pending self.old) × (pending self.new ≡ [])) }
        ensures err { OnErr result ((published self.new ≡ published self.old) × (pending self.new ≡ pending self.old)) }
    {
        self.hand_over()?;
        Ok(self.writer.publish()?)
    }

    /// The images that are published, for a looker to learn. It waits for nobody and takes no memory.
    pub fn tell(&self) -> Told<J, A>
        ensures { result ≡ published self.now }
    {
        Told::new(self.writer.published().images.again())
    }
}
