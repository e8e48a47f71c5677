//! What lookers read, and what a publisher adds to it.

ghost use Rattle.std.specs.Prelude.{◌≡◌, ◌≤◌, ◌++◌, ◌∷◌, [], IfOk, IsSome, OnOk, OnErr, length};
ghost use Rattle.image.specs.Images.{IsLawfulImage};
ghost use Rattle.procedure.specs.Table.{value_at};
ghost use Rattle.view.specs.Shown.{number_of, shown};

use crate::histories::{Beginning, Naming};
use crate::rows::Rows;
use image::{Entry, Image, Kind};
use left_right::Absorb;
use procedure::{Key, Value};
use std::alloc::{AllocError, Allocator};
use std::marker::Model;

/// An image that was appended: the history before it and with it. Contracts see it as the image.
#[derive(Drop)]
pub struct Appended<J: Naming, A: Allocator> {
    image: Image<A>,
    before: Beginning<J, A>,
    with: Beginning<J, A>,
}

impl<J: Naming, A: Allocator> Model for Appended<J, A> {
    ghost use Rattle.std.specs.Prelude.{◌≡◌, ◌++◌, ◌∷◌, []};
    ghost use Rattle.image.specs.Images.{Image};

    ghost Value = { Image };

    ghost view = { λ a. a.image };

    ghost invariant = { λ a. a.with ≡ a.before ++ a.image ∷ [] };
}

impl<J: Naming, A: Allocator> Appended<J, A> {
    pub(crate) fn new(image: Image<A>, before: Beginning<J, A>, with: Beginning<J, A>) -> Self
        requires { with ≡ before ++ image ∷ [] }
        ensures { result ≡ image }
    {
        Appended {
            image,
            before,
            with,
        }
    }
}

/// What a list of images shows. Contracts see it as that list; it keeps none of the images.
#[derive(Drop)]
pub struct Shown<J: Naming, A: Allocator> {
    rows: Rows<A>,
    number: u64,
    pub(crate) images: Beginning<J, A>,
}

impl<J: Naming, A: Allocator> Model for Shown<J, A> {
    ghost use Rattle.std.specs.Prelude.{◌≡◌, List};
    ghost use Rattle.image.specs.Images.{Image};
    ghost use Rattle.view.specs.Shown.{number_of, shown};

    ghost Value = { List Image };

    ghost view = { λ s. s.images };

    ghost invariant = { λ s. (s.rows.table ≡ shown s.images) × (s.number ≡ number_of s.images) };
}

impl<J: Naming, A: Allocator + Copy> Shown<J, A> {
    /// What no image shows.
    pub(crate) fn new(alloc: A, none: Beginning<J, A>) -> Self
        requires { none ≡ [] }
        ensures { result ≡ [] }
    {
        Shown {
            rows: Rows::new(alloc),
            number: 0,
            images: none,
        }
    }
}

impl<J: Naming, A: Allocator> Shown<J, A> {
    /// The number of the last image; 0 where there is none.
    pub(crate) fn number(&self) -> u64
        ensures { result ≡ number_of self.now }
    {
        self.number
    }

    /// A copy of what a key holds.
    pub(crate) fn value(&self, key: &Key) -> Result<Option<Value<A>>, AllocError>
    where
        A: Clone,
        ensures value { IfOk result (λ value. value ≡ value_at (shown self.now) key.now) }
        ensures memory { OnErr result (IsSome (value_at (shown self.now) key.now)) }
    {
        match self.rows.get(key) {
            Some(value) => Ok(Some(value.clone()?)),
            None => Ok(None),
        }
    }
}

impl<J: Naming, A: Allocator + Copy> Absorb<Appended<J, A>> for Shown<J, A> {
    ghost use Rattle.std.specs.Prelude.{◌++◌, ◌∷◌, []};

    type State = [Image<A>; 0];

    ghost state = { λ s. s };

    ghost applied = { λ images appended. images ++ appended ∷ [] };

    // It copies all values and makes room before the first change.
    fn absorb_first(&mut self, appended: &Appended<J, A>, _other: &Self) -> Result<(), AllocError> {
        if !self.images.is(&appended.before) {
            return Err(AllocError);
        }
        let entries = appended.image.entries().to_vec(self.rows.allocator())?;
        let Shown {
            rows,
            number,
            images,
        } = self;
        rows.reserve(entries.len())?;
        rows.change(appended.image.kind(), entries);
        *number = appended.image.number();
        *images = appended.with.again();
        Ok(())
    }

    // It makes room before the first change, and takes the values over.
    fn absorb_second(
        &mut self,
        appended: Appended<J, A>,
        _other: &Self,
    ) -> Result<(), Appended<J, A>> {
        if !self.images.is(&appended.before) {
            return Err(appended);
        }
        let Shown {
            rows,
            number,
            images,
        } = self;
        if rows.reserve(appended.image.entries().len()).is_err() {
            return Err(appended);
        }
        let Appended {
            image,
            before: _,
            with,
        } = appended;
        *number = image.number();
        rows.change(image.kind(), image.into_entries());
        *images = with;
        Ok(())
    }
}
