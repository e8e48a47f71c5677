//! What looks keys up, in any thread and without waiting.

ghost use Rattle.std.specs.Prelude.{◌≡◌, ◌⊎◌, IfOk, IfErr, IfSome, Some, codes};
ghost use mathlib.Core.List.{IsPrefix};
ghost use Rattle.procedure.specs.Table.{value_at};
ghost use Rattle.view.specs.Shown.{HoldsLater, number_of, shown};
ghost use Rattle.view.specs.declared.lookers.LookError.TheVariants as refused;

use crate::histories::{Beginning, Naming};
use crate::tables::Shown;
use left_right::ReadHandle;
use procedure::{Key, Value};
use std::alloc::Allocator;
use std::error::Error;
use std::fmt;
use std::marker::Model;

/// Published images that a looker has seen. Contracts see it as their list; it keeps none of them, and
/// takes no memory.
#[derive(Drop)]
pub struct Seen<J: Naming, A: Allocator> {
    images: Beginning<J, A>,
}

impl<J: Naming, A: Allocator> Model for Seen<J, A> {
    ghost use Rattle.std.specs.Prelude.{List};
    ghost use Rattle.image.specs.Images.{Image};

    ghost Value = { List Image };

    ghost view = { λ s. s.images };
}

/// The images that were published when it was told. Contracts see it as their list.
#[derive(Drop)]
pub struct Told<J: Naming, A: Allocator> {
    images: Beginning<J, A>,
}

impl<J: Naming, A: Allocator> Model for Told<J, A> {
    ghost use Rattle.std.specs.Prelude.{List};
    ghost use Rattle.image.specs.Images.{Image};

    ghost Value = { List Image };

    ghost view = { λ t. t.images };
}

impl<J: Naming, A: Allocator> Seen<J, A> {
    pub(crate) fn new(images: Beginning<J, A>) -> Self
        ensures { result ≡ images }
    {
        Seen { images }
    }

    /// What was seen by two lookers, as one: the longer of both lists, which both begin.
    pub fn longer(self, other: Self) -> Self
        ensures this { IsPrefix self result }
        ensures that { IsPrefix other result }
        ensures one { (result ≡ self) ⊎ (result ≡ other) }
    {
        Seen::new(self.images.longer(other.images))
    }
}

impl<J: Naming, A: Allocator> Told<J, A> {
    pub(crate) fn new(images: Beginning<J, A>) -> Self
        ensures { result ≡ images }
    {
        Told { images }
    }
}

/// There was no looker to be had: as many as a view may have are in use, some come and go at the same
/// time, or there was no memory.
#[derive(Clone, Copy, Debug, PartialEq, Eq)]
pub struct NoLooker;

impl fmt::Display for NoLooker {
    ghost output = { λ _. Some (codes "no looker") };

    fn fmt<W: fmt::Write>(&self, f: &mut fmt::Formatter<W>) -> fmt::Result {
        f.write_str("no looker")
    }
}

impl Error for NoLooker {}

/// Why a looker got no answer.
#[derive(Clone, Copy, Debug, PartialEq, Eq)]
pub enum LookError {
    NoMemory,
    /// The table was not open to this looker, as after its publisher was dropped. No clause says when.
    NotEntered,
}

impl fmt::Display for LookError {
    ghost use Rattle.view.specs.Texts.{look_error_text};

    ghost output = { λ e. Some (look_error_text e) };

    fn fmt<W: fmt::Write>(&self, f: &mut fmt::Formatter<W>) -> fmt::Result {
        f.write_str(match self {
            LookError::NoMemory => "no memory",
            LookError::NotEntered => "not entered",
        })
    }
}

impl Error for LookError {}

/// A key that was looked up.
#[derive(Drop)]
pub struct Answer<J: Naming, A: Allocator> {
    /// The number of the last image that is seen; 0 where none is.
    pub number: u64,
    /// What the key holds in the table that these images show.
    pub value: Option<Value<A>>,
    /// The images that are seen now.
    pub seen: Seen<J, A>,
}

/// A key that wasn't looked up, and what was seen before.
#[derive(Drop)]
pub struct NoAnswer<J: Naming, A: Allocator> {
    pub error: LookError,
    pub seen: Seen<J, A>,
}

/// Looks keys up, as long as its publisher isn't dropped. It may move to a thread of its own.
#[derive(Drop)]
pub struct Looker<J: Naming, A: Allocator> {
    handle: ReadHandle<Shown<J, A>, A>,
}

impl<J: Naming, A: Allocator> Looker<J, A> {
    pub(crate) fn new(handle: ReadHandle<Shown<J, A>, A>) -> Self {
        Looker { handle }
    }

    /// Another looker, and a copy of what was seen. It waits for nobody.
    pub fn another(&self, seen: &Seen<J, A>) -> Result<(Looker<J, A>, Seen<J, A>), NoLooker>
        ensures { IfOk result (λ other. other.1 ≡ seen.now) }
    {
        match self.handle.clone() {
            Ok(handle) => Ok((Looker { handle }, Seen::new(seen.images.again()))),
            Err(_) => Err(NoLooker),
        }
    }

    /// What was seen and what was told, as one: the longer of both lists, which both begin. It waits for
    /// nobody and takes no memory.
    pub fn learn(&self, seen: Seen<J, A>, told: Told<J, A>) -> Seen<J, A>
        ensures seen { IsPrefix seen result }
        ensures told { IsPrefix told result }
        ensures one { (result ≡ seen) ⊎ (result ≡ told) }
    {
        Seen::new(seen.images.longer(told.images))
    }
}

impl<J: Naming, A: Allocator + Clone> Looker<J, A> {
    /// What a key holds in the table that is published: one look-up, and a copy of the value. The images
    /// that are seen then begin with those seen before. It waits for nobody.
    ///
    /// It returns `NoMemory` where the key holds a value that wasn't copied, and `NotEntered` where the table
    /// isn't open to this looker: a looker that outlives its publisher gets nothing more. Both hand `seen`
    /// back as it was.
    pub fn get(&mut self, seen: Seen<J, A>, key: &Key) -> Result<Answer<J, A>, NoAnswer<J, A>>
        ensures later { IfOk result (λ a. IsPrefix seen a.seen) }
        ensures number { IfOk result (λ a. a.number ≡ number_of a.seen) }
        ensures value { IfOk result (λ a. a.value ≡ value_at (shown a.seen) key.now) }
        ensures err { IfErr result (λ e. e.seen ≡ seen) }
        ensures memory { IfErr result (λ e. e.error ≡ refused.NoMemory → HoldsLater seen key.now) }
    {
        let Some(table) = self.handle.enter() else {
            return Err(NoAnswer {
                error: LookError::NotEntered,
                seen,
            });
        };
        if !seen.images.begins(&table.images) {
            return Err(NoAnswer {
                error: LookError::NotEntered,
                seen,
            });
        }
        match table.value(key) {
            Ok(value) => Ok(Answer {
                number: table.number(),
                value,
                seen: Seen::new(table.images.again()),
            }),
            Err(_) => Err(NoAnswer {
                error: LookError::NoMemory,
                seen,
            }),
        }
    }
}
