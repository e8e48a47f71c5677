//! Entries that stand in the bytes of an image that was checked.

ghost use Rattle.std.specs.Prelude.{◌≡◌, IfOk, OnErr, length};
ghost use Rattle.image.specs.ImageBytes.{IsWithin};
ghost use Rattle.std.specs.List.{AllByRecursion};
ghost use Rattle.image.specs.StoredEntries.{TakesFirst};
ghost use Rattle.procedure.specs.declared.limits.TheConstants.{VALUE_BYTES};

use crate::entries::Entry;
use crate::fronts::Piece;
use crate::pieces::Pieces;
use procedure::{Key, NoMemory, Value};
use std::alloc::Allocator;
use std::marker::Model;

/// The entries of an image that was checked, each made of the image's bytes when it is asked for.
/// Contracts see the list of those that are still to come.
#[derive(Drop)]
pub struct StoredEntries<'a> {
    pieces: Pieces<'a>,
}

impl<'a> Model for StoredEntries<'a> {
    ghost use Rattle.std.specs.Prelude.{List};
    ghost use Rattle.std.specs.List.{AllByRecursion};
    ghost use Rattle.procedure.specs.declared.limits.TheConstants.{VALUE_BYTES};
    ghost use Rattle.image.specs.ImageBytes.{IsWithin};
    ghost use Rattle.image.specs.Images.{Entry};

    ghost Value = { List Entry };

    ghost view = { λ s. s.pieces };

    ghost invariant = { λ s. AllByRecursion (IsWithin VALUE_BYTES) s.pieces };
}

/// The entry of a piece that fits.
fn entry_of<A: Allocator>(alloc: A, piece: &Piece<'_>) -> Result<Entry<A>, NoMemory>
    requires { IsWithin VALUE_BYTES piece.now }
    ensures { IfOk result (λ e. e ≡ piece.now) }
{
    let Some(key) = Key::new(piece.key) else {
        unreachable!();
    };
    let cell = match piece.cell {
        None => None,
        Some(bytes) => Value::from_slice(alloc, bytes)?,
    };
    Ok(Entry { key, cell })
}

impl<'a> StoredEntries<'a> {
    pub(crate) fn new(pieces: Pieces<'a>) -> Self
        requires { AllByRecursion (IsWithin VALUE_BYTES) pieces }
        ensures { result ≡ pieces.entry }
    {
        StoredEntries { pieces }
    }

    /// How many are still to come.
    pub fn len(&self) -> usize
        ensures { result ≡ length self.now }
    {
        self.pieces.len()
    }

    /// The same ones, from the next on.
    pub fn again(&self) -> StoredEntries<'a>
        ensures { result ≡ self.now }
    {
        StoredEntries {
            pieces: self.pieces.again(),
        }
    }

    /// The next one, if there is one. Where memory is refused, it is still to come.
    pub fn next<A: Allocator>(&mut self, alloc: A) -> Result<Option<Entry<A>>, NoMemory>
        ensures next { IfOk result (λ found. TakesFirst self.old found self.new) }
        ensures err { OnErr result (self.new ≡ self.old) }
    {
        let mut pieces = self.pieces.again();
        let Some(piece) = pieces.next() else {
            return Ok(None);
        };
        let made = entry_of(alloc, &piece)?;
        self.pieces = pieces;
        Ok(Some(made))
    }
}
