//! Entries that stand in the bytes of an image.

ghost use Rattle.std.specs.Prelude.{◌≡◌, ◌<◌, length};
ghost use Rattle.image.specs.StoredEntries.{TakesFirst};
ghost use Rattle.image.specs.inside.Pieces.{AreThere, block_after, past_digest, pieces_in};

use crate::fronts::{Piece, entry_at};
use crate::limits::BLOCK;
use std::marker::Model;

/// The entries that stand in the bytes of an image, lawful or not, without their copies. Contracts see the
/// list of those that are still to come.
#[derive(Drop)]
pub(crate) struct Pieces<'a> {
    /// How many are still to come.
    left: usize,
    /// How many of them the block has that they begin in, which its digest follows.
    block: usize,
    rest: &'a [u8],
}

impl<'a> Model for Pieces<'a> {
    ghost use Rattle.std.specs.Prelude.{List};
    ghost use Rattle.image.specs.Images.{Entry};
    ghost use Rattle.image.specs.inside.Pieces.{AreThere, pieces_in};

    ghost Value = { List Entry };

    ghost view = { λ p. pieces_in p.left p.block p.rest.now };

    ghost invariant = { λ p. AreThere p.left p.block p.rest.now };
}

/// The bytes from the next entry on, and how many of its block are left behind it.
fn at_next(left: usize, block: usize, rest: &[u8]) -> (&[u8], usize)
    requires some { 0 < left }
    requires there { AreThere left block rest.now }
    ensures bytes { result.0.now ≡ past_digest block rest.now }
    ensures block { result.1 ≡ block_after left block }
{
    if block > 0 {
        return (rest, block - 1);
    }
    let (_digest, behind) = rest.split_at(32);
    (behind, left.min(BLOCK) - 1)
}

impl<'a> Pieces<'a> {
    pub(crate) fn new(left: usize, block: usize, rest: &'a [u8]) -> Self
        requires { AreThere left block rest.now }
        ensures { result ≡ pieces_in left block rest.now }
    {
        Pieces { left, block, rest }
    }

    /// How many are still to come.
    pub(crate) fn len(&self) -> usize
        ensures { result ≡ length self.now }
    {
        self.left
    }

    /// The same ones, from the next on.
    pub(crate) fn again(&self) -> Pieces<'a>
        ensures { result ≡ self.now }
    {
        Pieces {
            left: self.left,
            block: self.block,
            rest: self.rest,
        }
    }

    /// The next one, if there is one.
    pub(crate) fn next(&mut self) -> Option<Piece<'a>>
        ensures { TakesFirst self.old result self.new }
    {
        if self.left == 0 {
            return None;
        }
        let (bytes, block) = at_next(self.left, self.block, self.rest);
        let Some((piece, rest)) = entry_at(bytes) else {
            unreachable!();
        };
        self.left -= 1;
        self.block = block;
        self.rest = rest;
        Some(piece)
    }
}
