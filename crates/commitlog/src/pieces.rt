//! What takes bytes in pieces: a vector, or a writer with a hasher beside it.

ghost use Rattle.std.specs.Prelude.{◌≡◌};
ghost use Rattle.byteorder.specs.Endian.{big_bytes};

use byteorder::{BigEndian, ByteOrder};
use std::alloc::Allocator;

/// Takes bytes in pieces. A piece that can't be taken is told at the end, and not by each call.
pub(crate) trait Pieces {
    ghost use Rattle.std.specs.Prelude.{[], ◌++◌, List, ℕ};

    /// What comes of one that takes these bytes.
    ghost Takes: { Self → Self → List ℕ → Type 0 };

    fn take(&mut self, bytes: &[u8])
        ensures { Takes self.old self.new bytes.now };

    ghost nothing: { (a : Self) → Takes a a [] };

    ghost more: { (a b c : Self) (x y : List ℕ) → Takes a b x → Takes b c y → Takes a c (x ++ y) };
}

/// A piece that doesn't fit in memory isn't there, which the length tells.
impl<A: Allocator> Pieces for Vec<u8, A> {
    ghost use Rattle.commitlog.specs.Pieces.{Grows};
    ghost use Rattle.commitlog.specs.PieceLaws.{grows_more, grows_nothing};

    ghost Takes = { λ old new x. Grows old.items new.items x };

    ghost nothing = { λ a. grows_nothing a.items };

    ghost more = { λ a b c x y f g. grows_more a.items b.items c.items x y f g };

    fn take(&mut self, bytes: &[u8]) {
        let _taken = self.extend_from_slice(bytes);
    }
}

/// Hands over a number as 2 bytes, the highest first.
pub(crate) fn take_u16<P: Pieces>(out: &mut P, number: u16)
    ensures { P.Takes out.old out.new (big_bytes 2 number) }
{
    let mut bytes = [0u8; 2];
    BigEndian::write_u16(&mut bytes, number);
    out.take(&bytes);
}

/// Hands over a number as 8 bytes, the highest first.
pub(crate) fn take_u64<P: Pieces>(out: &mut P, number: u64)
    ensures { P.Takes out.old out.new (big_bytes 8 number) }
{
    let mut bytes = [0u8; 8];
    BigEndian::write_u64(&mut bytes, number);
    out.take(&bytes);
}
