//! Keys, held inline.

ghost use Rattle.std.specs.Prelude.{◌≡◌, ◌<◌, ◌≤◌, ◌+◌, [], ◌∷◌, ◌++◌, length, take, drop, slice_index, ℕ, IfSome, IsSome, IsTrue, ◌↔◌, Some, refl, nat_eq};
ghost use Rattle.std.specs.Ordering.{nat_cmp};
ghost use Rattle.std.specs.Cmp.Lexicographic.{pointwise, slice_cmp, nat_list_eq_equiv, nat_list_cmp_total, texts_ties, texts_po};
ghost use Rattle.std.specs.Cmp.{partial_equiv_from_equiv};
ghost use Rattle.std.specs.Cmp.Rules.{hashing};
ghost use Rattle.std.proofs.Common.{rules};
ghost use Rattle.byteorder.specs.Endian.{big_from};

use crate::limits::KEY_BYTES;
use byteorder::{BigEndian, ByteOrder};
use std::cmp::Ordering;
use std::hash::{Hash, Hasher};
use std::marker::Model;

/// How many places are compared at once.
const WORD_BYTES: usize = 8;

/// A key of 1 to 32 bytes, seen by contracts as the list of them. It is compared and hashed as its
/// bytes, and takes no memory beside itself.
#[derive(Clone, Copy, Debug)]
pub struct Key {
    bytes: [u8; KEY_BYTES],
    len: u8,
}

impl Model for Key {
    ghost use Rattle.std.specs.Coded.{coded_list, coded_ℕ};
    ghost use Rattle.procedure.specs.Bytes.{Bytes};

    ghost Value = { Bytes };

    ghost coded = { coded_list coded_ℕ };

    ghost use Rattle.procedure.specs.Keys.{key_bytes, IsPacked, packed, packed-key_bytes};

    ghost view = { key_bytes };

    ghost invariant = { IsPacked };

    ghost inverse = { packed };

    ghost inverse_ok = { packed-key_bytes };
}

/// The number in the eight places from here on.
#[inline(always)]
fn number_in(places: &[u8], from: usize) -> u64
    requires { from + WORD_BYTES ≤ length places.now }
    ensures value { result ≡ big_from from WORD_BYTES places.now }
    ensures bytes { (i : ℕ) → slice_index places.now i < 256 }
{
    BigEndian::read_u64(&places[from..])
}

impl Key {
    /// Whether these are 1 to 32 bytes, as those of a key.
    #[inline]
    pub(crate) fn fits(bytes: &[u8]) -> bool
        ensures { IsTrue result ↔ ((0 < length bytes.now) × (length bytes.now ≤ KEY_BYTES)) }
    {
        !bytes.is_empty() && bytes.len() <= KEY_BYTES
    }

    /// The key of these bytes; None where they are none or more than 32.
    #[inline]
    pub fn new(bytes: &[u8]) -> Option<Key>
        ensures value { IfSome result (λ k. k ≡ bytes.now) }
        ensures fits { IsSome result ↔ ((0 < length bytes.now) × (length bytes.now ≤ KEY_BYTES)) }
    {
        if !Key::fits(bytes) {
            return None;
        }
        let mut places = [0u8; KEY_BYTES];
        places[..bytes.len()].copy_from_slice(bytes);
        Some(Key {
            bytes: places,
            len: bytes.len() as u8,
        })
    }

    #[inline]
    pub fn as_bytes(&self) -> &[u8]
        ensures value { result.now ≡ self.now }
        ensures not_empty { 0 < length self.now }
        ensures fits { length self.now ≤ KEY_BYTES }
    {
        &self.bytes[..self.len as usize]
    }

    /// The eight places from here on as one number, which is in the order of their bytes.
    #[inline(always)]
    fn word(&self, from: usize) -> u64
        requires { from + WORD_BYTES ≤ KEY_BYTES }
        ensures value { result ≡ big_from from WORD_BYTES self.now }
        ensures bytes { (i : ℕ) → slice_index self.now i < 256 }
    {
        number_in(&self.bytes, from)
    }

    /// How two keys compare whose first eight places are the same.
    #[inline(never)]
    fn cmp_behind(&self, other: &Key) -> Ordering
        requires { (i : ℕ) → i < WORD_BYTES → slice_index self.now i ≡ slice_index other.now i }
        ensures { result ≡ slice_cmp nat_cmp self.now other.now }
    {
        let mut from = WORD_BYTES;
        while from < KEY_BYTES {
            let (one, two) = (self.word(from), other.word(from));
            if one != two {
                return one.cmp(&two);
            }
            from += WORD_BYTES;
        }
        // The places behind a key's bytes are 0, so its length decides where all are the same.
        self.len.cmp(&other.len)
    }
}

impl PartialEq for Key {
    ghost eq = { pointwise nat_eq };

    ghost laws = { partial_equiv_from_equiv nat_list_eq_equiv };

    #[inline]
    fn eq(&self, other: &Self) -> bool {
        // Word by word, since the order that `cmp` finds out isn't asked for.
        let mut from = 0;
        while from < KEY_BYTES {
            if self.word(from) != other.word(from) {
                return false;
            }
            from += WORD_BYTES;
        }
        self.len == other.len
    }
}

impl Eq for Key {
    ghost laws = { nat_list_eq_equiv };
}

impl PartialOrd for Key {
    ghost partial_cmp = { λ x y. Some (slice_cmp nat_cmp x y) };

    ghost laws = { texts_po };

    #[inline]
    fn partial_cmp(&self, other: &Self) -> Option<Ordering> {
        Some(self.cmp(other))
    }
}

impl Ord for Key {
    ghost cmp = { slice_cmp nat_cmp };

    ghost total = { nat_list_cmp_total };

    ghost matches_partial_cmp = { λ x y. refl };

    ghost matches_eq = { texts_ties };

    #[inline]
    fn cmp(&self, other: &Self) -> Ordering {
        let (one, two) = (self.word(0), other.word(0));
        if one != two {
            return one.cmp(&two);
        }
        self.cmp_behind(other)
    }
}

impl Hash for Key {
    ghost hash_input = { λ k. k ∷ [] };

    ghost respects_eq = { Prim.search (hashing, rules) };

    #[inline]
    fn hash<H: Hasher>(&self, state: &mut H) {
        state.write(self.as_bytes());
    }
}
