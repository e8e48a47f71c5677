//! The checkpoint of a core, as it is kept.

ghost use Rattle.std.specs.Prelude.{◌≡◌, ◌≤◌, ◌||◌, [], is_some, suc};
ghost use Rattle.image.specs.Headers.{chain_digest, linked};
ghost use Rattle.image.specs.declared.limits.TheConstants.{ENTRIES};
ghost use Rattle.steps.specs.inside.CoreFields.{checkpoint_of};
ghost use Rattle.steps.specs.Openings.{no_checkpoint};

use crate::given::Given;
use image::{Entry, Header, Image, Kind, NO_ENTRIES, link};
use std::alloc::Allocator;

/// How the entries of a checkpoint leave the core.
#[derive(Clone, Copy, Debug, PartialEq, Eq)]
pub enum Way {
    /// All at the end, as an image.
    Whole,
    /// One by one, as its scan gives them, and a header at the end.
    Streamed,
}

/// How many entries a scan has sent, and the digest of their chain.
#[derive(Clone, Copy, Drop)]
pub(crate) struct Tally {
    pub(crate) count: usize,
    pub(crate) chain: [u8; 32],
}

impl Tally {
    /// Nothing was sent.
    pub(crate) fn none() -> Self
        ensures count { result.count ≡ 0 }
        ensures chain { result.chain ≡ chain_digest [] }
    {
        Tally {
            count: 0,
            chain: NO_ENTRIES,
        }
    }

    /// One entry more.
    pub(crate) fn and<A: Allocator>(&self, entry: &Entry<A>) -> Self
        requires { self.now.count ≤ ENTRIES }
        ensures count { result.count ≡ suc self.now.count }
        ensures chain { result.chain ≡ linked self.now.chain entry.now }
    {
        Tally {
            count: self.count + 1,
            chain: link(&self.chain, entry),
        }
    }
}

/// The checkpoint that runs, or the last one that ran.
#[derive(Drop)]
pub(crate) struct Checkpoint<A: Allocator> {
    pub(crate) kind: Kind,
    pub(crate) way: Way,
    /// 0 where none was started.
    pub(crate) number: u64,
    /// The number of the last one that was finished, 0 where none was.
    pub(crate) finished: u64,
    /// How many records of the log stand before its cut.
    pub(crate) place: u64,
    /// The place that its scan visits next: a slot, or the rank of a frozen key.
    pub(crate) cursor: usize,
    /// Where its scan ends.
    pub(crate) bound: usize,
    /// What its scan has captured, in the order of its places.
    pub(crate) captured: Vec<Entry<A>, A>,
    /// What its scan has sent.
    pub(crate) tally: Tally,
    /// The kind of the last scan.
    pub(crate) scan: Kind,
    /// What the last scan gave.
    pub(crate) given: Given<Entry<A>>,
    /// Its image, from its end until it is taken.
    pub(crate) waiting: Option<Image<A>>,
    /// Its header, from its end until it is taken.
    pub(crate) header: Option<Header>,
}

impl<A: Allocator> Checkpoint<A> {
    /// None was started. It takes no memory.
    pub(crate) fn none(alloc: A) -> Self
        ensures seen { checkpoint_of result ≡ no_checkpoint }
        ensures number { result.number ≡ 0 }
        ensures finished { result.finished ≡ 0 }
    {
        Checkpoint {
            kind: Kind::Full,
            way: Way::Whole,
            number: 0,
            finished: 0,
            place: 0,
            cursor: 0,
            bound: 0,
            captured: Vec::new(alloc),
            tally: Tally::none(),
            scan: Kind::Full,
            given: Given::nothing(),
            waiting: None,
            header: None,
        }
    }

    /// Whether its image waits to be taken, or its header.
    pub(crate) fn is_waiting(&self) -> bool
        ensures { result ≡ (is_some self.now.waiting || is_some self.now.header) }
    {
        self.waiting.is_some() || self.header.is_some()
    }
}
