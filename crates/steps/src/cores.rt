//! The core.

ghost use Rattle.std.specs.Prelude.{◌≡◌, ◌≤◌, length, true};
ghost use Rattle.commitlog.specs.Histories.{IsCyclic, IsLegal, IsOrderly, phase_of};
ghost use Rattle.commitlog.specs.declared.limits.TheConstants.{LOG_RECORDS};
ghost use Rattle.procedure.specs.declared.limits.TheConstants.{SESSIONS};
ghost use Rattle.image.specs.Merges.{table_of};
ghost use Rattle.image.specs.Openings.{is_opening};
ghost use Rattle.steps.specs.CoreViews.{IsSmall};

use crate::calls::OpenCall;
use crate::checkpoints::Checkpoint;
use crate::notes::Rooms;
use crate::reclaiming::Aside;
use commitlog::{Log, Record};
use image::Image;
use locktable::LockTable;
use phase::{Active, Phase};
use procedure::Catalog;
use record_store::{Changed, Store};
use std::alloc::Allocator;
use std::marker::Model;

/// The engine's core: it runs the calls of 64 sessions, instruction by instruction, under strict
/// two-phase locking, and answers each finished call with its place in the commit log.
#[derive(Drop)]
pub struct Core<A: Allocator> {
    pub(crate) alloc: A,
    pub(crate) catalog: Catalog<A>,
    pub(crate) opening: Image<A>,
    pub(crate) log: Log<A>,
    pub(crate) store: Store<A>,
    pub(crate) locks: LockTable<A>,
    pub(crate) changed: Changed<A>,
    pub(crate) calls: Vec<Option<OpenCall<A>>, A>,
    pub(crate) rooms: Rooms<A>,
    pub(crate) active: Active,
    pub(crate) last: Vec<Option<u64>, A>,
    pub(crate) phase: Phase,
    pub(crate) checkpoint: Checkpoint<A>,
    pub(crate) aside: Aside,
}

impl<A: Allocator> Model for Core<A> {
    ghost use Rattle.steps.specs.CoreViews.{CoreView};

    ghost Value = { CoreView };

    ghost use Rattle.steps.specs.inside.CoreFields.{view_of, IsCore};

    ghost view = { view_of };

    ghost invariant = { IsCore };
}

impl<A: Allocator> Core<A> {
    /// The phase of the running checkpoint, or rest.
    pub fn phase(&self) -> Phase
        ensures value { result ≡ phase_of self.now.log }
        ensures sessions { length self.now.calls ≡ SESSIONS }
    {
        self.phase
    }

    /// The records of the log, the oldest first. They are one history of one thread: calls that were
    /// run whole, one after another, from the opening, each leaving at most 100,000 keys.
    pub fn records(&self) -> &[Record<A>]
        ensures value { result.now ≡ self.now.log }
        ensures most { length self.now.log ≤ LOG_RECORDS }
        ensures sessions { length self.now.calls ≡ SESSIONS }
        ensures legal { IsLegal self.now.catalog (table_of self.now.opening) self.now.log }
        ensures orderly { IsOrderly self.now.log }
        ensures cyclic { IsCyclic self.now.log }
        ensures small { IsSmall self.now.catalog (table_of self.now.opening) self.now.log }
    {
        self.log.records()
    }

    /// How many slots the store has.
    pub fn slots(&self) -> usize
        ensures { result ≡ length self.now.slots }
    {
        self.store.slots()
    }

    /// The procedures that calls name by their index.
    pub fn catalog(&self) -> &Catalog<A>
        ensures { result.now ≡ self.now.catalog }
    {
        &self.catalog
    }

    /// The image that it was opened from.
    pub fn opening(&self) -> &Image<A>
        ensures value { result.now ≡ self.now.opening }
        ensures opens { is_opening self.now.opening ≡ true }
    {
        &self.opening
    }
}
