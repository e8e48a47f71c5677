//! How the scan of a checkpoint goes.

ghost use Rattle.std.specs.Prelude.{◌≡◌, ◌≤◌, ◌++◌, ◌+◌, [], ℕ, IfOk, IfSome, None, OnErr, OnOk, Some, length, vec_capacity, vec_len};
ghost use Rattle.std.specs.Result.{result_err};
ghost use Rattle.phase.specs.declared.phases.Phase.TheVariants.{Capture, Resolve};
ghost use Rattle.procedure.specs.Bytes.{Bytes};
ghost use Rattle.commitlog.specs.Histories.{phase_of};
ghost use Rattle.record_store.specs.Stores.{changed, key_at, record_at};
ghost use Rattle.steps.specs.Checkpointing.{CapturesAs};
ghost use Rattle.steps.specs.inside.NextPhases.{Enters};
ghost use Rattle.steps.specs.inside.RecordEdits.{IsFound, captured, edited, given_by};
ghost use Rattle.steps.specs.Versions.{given_of, is_kept, kept_of, versions_in};
ghost use Rattle.steps.specs.Refusals.{Answers, advance_refusal, capture_refusal, scan_refusal};
ghost use Rattle.steps.specs.inside.CheckpointFields.{places, spots};
ghost use Rattle.steps.specs.inside.Spots.{VisitsKey, key_of_spot};
ghost use Rattle.steps.specs.declared.errors.CaptureError.TheVariants as capturing;

use crate::checkpointing::push_token;
use crate::checkpoints::{Tally, Way};
use crate::cores::Core;
use crate::edits::copy_of;
use crate::errors::CaptureError;
use crate::errors::CaptureError::{NotCapturing, WrongWay};
use crate::given::Given;
use image::{Entry, Kind};
use phase::Phase;
use procedure::{Key, NoMemory};
use record_store::{Changed, Record, Stable, Store};
use std::alloc::Allocator;

/// How a capture is answered.
#[derive(Clone, Copy, Debug, PartialEq, Eq)]
pub enum Captured {
    /// One place of the scan was visited.
    Slot,
    /// The scan has no places left.
    Done,
}

/// The key whose record a slot holds.
pub(crate) fn key_in<A: Allocator>(store: &Store<A>, slot: usize) -> Option<Key>
    ensures { result ≡ key_at store.now slot }
{
    match store.slot(slot) {
        Some(Record { key, .. }) => Some(key),
        None => None,
    }
}

/// How many places a scan visits: slots, or frozen keys.
fn places<A: Allocator>(kind: Kind, store: &Store<A>, changed: &Changed<A>) -> usize
    ensures { result ≡ places kind store.now changed.now.frozen }
{
    match kind {
        Kind::Full => store.slots(),
        Kind::Partial => changed.frozen_count(),
    }
}

/// How many entries a scan is likely to capture: one of each live record, or of each frozen key; none
/// where they are sent.
fn likely_count<A: Allocator>(
    way: Way,
    kind: Kind,
    store: &Store<A>,
    changed: &Changed<A>,
) -> usize {
    match (way, kind) {
        (Way::Streamed, _) => 0,
        (Way::Whole, Kind::Full) => store.live_count(),
        (Way::Whole, Kind::Partial) => changed.frozen_count(),
    }
}

/// Empties the list of what a scan captures, and makes room in it for so many entries.
fn make_room<A: Allocator>(captured: &mut Vec<Entry<A>, A>, count: usize) -> Result<(), NoMemory>
    ensures { captured.new.items ≡ [] }
{
    captured.clear();
    Ok(captured.reserve_exact(count)?)
}

/// Sorts the frozen keys, where they are the places of a scan.
fn order_places<A: Allocator>(kind: Kind, changed: &mut Changed<A>)
    ensures { changed.new ≡ changed.old }
{
    match kind {
        Kind::Full => {}
        Kind::Partial => changed.sort_frozen(),
    }
}

/// Where a scan stands: at a key, whose record is in `slot` if it has one.
#[derive(Clone, Copy)]
pub(crate) struct Spot {
    key: Key,
    pub(crate) slot: Option<usize>,
}

/// Where a scan stands at a place: at the record of a slot, or at one of the frozen keys in their order.
pub(crate) fn spot_at<A: Allocator>(
    kind: Kind,
    store: &Store<A>,
    changed: &mut Changed<A>,
    place: usize,
) -> Option<Spot>
    ensures key { key_of_spot result ≡ spots kind store.now changed.old.frozen place }
    ensures found { IfSome result (λ s. IsFound store.now s.key s.slot) }
    ensures same { changed.new ≡ changed.old }
{
    match kind {
        Kind::Full => {
            // Brings in that no two slots have the same key.
            let _candidate = store.least_candidate();
            let key = key_in(store, place)?;
            Some(Spot {
                key,
                slot: Some(place),
            })
        }
        Kind::Partial => {
            let key = changed.frozen_key(place)?;
            let slot = store.find(&key);
            Some(Spot { key, slot })
        }
    }
}

/// Visits the record in a slot, and gives what it held at the cut: its stable version where it is
/// available, and else a copy of the live one. All memory is taken first.
fn visit_slot<A: Allocator + Clone>(
    store: &mut Store<A>,
    slot: usize,
) -> Result<Option<Entry<A>>, NoMemory>
    ensures ok { OnOk result (store.new ≡ changed (edited captured) store.old slot) }
    ensures given { IfOk result (λ given. given ≡ given_by (record_at store.old slot)) }
    ensures err { OnErr result (store.new ≡ store.old) }
{
    match store.slot(slot) {
        None => Ok(None),
        Some(
            Record {
                key,
                available: true,
                ..
            },
        ) => match store.take_stable(slot) {
            Stable::Was(cell) => Ok(Some(Entry { key, cell })),
            Stable::Empty => Ok(None),
        },
        Some(Record { key, live, .. }) => {
            let cell = copy_of(live)?;
            store.set_available(slot, true);
            Ok(Some(Entry { key, cell }))
        }
    }
}

/// Visits the record where a scan stands, if there is one.
fn visit<A: Allocator + Clone>(
    store: &mut Store<A>,
    spot: Option<Spot>,
) -> Result<Option<Entry<A>>, NoMemory>
    requires { IfSome spot (λ s. IsFound store.old s.key s.slot) }
    ensures visits { OnOk result (VisitsKey store.old store.new (key_of_spot spot)) }
    ensures given { IfOk result (λ given. given ≡ given_of (versions_in store.old) (key_of_spot spot)) }
    ensures err { OnErr result (store.new ≡ store.old) }
{
    let Some(spot) = spot else {
        return Ok(None);
    };
    match spot.slot {
        Some(slot) => visit_slot(store, slot),
        None => Ok(None),
    }
}

/// Keeps what a record held, if the image has it. There is room for it.
#[inline(always)]
fn keep<A: Allocator>(
    captured: &mut Vec<Entry<A>, A>,
    given: &mut Given<Entry<A>>,
    kind: Kind,
    held: Option<Entry<A>>,
)
    requires { vec_len captured.old + 1 ≤ vec_capacity captured.old }
    ensures captured { captured.new.items ≡ captured.old.items ++ kept_of kind held }
    ensures given { given.new.entries ≡ given.old.entries ++ kept_of kind held }
{
    match held {
        Some(entry) if is_kept(kind, &entry) => {
            *given = given.and(&entry);
            captured.push_reserved(entry);
        }
        _ => {}
    }
}

/// Whether an image of the kind has the entry. A partial scan visits keys of the image alone.
pub(crate) fn is_kept<A: Allocator>(kind: Kind, entry: &Entry<A>) -> bool
    ensures { result ≡ is_kept kind entry.now }
{
    match kind {
        Kind::Full => entry.cell.is_some(),
        Kind::Partial => true,
    }
}

impl<A: Allocator> Core<A> {
    /// Whether a scan in this way may go on, or else the refusal: that of another phase, or that of
    /// another way.
    pub(crate) fn may_scan<E: Copy>(
        &self,
        way: Way,
        not_capturing: E,
        wrong_way: E,
    ) -> Result<(), E>
        ensures ok { OnOk result ((phase_of self.now.log ≡ Capture) × (self.now.checkpoint.way ≡ way)) }
        ensures refusal { result_err result ≡ scan_refusal self.now way not_capturing wrong_way }
    {
        match self.phase() {
            Phase::Capture => {}
            _ => return Err(not_capturing),
        }
        match (way, self.checkpoint.way) {
            (Way::Whole, Way::Whole) => Ok(()),
            (Way::Streamed, Way::Streamed) => Ok(()),
            _ => Err(wrong_way),
        }
    }
}

impl<A: Allocator + Clone> Core<A> {
    /// From resolve into capture: the scan begins.
    pub(crate) fn begin_scan(&mut self) -> Result<(), NoMemory>
        requires phase { phase_of self.old.log ≡ Resolve }
        requires free { advance_refusal self.old ≡ None }
        ensures { Enters Capture self.old self.new result }
    {
        let bound = places(self.checkpoint.kind, &self.store, &self.changed);
        let count = likely_count(
            self.checkpoint.way,
            self.checkpoint.kind,
            &self.store,
            &self.changed,
        );
        make_room(&mut self.checkpoint.captured, count)?;
        push_token(&mut self.log, Phase::Capture, self.checkpoint.number)?;
        order_places(self.checkpoint.kind, &mut self.changed);
        self.checkpoint.cursor = 0;
        self.checkpoint.bound = bound;
        self.checkpoint.scan = self.checkpoint.kind;
        self.checkpoint.given = Given::nothing();
        self.checkpoint.tally = Tally::none();
        self.phase = Phase::Capture;
        Ok(())
    }

    /// The scan visits one place: a slot, or one of the keys that were written between the two cuts. It
    /// keeps what the image has of the key there. Where no place is left nothing changes.
    ///
    /// It is refused in another phase than capture (`NotCapturing`), in a streamed checkpoint
    /// (`WrongWay`), and for memory (`NoMemory`). A refusal changes nothing.
    pub fn capture(&mut self) -> Result<Captured, CaptureError>
        ensures captured { IfOk result (λ x. CapturesAs x self.old self.new) }
        ensures refused { OnErr result (self.new ≡ self.old) }
        ensures refusal { Answers (capture_refusal self.old) capturing.NoMemory result }
    {
        self.may_scan(Way::Whole, NotCapturing, WrongWay)?;
        if self.checkpoint.cursor == self.checkpoint.bound {
            return Ok(Captured::Done);
        }
        if self.checkpoint.captured.reserve(1).is_err() {
            return Err(CaptureError::NoMemory);
        }
        let spot = spot_at(
            self.checkpoint.kind,
            &self.store,
            &mut self.changed,
            self.checkpoint.cursor,
        );
        let held = match visit(&mut self.store, spot) {
            Ok(held) => held,
            Err(NoMemory) => return Err(CaptureError::NoMemory),
        };
        keep(
            &mut self.checkpoint.captured,
            &mut self.checkpoint.given,
            self.checkpoint.kind,
            held,
        );
        self.checkpoint.cursor += 1;
        Ok(Captured::Slot)
    }
}
