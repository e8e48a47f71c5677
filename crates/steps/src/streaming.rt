//! How the scan of a streamed checkpoint sends its entries.

ghost use Rattle.std.specs.Prelude.{◌≡◌, ◌≤◌, ◌+◌, ℕ, IfErr, IfSome, OnErr, OnOk, Some, IfOk, length, true};
ghost use Rattle.procedure.specs.Bytes.{Bytes};
ghost use Rattle.image.specs.declared.limits.TheConstants.{ENTRIES};
ghost use Rattle.pipe.specs.Rings.{SameTap, room};
ghost use Rattle.record_store.specs.Stores.{changed, key_at, record_at};
ghost use Rattle.steps.specs.inside.RecordEdits.{IsFound, available_at, captured, edited, given_by};
ghost use Rattle.steps.specs.inside.Sends.{IsRefused, IsSent, SendsNothing};
ghost use Rattle.steps.specs.inside.Spots.{VisitsKey, key_of_spot};
ghost use Rattle.steps.specs.Checkpointing.{CapturesAs};
ghost use Rattle.steps.specs.Streaming.{AnswersTo, GivesOne, MayBeFull, SendsGiven};
ghost use Rattle.steps.specs.Versions.{given_of, kept_of, versions_in};

use crate::captures::{Captured, Spot, is_kept, spot_at};
use crate::checkpoints::{Tally, Way};
use crate::cores::Core;
use crate::edits::copy_of;
use crate::errors::CaptureToError;
use crate::errors::CaptureToError::{NotCapturing, WrongWay};
use crate::given::Given;
use image::{Entry, Kind};
use pipe::{Full, Tap};
use procedure::Key;
use record_store::{Record, Stable, Store};
use std::alloc::Allocator;

/// Sends what a record held, if the image has it, and counts it.
fn send_kept<A: Allocator>(
    tap: &mut Tap<A>,
    given: &mut Given<Entry<A>>,
    tally: &mut Tally,
    kind: Kind,
    entry: Entry<A>,
) -> Result<(), Full<A>>
    requires few { tally.old.count ≤ ENTRIES }
    ensures ring { SameTap tap.old tap.new }
    ensures sent { OnOk result (IsSent (kept_of kind (Some entry)) tap.old tap.new given.old given.new tally.old tally.new) }
    ensures room { OnOk result (room tap.old ≤ room tap.new + 1) }
    ensures full { IfErr result (λ full. full.0 ≡ entry) }
    ensures refused { OnErr result (SendsNothing tap.old tap.new given.old given.new tally.old tally.new) }
    ensures kept { OnErr result (GivesOne kind (Some entry)) }
    ensures why { OnErr result (MayBeFull tap.old) }
{
    if !is_kept(kind, &entry) {
        return Ok(());
    }
    let more = given.and(&entry);
    let next = tally.and(&entry);
    tap.send(entry)?;
    *given = more;
    *tally = next;
    Ok(())
}

/// Visits the record in a slot, and sends what it held at the cut: its stable version where it is
/// available, and else a copy of the live one. All memory is taken first, and where the ring is full a
/// stable version is put back.
fn send_slot<A: Allocator + Clone>(
    store: &mut Store<A>,
    slot: usize,
    tap: &mut Tap<A>,
    given: &mut Given<Entry<A>>,
    tally: &mut Tally,
    kind: Kind,
) -> Result<(), CaptureToError>
    requires few { tally.old.count ≤ ENTRIES }
    ensures ok { OnOk result (store.new ≡ changed (edited captured) store.old slot) }
    ensures err { OnErr result (store.new ≡ store.old) }
    ensures ring { SameTap tap.old tap.new }
    ensures sent { OnOk result (IsSent (kept_of kind (given_by (record_at store.old slot))) tap.old tap.new given.old given.new tally.old tally.new) }
    ensures room { OnOk result (room tap.old ≤ room tap.new + 1) }
    ensures refused { OnErr result (SendsNothing tap.old tap.new given.old given.new tally.old tally.new) }
    ensures why { IfErr result (IsRefused kind (given_by (record_at store.old slot)) tap.old) }
{
    match store.slot(slot) {
        None => Ok(()),
        Some(
            Record {
                key,
                available: true,
                ..
            },
        ) => match store.take_stable(slot) {
            Stable::Empty => Ok(()),
            Stable::Was(cell) => match send_kept(tap, given, tally, kind, Entry { key, cell }) {
                Ok(()) => Ok(()),
                Err(Full(entry)) => {
                    store.put_stable(slot, entry.cell);
                    Err(CaptureToError::RingFull)
                }
            },
        },
        Some(Record { key, live, .. }) => {
            let cell = match copy_of(live) {
                Ok(cell) => cell,
                Err(_) => return Err(CaptureToError::NoMemory),
            };
            match send_kept(tap, given, tally, kind, Entry { key, cell }) {
                Ok(()) => {}
                Err(Full(_)) => return Err(CaptureToError::RingFull),
            }
            store.set_available(slot, true);
            Ok(())
        }
    }
}

/// Visits the record where a scan stands, if there is one, and sends what it held at the cut.
fn send_spot<A: Allocator + Clone>(
    store: &mut Store<A>,
    spot: Option<Spot>,
    tap: &mut Tap<A>,
    given: &mut Given<Entry<A>>,
    tally: &mut Tally,
    kind: Kind,
) -> Result<(), CaptureToError>
    requires found { IfSome spot (λ s. IsFound store.old s.key s.slot) }
    requires few { tally.old.count ≤ ENTRIES }
    ensures visits { OnOk result (VisitsKey store.old store.new (key_of_spot spot)) }
    ensures err { OnErr result (store.new ≡ store.old) }
    ensures ring { SameTap tap.old tap.new }
    ensures sent { OnOk result (IsSent (kept_of kind (given_of (versions_in store.old) (key_of_spot spot))) tap.old tap.new given.old given.new tally.old tally.new) }
    ensures room { OnOk result (room tap.old ≤ room tap.new + 1) }
    ensures refused { OnErr result (SendsNothing tap.old tap.new given.old given.new tally.old tally.new) }
    ensures why { IfErr result (IsRefused kind (given_of (versions_in store.old) (key_of_spot spot)) tap.old) }
{
    let Some(spot) = spot else {
        return Ok(());
    };
    match spot.slot {
        Some(slot) => send_slot(store, slot, tap, given, tally, kind),
        None => Ok(()),
    }
}

impl<A: Allocator + Clone> Core<A> {
    /// The scan of a streamed checkpoint visits one place, as `capture` does, and sends what the image has
    /// of the key there. Where no place is left nothing changes. A place that gives nothing needs no room
    /// in the ring.
    ///
    /// It is refused in another phase than capture (`NotCapturing`), in a checkpoint that isn't streamed
    /// (`WrongWay`), where the ring has no room for the entry or its tap has sent 100,000 (`RingFull`), and
    /// for memory (`NoMemory`). A refusal changes nothing, and sends nothing.
    pub fn capture_to(&mut self, tap: &mut Tap<A>) -> Result<Captured, CaptureToError>
        ensures captured { IfOk result (λ x. CapturesAs x self.old self.new) }
        ensures ring { SameTap tap.old tap.new }
        ensures sent { SendsGiven self.old self.new tap.old tap.new }
        ensures room { OnOk result (room tap.old ≤ room tap.new + 1) }
        ensures refused { OnErr result (self.new ≡ self.old) }
        ensures refusal { AnswersTo self.old tap.old result }
    {
        self.may_scan(Way::Streamed, NotCapturing, WrongWay)?;
        if self.checkpoint.cursor == self.checkpoint.bound {
            return Ok(Captured::Done);
        }
        // Brings in that the store has at most 100,000 records, and so that as many entries are sent.
        let _records = self.store.len();
        let spot = spot_at(
            self.checkpoint.kind,
            &self.store,
            &mut self.changed,
            self.checkpoint.cursor,
        );
        match send_spot(
            &mut self.store,
            spot,
            tap,
            &mut self.checkpoint.given,
            &mut self.checkpoint.tally,
            self.checkpoint.kind,
        ) {
            Ok(()) => {}
            Err(refused) => return Err(refused),
        }
        self.checkpoint.cursor += 1;
        Ok(Captured::Slot)
    }
}
