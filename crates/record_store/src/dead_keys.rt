//! The least of the keys that dead records offer for reclaim.

ghost use Rattle.std.specs.Prelude.{◌≡◌, ℕ, ◌+◌, ◌<◌, ◌≤◌, ◌↔◌, [], length, OnOk, IfSome, IfNone, IsSome, IsTrue, IsOk, None, Some, max, slice_set, ◌++◌, replicate, ◌-◌, ◌^◌, vec_capacity};
ghost use Rattle.record_store.specs.DeadKeys.{IsEnlarged, IsLeast, IsMoved, IsPut, IsWonBut, IsWonFrom, Refills, SameFrom, SameOffers, candidate_of, match_at, node_at, offer_at, winner};

use procedure::{Key, NoMemory};
use std::alloc::Allocator;
use std::cmp;
use std::marker::Model;

/// A key that the record of a slot offers.
#[derive(Clone, Copy)]
struct Candidate {
    key: Key,
    slot: usize,
}

/// What each slot offers, a key or nothing, seen by contracts as this list. The least is known at
/// any time, and a change costs no memory and the logarithm of the number of slots, but for the first
/// key of a slot without nodes.
///
/// It is a tournament: the second half of the nodes are the slots' own, and an inner node n is the
/// winner of the nodes 2n and 2n + 1, so that node 1 is the least of all. A heap would need each
/// slot's place in it, or keep entries that no longer hold.
///
/// The memory for the nodes is taken when a place is made, and first written when a slot without
/// nodes offers a key, for all places at once: a table in which no record dies doesn't touch it.
#[derive(Drop)]
pub struct DeadKeys<A: Allocator> {
    nodes: Vec<Option<Candidate>, A>,
    // The slots that have nodes: all places that there are, or at most half of them.
    slots: usize,
    // There is memory for the nodes of so many slots.
    places: usize,
}

impl<A: Allocator> Model for DeadKeys<A> {
    ghost use Rattle.std.specs.Prelude.{List, Option};
    ghost use Rattle.std.specs.Coded.{coded_list, coded_option, coded_ℕ};
    ghost use Rattle.procedure.specs.Bytes.{Bytes};

    ghost Value = { List (Option Bytes) };

    ghost coded = { coded_list (coded_option (coded_list coded_ℕ)) };

    ghost use Rattle.record_store.specs.DeadKeys.{offers_of, IsPlayed};

    ghost view = { offers_of };

    ghost invariant = { IsPlayed };
}

#[tactic(auto, unfolding(crate::specs::DeadKeys::winner))]
fn winner(one: Option<Candidate>, other: Option<Candidate>) -> Option<Candidate>
    ensures { result ≡ winner one other }
{
    match (one, other) {
        (None, other) => other,
        (Some(one), None) => Some(one),
        (Some(one), Some(other)) => {
            if other.key < one.key {
                Some(other)
            } else {
                Some(one)
            }
        }
    }
}

#[tactic(auto, unfolding(crate::specs::DeadKeys::match_at))]
fn play(nodes: &mut [Option<Candidate>], node: usize)
    requires { node + node + 1 < length nodes.old }
    ensures { nodes.new ≡ slice_set nodes.old node (match_at nodes.old node) }
{
    nodes[node] = winner(nodes[2 * node], nodes[2 * node + 1]);
}

/// Plays again on the way from a node that has changed to node 1.
fn replay(nodes: &mut [Option<Candidate>], slots: usize, changed: usize)
    requires nodes { length nodes.old ≡ slots + slots }
    requires within { changed < slots + slots }
    requires won { IsWonBut nodes.old slots changed }
    ensures kept { SameFrom nodes.old nodes.new slots }
    ensures won { IsWonFrom nodes.new slots 1 }
{
    let mut node = changed;
    while node > 1 {
        node /= 2;
        play(nodes, node);
    }
}

/// Plays at each inner node.
fn play_all(nodes: &mut [Option<Candidate>], slots: usize)
    requires nodes { length nodes.old ≡ slots + slots }
    ensures kept { SameFrom nodes.old nodes.new slots }
    ensures won { IsWonFrom nodes.new slots 1 }
{
    let mut node = slots;
    while node > 1 {
        node -= 1;
        play(nodes, node);
    }
}

fn place_of(key: Option<Key>, slot: usize) -> Option<Candidate>
    ensures { result ≡ candidate_of key slot }
{
    match key {
        Some(key) => Some(Candidate { key, slot }),
        None => None,
    }
}

/// Adds nodes that offer nothing, up to this many. There is memory for them.
fn lengthen<A: Allocator>(nodes: &mut Vec<Option<Candidate>, A>, len: usize)
    requires more { length nodes.old.items ≤ len }
    requires room { len ≤ vec_capacity nodes.old }
    ensures items { nodes.new.items ≡ nodes.old.items ++ replicate (len - length nodes.old.items) None }
    ensures memory { vec_capacity nodes.new ≡ vec_capacity nodes.old }
{
    while nodes.len() < len {
        nodes.push_reserved(None);
    }
}

/// Moves the places of slots from after node `from` to after node `to`, where there are at least
/// twice as many.
fn move_places(nodes: &mut [Option<Candidate>], from: usize, to: usize)
    requires apart { from + from ≤ to }
    requires within { to + from ≤ length nodes.old }
    ensures { IsMoved nodes.old nodes.new from to }
{
    for slot in 0..from {
        nodes[to + slot] = nodes[from + slot];
    }
}

/// What wins of all.
fn root(nodes: &[Option<Candidate>]) -> Option<Candidate>
    ensures { result ≡ node_at nodes.now 1 }
{
    match nodes.get(1) {
        Some(node) => *node,
        None => None,
    }
}

fn is_present(nodes: &[Option<Candidate>], node: usize) -> bool
    ensures { IsTrue result ↔ IsSome (node_at nodes.now node) }
{
    match nodes.get(node) {
        Some(node) => node.is_some(),
        None => false,
    }
}

fn put_place(nodes: &mut [Option<Candidate>], slots: usize, slot: usize, key: Option<Key>)
    requires nodes { length nodes.old ≡ slots + slots }
    requires within { slot < slots }
    requires won { IsWonFrom nodes.old slots 1 }
    ensures put { IsPut nodes.old nodes.new slots slot (candidate_of key slot) }
    ensures won { IsWonFrom nodes.new slots 1 }
{
    let node = slots + slot;
    nodes[node] = place_of(key, slot);
    replay(nodes, slots, node);
}

fn refill(nodes: &mut [Option<Candidate>], slots: usize, wanted: usize)
    requires more { slots + slots ≤ wanted }
    requires nodes { length nodes.old ≡ wanted + wanted }
    ensures kept { Refills nodes.old nodes.new slots wanted }
    ensures won { IsWonFrom nodes.new wanted 1 }
{
    move_places(nodes, slots, wanted);
    play_all(nodes, wanted);
}

/// Gives nodes to more slots, at least twice as many. There is memory for them.
fn enlarge<A: Allocator>(nodes: &mut Vec<Option<Candidate>, A>, slots: usize, wanted: usize)
    requires nodes { length nodes.old.items ≡ slots + slots }
    requires more { slots + slots ≤ wanted }
    requires room { wanted + wanted ≤ vec_capacity nodes.old }
    ensures enlarged { IsEnlarged nodes.old.items nodes.new.items slots wanted }
    ensures won { IsWonFrom nodes.new.items wanted 1 }
    ensures memory { vec_capacity nodes.new ≡ vec_capacity nodes.old }
{
    lengthen(nodes, wanted + wanted);
    // Where no slot had a node no key is offered yet, and nothing wins.
    if slots > 0 {
        refill(nodes, slots, wanted);
    }
}

/// At least twice the places, so that a growth costs each slot a constant; None where there can't
/// be so many.
fn places_for(slot: usize, slots: usize) -> Option<usize>
    requires { slots + slots < 2 ^ 64 }
    ensures some { IfSome result (λ n. (n ≡ max (slot + 1) (slots + slots)) × (n + n < 2 ^ 64)) }
    ensures none { IfNone result (2 ^ 63 ≤ max (slot + 1) (slots + slots)) }
{
    let wanted = cmp::max(slot.checked_add(1)?, slots + slots);
    wanted.checked_mul(2)?;
    Some(wanted)
}

impl<A: Allocator> DeadKeys<A> {
    /// No slot offers a key, and none has a place. It takes no memory.
    pub fn new(alloc: A) -> Self
        ensures { result ≡ [] }
    {
        DeadKeys {
            nodes: Vec::new(alloc),
            slots: 0,
            places: 0,
        }
    }

    /// Makes a place for a slot, and changes no offer.
    pub fn make_place(&mut self, slot: usize) -> Result<(), NoMemory>
        ensures place { OnOk result (slot < length self.new) }
        ensures fits { OnOk result (slot + 1 < 2 ^ 64) }
        ensures no_less { length self.old ≤ length self.new }
        ensures kept { SameOffers self.old self.new }
        // Where the place is there no memory is taken; else their number doubles, or more where that isn't enough.
        ensures memory { slot < length self.old → IsOk result }
        ensures same { slot < length self.old → length self.new ≡ length self.old }
        ensures grown { length self.old ≤ slot → OnOk result (length self.new ≡ max (slot + 1) (length self.old + length self.old)) }
    {
        if slot < self.places {
            return Ok(());
        }
        let wanted = places_for(slot, self.places).ok_or(NoMemory)?;
        let nodes = self.nodes.len();
        self.nodes.reserve(wanted + wanted - nodes)?;
        self.places = wanted;
        Ok(())
    }

    /// The slot offers this key from now on, or nothing. The first key of a slot without nodes takes
    /// time in proportion to the places.
    pub fn set(&mut self, slot: usize, key: Option<Key>)
        requires { slot < length self.old }
        ensures { self.new ≡ slice_set self.old slot key }
    {
        if self.slots <= slot {
            enlarge(&mut self.nodes, self.slots, self.places);
            self.slots = self.places;
        }
        put_place(&mut self.nodes, self.slots, slot, key);
    }

    /// Does the slot offer a key?
    pub fn offers(&self, slot: usize) -> bool
        ensures { IsTrue result ↔ IsSome (offer_at self.now slot) }
    {
        let node = match self.slots.checked_add(slot) {
            Some(node) => node,
            None => return false,
        };
        is_present(&self.nodes, node)
    }

    /// The slot that offers the least key.
    pub fn least(&self) -> Option<usize>
        ensures some { IfSome result (λ slot. IsLeast (offer_at self.now) slot) }
        ensures none { IfNone result ((slot : ℕ) → offer_at self.now slot ≡ None) }
    {
        match root(&self.nodes) {
            Some(best) => Some(best.slot),
            None => None,
        }
    }
}
