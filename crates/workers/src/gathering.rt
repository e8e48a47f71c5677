//! Whether answers are the calls of a log, each once.

ghost use Rattle.std.specs.Prelude.{ℕ, ◌≡◌, ◌≢◌, ◌⊎◌, ◌++◌, ◌<◌, ◌≤◌, ◌↔◌, All, Err, IfErr, IfOk, IsTrue, Ok, OnOk, false, length, slice_index_or, slice_set, true, vec_len};
ghost use Rattle.commitlog.specs.Records.{record_of};
ghost use Rattle.workers.specs.Claims.{all_claims, AreAnswered, claims_of, Fault, is_call_at, is_call, IsCallOf, IsOf, mark_of, OneFault, times};
ghost use Rattle.workers.specs.declared.errors.GatherError.TheVariants as refused;

use crate::errors::GatherError;
use crate::shares::{Given, Response, Share};
use commitlog::{Entry, Record};
use procedure::{NoMemory, are_same_replies};
use std::alloc::Allocator;
use steps::Answer;

/// An answer with a place, and whose call it answers.
#[derive(Debug, Drop)]
pub(crate) struct Claim<A: Allocator> {
    session: u16,
    number: u64,
    answer: Answer<A>,
}

/// Whether a record is the call that the claim names.
fn is_call_of<A: Allocator>(entry: &Entry<A>, claim: &Claim<A>) -> bool
    ensures { IsTrue result ↔ IsCallOf claim.now (record_of entry.now) }
{
    match entry {
        Entry::Token { .. } => false,
        Entry::Call {
            call,
            outcome,
            replies,
        } => {
            call.session == claim.session
                && call.number == claim.number
                && *outcome == claim.answer.outcome
                && are_same_replies(replies.as_slice(), claim.answer.replies.as_slice())
        }
    }
}

/// Whether the claimed call stands at its place.
fn fits<A: Allocator>(records: &[Record<A>], claim: &Claim<A>) -> bool
    ensures value { IsTrue result ↔ IsOf records.now claim.now }
    ensures within { IsTrue result → claim.now.answer.place < length records.now }
{
    match records.get(claim.answer.place) {
        Some(found) => is_call_of(found.entry(), claim),
        None => false,
    }
}

/// Marks the place of one claim.
fn mark_one<A: Allocator>(
    records: &[Record<A>],
    claim: &Claim<A>,
    seen: &mut Vec<bool, A>,
) -> Result<(), GatherError>
    requires { vec_len seen.old ≡ length records.now }
    ensures len { vec_len seen.new ≡ length records.now }
    ensures ok { OnOk result (IsOf records.now claim.now × (claim.now.answer.place < length records.now) × (slice_index_or seen.old.items claim.now.answer.place false ≡ false) × (seen.new.items ≡ slice_set seen.old.items claim.now.answer.place true)) }
    ensures err { IfErr result (OneFault records.now claim.now seen.old.items) }
{
    if !fits(records, claim) {
        return Err(GatherError::Stranger);
    }
    let place = claim.answer.place;
    if seen[place] {
        return Err(GatherError::Double);
    }
    seen[place] = true;
    Ok(())
}

/// Marks the places that are claimed.
fn mark<A: Allocator>(
    records: &[Record<A>],
    claims: &[Claim<A>],
    seen: &mut Vec<bool, A>,
) -> Result<(), GatherError>
    requires len { vec_len seen.old ≡ length records.now }
    requires none { (p : ℕ) → p < length records.now → slice_index_or seen.old.items p false ≡ false }
    ensures len { vec_len seen.new ≡ length records.now }
    ensures fit { OnOk result (All (IsOf records.now) claims.now) }
    ensures once { OnOk result ((p : ℕ) → p < length records.now → times p claims.now ≡ mark_of (slice_index_or seen.new.items p false)) }
    ensures err { IfErr result (Fault records.now claims.now) }
{
    for claim in claims {
        if let Err(e) = mark_one(records, claim, seen) {
            return Err(e);
        }
    }
    Ok(())
}

fn add_claims<A: Allocator>(
    all: &mut Vec<Claim<A>, A>,
    session: u16,
    answers: Vec<Response<A>, A>,
) -> Result<(), NoMemory>
    ensures { OnOk result (all.new.items ≡ all.old.items ++ claims_of session answers.items) }
{
    for response in answers {
        let Response { number, given } = response;
        if let Given::Answered(answer) = given {
            all.push(Claim {
                session,
                number,
                answer,
            })?;
        }
    }
    Ok(())
}

/// The answers with a place of all shares.
fn list_claims<T: Drop, A: Allocator>(
    alloc: A,
    shares: Vec<Share<T, A>, A>,
) -> Result<Vec<Claim<A>, A>, NoMemory>
    ensures { IfOk result (λ v. v.items ≡ all_claims shares.items) }
{
    let mut all = Vec::new(alloc);
    for share in shares {
        let Share {
            session,
            answers,
            ..
        } = share;
        add_claims(&mut all, session, answers)?;
    }
    Ok(all)
}

fn is_call<A: Allocator>(entry: &Entry<A>) -> bool
    ensures { result ≡ is_call (record_of entry.now) }
{
    match entry {
        Entry::Call { .. } => true,
        Entry::Token { .. } => false,
    }
}

/// Whether each call is marked, and if not, the least one that isn't.
fn all_seen<A: Allocator>(records: &[Record<A>], seen: &[bool]) -> Result<(), usize>
    requires { length seen.now ≡ length records.now }
    ensures ok { OnOk result ((p : ℕ) → IsTrue (is_call_at records.now p) → slice_index_or seen.now p false ≡ true) }
    ensures err { IfErr result (λ p. IsTrue (is_call_at records.now p) × (slice_index_or seen.now p false ≡ false) × ((q : ℕ) → q < p → IsTrue (is_call_at records.now q) → slice_index_or seen.now q false ≡ true)) }
{
    for i in 0..records.len() {
        if is_call(records[i].entry()) && !seen[i] {
            return Err(i);
        }
    }
    Ok(())
}

fn judge<A: Allocator>(
    records: &[Record<A>],
    claims: &[Claim<A>],
    seen: &mut Vec<bool, A>,
) -> Result<(), GatherError>
    requires len { vec_len seen.old ≡ length records.now }
    requires none { (p : ℕ) → p < length records.now → slice_index_or seen.old.items p false ≡ false }
    ensures ok { OnOk result (AreAnswered records.now claims.now) }
    ensures err { IfErr result (Fault records.now claims.now) }
{
    mark(records, claims, seen)?;
    match all_seen(records, seen.as_slice()) {
        Ok(()) => Ok(()),
        Err(place) => Err(GatherError::Missing(place)),
    }
}

/// Whether the answers of the shares are the calls of the records, each once: each answer with a place has
/// its call there, with its session, number, outcome and replies, and each call has one answer.
///
/// Of the answers the first that fails is told, by `Stranger` or `Double`, and then the least place of a call
/// without an answer, by `Missing`.
pub fn gather<T: Drop, A: Allocator + Clone>(
    alloc: A,
    records: &[Record<A>],
    shares: Vec<Share<T, A>, A>,
) -> Result<(), GatherError>
    ensures ok { OnOk result (AreAnswered records.now (all_claims shares.items)) }
    ensures err { IfErr result (Fault records.now (all_claims shares.items)) }
    // Where they are, nothing but memory is wanting.
    ensures only { AreAnswered records.now (all_claims shares.items) → (result ≡ Ok tt) ⊎ (result ≡ Err refused.NoMemory) }
{
    let (claims, mut seen) = make_room(alloc, shares, records.len())?;
    judge(records, claims.as_slice(), &mut seen)
}

fn make_room<T: Drop, A: Allocator + Clone>(
    alloc: A,
    shares: Vec<Share<T, A>, A>,
    count: usize,
) -> Result<(Vec<Claim<A>, A>, Vec<bool, A>), NoMemory>
    ensures claims { IfOk result (λ r. r.0.items ≡ all_claims shares.items) }
    ensures seen { IfOk result (λ r. (vec_len r.1 ≡ count) × ((p : ℕ) → p < count → slice_index_or r.1.items p false ≡ false)) }
{
    let claims = list_claims(alloc.clone()?, shares)?;
    let seen = Vec::from_elem(alloc, false, count)?;
    Ok((claims, seen))
}
