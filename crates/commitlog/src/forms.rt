//! Whether bytes are the body of a record, told without making it.

ghost use Rattle.std.specs.Prelude.{◌≡◌, ◌↔◌, IfErr, IsOk, IsTrue};
ghost use Rattle.commitlog.specs.BodyReading.{IsLawful, Passes, PassesMany, call_in, record_in, reply_in, token_in, value_in};
ghost use Rattle.commitlog.specs.LogBytes.{greatest_value};
ghost use Rattle.commitlog.specs.LogReadings.{IsBody};

use crate::bodies::{BodyError, byte_of, phase_of, u16_of, u64_of};
use crate::formats::Version;
use crate::records::are_in_range;

/// What stands after a value.
#[tactic(auto, unfolding(crate::specs::BodyReading::value_in))]
fn after_value(version: Version, bytes: &[u8]) -> Result<&[u8], BodyError>
    ensures { Passes (λ x. x.now) result (value_in (greatest_value version) bytes.now) }
{
    let (length, rest) = u16_of(bytes)?;
    let length = usize::from(length);
    if length > version.greatest_value() || rest.len() < length {
        return Err(BodyError::Malformed);
    }
    let (_value, rest) = rest.split_at(length);
    Ok(rest)
}

/// What stands after a reply.
#[tactic(auto, unfolding(crate::specs::BodyReading::reply_in))]
fn after_reply(version: Version, bytes: &[u8]) -> Result<&[u8], BodyError>
    ensures { Passes (λ x. x.now) result (reply_in (greatest_value version) bytes.now) }
{
    match bytes {
        [0, rest @ ..] => Ok(rest),
        [1, rest @ ..] => after_value(version, rest),
        _ => Err(BodyError::Malformed),
    }
}

/// What stands after so many values.
#[tactic(auto, using(crate::proofs::Passing::none_passed, crate::proofs::Passing::passes_on))]
fn after_values(version: Version, count: u8, bytes: &[u8]) -> Result<&[u8], BodyError>
    ensures { PassesMany (λ x. x.now) result (value_in (greatest_value version)) count bytes.now }
{
    let mut rest = bytes;
    for _ in 0..count {
        rest = after_value(version, rest)?;
    }
    Ok(rest)
}

/// What stands after so many replies.
#[tactic(auto, using(crate::proofs::Passing::none_passed, crate::proofs::Passing::passes_on))]
fn after_replies(version: Version, count: u8, bytes: &[u8]) -> Result<&[u8], BodyError>
    ensures { PassesMany (λ x. x.now) result (reply_in (greatest_value version)) count bytes.now }
{
    let mut rest = bytes;
    for _ in 0..count {
        rest = after_reply(version, rest)?;
    }
    Ok(rest)
}

/// Whether a token stands there, and nothing after it.
#[tactic(auto, unfolding(crate::specs::BodyReading::token_in))]
fn check_token(bytes: &[u8]) -> Result<(), BodyError>
    ensures { IsOk result ↔ IsLawful (token_in bytes.now) }
{
    let (code, rest) = byte_of(bytes)?;
    phase_of(code)?;
    let (_number, rest) = u64_of(rest)?;
    if !rest.is_empty() {
        return Err(BodyError::Malformed);
    }
    Ok(())
}

/// Whether a call within its ranges stands there, and nothing after it.
#[tactic(auto, unfolding(crate::specs::BodyReading::call_in, crate::specs::BodyReading::arguments_in, crate::specs::BodyReading::replies_in))]
fn check_call(version: Version, bytes: &[u8]) -> Result<(), BodyError>
    ensures { IsOk result ↔ IsLawful (call_in (greatest_value version) bytes.now) }
{
    let (session, rest) = u16_of(bytes)?;
    let (_number, rest) = u64_of(rest)?;
    let (procedure, rest) = u16_of(rest)?;
    let (arguments, rest) = byte_of(rest)?;
    let rest = after_values(version, arguments, rest)?;
    let (outcome, rest) = byte_of(rest)?;
    let (replies, rest) = byte_of(rest)?;
    let rest = after_replies(version, replies, rest)?;
    let lawful = are_in_range(
        session,
        procedure,
        usize::from(arguments),
        outcome,
        usize::from(replies),
    );
    if !lawful || !rest.is_empty() {
        return Err(BodyError::Malformed);
    }
    Ok(())
}

#[tactic(auto, unfolding(crate::specs::BodyReading::record_in))]
fn check_body(version: Version, bytes: &[u8]) -> Result<(), BodyError>
    ensures { IsOk result ↔ IsLawful (record_in (greatest_value version) bytes.now) }
{
    match bytes {
        [0, rest @ ..] => check_token(rest),
        [1, rest @ ..] => check_call(version, rest),
        _ => Err(BodyError::Malformed),
    }
}

/// Whether bytes are the body of a record of the version, all of them.
pub(crate) fn is_body(version: Version, bytes: &[u8]) -> bool
    ensures { IsTrue result ↔ IsBody version bytes.now }
{
    check_body(version, bytes).is_ok()
}
