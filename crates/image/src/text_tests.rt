//! Tests of what is printed of refusals.
use super::*;
use std::alloc::{AllocError, Global};
use std::fmt;

/// Whether a refusal says this.
fn says(made: Result<String<Global>, AllocError>, text: &str) -> bool {
    match made {
        Ok(made) => made.as_str() == text,
        Err(_) => false,
    }
}

/// The first of these texts that its refusal doesn't say.
fn unsaid<'a, E: fmt::Display>(alloc: Global, rows: &[(E, &'a str)]) -> Option<&'a str> {
    for (refusal, text) in rows {
        if !says(refusal.to_string(alloc), text) {
            return Some(*text);
        }
    }
    None
}

#[test]
fn texts(rt: HostRuntime) {
    let alloc = rt.alloc();
    let merges = [
        (MergeError::TooMany, "too many"),
        (MergeError::NotFull, "not full"),
        (MergeError::NotPartial(12), "not partial 12"),
        (MergeError::Gap(0), "gap 0"),
        (MergeError::NoMemory, "no memory"),
    ];
    assert_eq!(rt; unsaid(alloc, &merges), None);
    assert_eq!(rt;
        unsaid(alloc, &[(AssembleError::BadForm, "bad form")]),
        None
    );
    assert_eq!(rt; unsaid(alloc, &[(OpeningError::TooMany, "too many")]), None);
    assert_eq!(rt; unsaid(alloc, &[(SealError::TooLarge, "too large")]), None);
    let reads = [
        (ReadError::NotAnImage, "not an image"),
        (ReadError::BadDigest, "bad digest"),
        (ReadError::BadBlock(12), "bad block 12"),
        (ReadError::BadForm, "bad form"),
        (ReadError::NoMemory, "no memory"),
    ];
    assert_eq!(rt; unsaid(alloc, &reads), None);
    let streams = [
        (ReadFromError::Image(ReadError::BadBlock(2)), "bad block 2"),
        (ReadFromError::ReadFault, "read fault"),
    ];
    assert_eq!(rt; unsaid(alloc, &streams), None);
    assert_eq!(rt;
        unsaid(alloc, &[(WriteError::WriteFault, "write fault")]),
        None
    );
}
