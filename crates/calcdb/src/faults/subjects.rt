//! Which files a refusal is of, for the line on standard error that names them.

use crate::faults::{Fault, Reason};
use std::fmt;

/// What is refused. It prints as what stands before the reason.
#[derive(Clone, Copy)]
pub(crate) enum Subject<'a> {
    /// It isn't known.
    Unknown,
    /// All images of a chain.
    Chain,
    File(&'a str),
    /// Two files that don't go together.
    Files(&'a str, &'a str),
    /// Two images of a chain.
    Images(&'a str, &'a str),
}

impl fmt::Display for Subject<'_> {
    fn fmt<W: fmt::Write>(&self, f: &mut fmt::Formatter<W>) -> fmt::Result {
        match self {
            Subject::Unknown => Ok(()),
            Subject::Chain => write!(f, "images: "),
            Subject::File(name) => write!(f, "{name}: "),
            Subject::Files(name, other) => write!(f, "{name}, {other}: "),
            Subject::Images(name, other) => write!(f, "images {name}, {other}: "),
        }
    }
}

/// The files of images, by their names in order.
#[derive(Clone, Copy)]
pub(crate) struct ImageFiles<'a, 'b> {
    pub names: &'b [&'a str],
}

/// A file of this name, if it is known.
fn named<'a>(name: Option<&&'a str>) -> Subject<'a> {
    match name {
        Some(name) => Subject::File(name),
        None => Subject::Unknown,
    }
}

impl<'a> ImageFiles<'a, '_> {
    /// The image at a place, and the one after it.
    fn neighbours(&self, place: usize) -> Subject<'a> {
        match (
            self.names.get(place),
            self.names.get(place.saturating_add(1)),
        ) {
            (Some(name), Some(next)) => Subject::Images(name, next),
            _ => Subject::Unknown,
        }
    }

    /// One of the images, and a log.
    fn beside(&self, image: Option<&&'a str>, log: &'a str) -> Subject<'a> {
        match image {
            Some(image) => Subject::Files(image, log),
            None => Subject::File(log),
        }
    }

    /// What a merge's fault is of, where this is the first file that holds no image.
    pub(crate) fn subject(&self, fault: &Fault, unread: Option<&&'a str>) -> Subject<'a> {
        let Fault::Refused(reason) = fault else {
            return Subject::Unknown;
        };
        match reason {
            Reason::NotAnImage | Reason::BadDigest | Reason::BadBlock(_) | Reason::BadForm => {
                named(unread)
            }
            Reason::TooMany => Subject::Chain,
            Reason::NotFull => named(self.names.first()),
            Reason::NotPartial(place) => named(self.names.get(place.saturating_add(1))),
            Reason::Gap(place) => self.neighbours(*place),
            _ => Subject::Unknown,
        }
    }

    /// What a recovery's fault is of, with these names of its script and of its log, where this is the
    /// first file that holds no image.
    pub(crate) fn recovered(
        &self,
        fault: &Fault,
        (script, log): (&'a str, &'a str),
        unread: Option<&&'a str>,
    ) -> Subject<'a> {
        let Fault::Refused(reason) = fault else {
            return Subject::Unknown;
        };
        match reason {
            Reason::NotALog | Reason::Damaged(_) | Reason::Diverged(_) => Subject::File(log),
            Reason::WrongCatalog => Subject::Files(script, log),
            Reason::WrongOpening => self.beside(self.names.first(), log),
            Reason::PlaceOutside => self.beside(self.names.last(), log),
            _ => self.subject(fault, unread),
        }
    }
}
