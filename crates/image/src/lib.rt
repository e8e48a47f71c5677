//! Images of a checkpoint: what is lawful, their bytes, a chain of them as one, and an image made of
//! its header and entries that came in any order.
//!
//! The definitions are in `specs/`: images (`Images`), their bytes in both versions (`ImageBytes`), how
//! other bytes are refused (`Refusals`), the entries that stand in an image's bytes (`StoredEntries`), the
//! merge of a chain (`Merges`) and of one whose images come one after another (`Mergers`), and headers with
//! the digest of their entries (`Headers`).
#![tactic(auto)]

#[cfg(test)]
mod byte_tests;
pub mod checking;
pub mod entries;
pub mod errors;
#[cfg(test)]
mod form_tests;
mod fronts;
pub mod headers;
pub mod images;
pub mod laws;
mod layers;
pub mod limits;
pub mod mergers;
pub mod merges;
mod pieces;
pub mod reading;
pub mod sealing;
pub mod stored_entries;
#[cfg(test)]
mod stream_tests;
pub mod streams;
#[cfg(test)]
mod tests;
#[cfg(test)]
mod text_tests;

pub use checking::{CheckedImage, check_image};
pub use entries::Entry;
pub use errors::{ReadError, SealError};
pub use headers::{AssembleError, Header, NO_ENTRIES, assemble, link};
pub use images::{Image, Kind, OpeningError};
pub use mergers::Merger;
pub use merges::{MergeError, merge};
pub use reading::read_image;
pub use sealing::{seal, seal_v1};
pub use stored_entries::StoredEntries;
pub use streams::{ReadFromError, WriteError, read_from, seal_to};
