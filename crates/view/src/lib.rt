//! The last published checkpoint as a table, read by lookers that never wait.
//!
//! `open_view` makes a `Publisher`, a `Looker` and a `Seen`. The publisher appends images, a full one first,
//! and publishes those that are pending. A looker gets the value of a key in what was published last, in any
//! thread and without waiting.
//!
//! Contracts see a publisher as two lists of images, `published` and `pending`, and a `Seen` or a `Told` as
//! the list of images that it holds (`specs/Views.antt`). What a list of images shows is in `specs/Shown.antt`.
//! All these lists are beginnings of one list, the history of the view.
#![tactic(auto)]

pub mod histories;
pub mod limits;
pub mod lookers;
pub mod publishers;
mod rows;
pub mod tables;
#[cfg(test)]
mod tests;
pub mod views;

pub use histories::{Naming, Opened};
pub use lookers::{Answer, LookError, Looker, NoAnswer, NoLooker, Seen, Told};
pub use publishers::{AppendError, Publisher};
pub use views::{NoView, open_view};
