//! A lock over one book, which workers take in turns and give back with a list that only grows.
//!
//! # What it is for
//!
//! Workers share one value, the book, of a type that says with [`Told`] what it stands for: a tag that stays, and a
//! list of rows that only grows. A [`Hall`] is the lock over the book, a [`Seat`] is a worker's place at it, and a
//! [`Turn`] is the time in which one worker holds the book. The book moves out of the lock to the worker by value and
//! back again, so nothing is copied, and the lock knows nothing of what the book is.
//!
//! # What the contracts promise
//!
//! - A book that a seat takes has the tag of the book that the hall was opened with, and its list goes on from the
//!   list that the seat gave back last. So what a worker gave back stands at the same places in every list that it
//!   takes later, and in the closed book.
//! - A worker gives the book back in the turn in which it took it, with the same tag and a list that goes on from the
//!   one that it took: the contract of [`Hall::give`] asks for it, and a `Turn` can't be dropped.
//! - [`Hall::close`] refuses exactly where fewer seats are given than were made, and hands hall and seats back then.
//!   [`Hall::open`] hands the book back where memory is wanted.
//!
//! The rule behind these stands in `specs/Rule.antt`: a word that is 0 or 1, and one slot for the book, with what each
//! seat knows. There are six kinds of step and no other: claim, empty, fill, release, split and join. Each is proved to
//! keep the rule, whatever other threads do in between.
//!
//! Nothing is promised of waiting: not that a turn comes, nor in which order, nor that threads run at one time. Of the
//! lists that other seats take in between, only the rule speaks.
//!
//! # What it costs
//!
//! A turn is one compare-exchange and one swap on a word, and two moves of the book. A worker that finds the book out
//! yields and tries again. Memory is taken by `open` alone. Only `take` may wait.
//!
//! # Where to change it
//!
//! `told.rt` has the trait, `view.rt` what a seat knows and the kinds of step, `hall.rt` the types with `take` and
//! `give`, `open.rt` and `close.rt` the two ends. A new kind of step wants a word for what it changes in
//! `specs/Rule.antt`, and a lemma in `proofs/Keeps.antt` that it keeps the rule.
#![tactic(auto)]

mod close;
mod hall;
mod open;
#[cfg(test)]
mod tests;
mod told;
mod view;

pub use close::StillOut;
pub use hall::{Hall, Seat, Turn};
pub use told::Told;

/// Memory was wanted and there was none.
#[derive(Clone, Copy, Debug, PartialEq, Eq)]
pub struct Mem;
