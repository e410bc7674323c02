//! The SPEF reader: the lumped capacitance of each net, after IEEE 1481-1999, in this project's own profile.
//!
//! [`read_spef`] reads the bytes of a text and answers its [`Wires`], one for each net block, or the first line that is at fault.
//! Its contract says both ways what is read: it answers `Ok` exactly on the texts of the profile, with the one list of wires that
//! the text stands for, and each refusal exactly where its cause stands. Want of memory is the one answer that may come at any
//! point. [`each_text_is_decided`] is the law beside it: each text stands for one list of wires or has one cause, never both.
//!
//! - `specs/Lines.antt`: a text's lines and their words; `specs/Names.antt`: what a word writes as a name.
//! - `specs/Format.antt`: what a line says at its place, and the place after it.
//! - `specs/Spef.antt`: what the lines so far say of the next (the unit, the name map, the nets), the fault of a line, and
//!   `SpefText`, the texts of the profile.
//! - `specs/Refusal.antt`: the cause of each refusal; `specs/Wires.antt`: what the type of wires keeps.
//! - `specs/Reader.antt`: what the reader holds, of which the public contract says nothing.
//!
//! Reading takes one pass over the bytes and one over the pieces. Indexes and nets are found by maps in buckets, so the time is
//! that of the text's length. Nothing recurses.
//!
//! A new form of a line is a case of `Says` in `src/format.rt` and `specs/Format.antt`, and an arm of `Reader::take`.
#![tactic(auto)]

mod error;
mod format;
mod law;
mod read;
mod reader;
#[cfg(test)]
mod tests;
mod wires;
mod words;

pub use error::SpefErr;
pub use law::each_text_is_decided;
pub use read::read_spef;
pub use wires::{Wire, Wires};
