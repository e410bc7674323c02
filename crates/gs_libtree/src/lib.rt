//! The reader of Liberty texts: bytes to a tree of groups, after the syntax of the Liberty reference manual, in this
//! project's own profile.
//!
//! [`read_tree`] answers the one [`Group`] that the whole text is, or the one place at which it stops being a text of the
//! form. Its contract says both ways what is read: it answers `Ok` exactly on the texts of the form whose groups are at
//! most 64 deep, with the one tree, and each refusal comes exactly where its cause stands. Want of memory is the one
//! answer that may come at any point, but not in place of a string or a comment without an end. What the names mean is not
//! looked at here: an unknown attribute is as good as a known one.
//!
//! A [`Group`] keeps that all names, args and values in it, those of inner groups among them, have at most 2^28 bytes
//! together. `Group::root` says so of the [`Node`] that it gives, and `read_tree` that a tree has no more bytes than its
//! text.
//!
//! - `specs/Tree.antt`: the form, as whole trees with their spelling.
//! - `specs/Text.antt`: the group that a tree stands for, and how deep it may be.
//! - `specs/Bytes.antt`: how many bytes the names, args and values of a group have together.
//! - `specs/Refusal.antt`: the cause of each refusal, as fronts of the form.
//! - `specs/Machine.antt`: the reader's steps, token by token, of which the public contract says nothing.
//!
//! `src/driven.rt` makes the reader a machine of `gs_drive`, which cuts the text and hands it the pieces one at a time; `proofs/Laws.antt`
//! proves of it what the driver asks (`IsReader`), and the public clauses are the driver's under this crate's names of refusals.
//!
//! Reading takes one pass over the bytes, and keeps no list of pieces. The open groups stand in a list, so nothing recurses
//! while a text is read. The tree owns its names.
//!
//! A new kind of item is a case of `Content` in `specs/Tree.antt`, arms of the steps in `specs/Machine.antt`, and the
//! same arms of `Reader`.
#![tactic(auto)]

mod driven;
mod error;
mod law;
mod read;
mod reader;
mod token;
mod tree;

pub use error::LibTextErr;
pub use law::each_text_is_decided;
pub use read::read_tree;
pub use tree::{Group, Item, Node};
