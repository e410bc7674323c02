//! The netlist reader: structural Verilog, after IEEE 1364-2005, in this project's own profile.
//!
//! [`read_netlist`] reads the bytes of one module and answers its [`Netlist`], or the one place at which they stop being a
//! netlist. Its contract says both ways what is read: it answers `Ok` exactly on the texts of the form that keep the rules
//! on names, with the one netlist that the text stands for, and each refusal exactly where its cause stands. Want of memory
//! is the one answer that may come at any point, but not in place of a comment without an end. Comments are passed over, and an
//! escaped name is the same as the name without its backslash.
//!
//! - `specs/Tree.antt`: the form, as whole trees with their spelling.
//! - `specs/Text.antt`: what a tree stands for; `specs/Circuit.antt`: what every netlist keeps.
//! - `specs/Refusal.antt`: the cause of each refusal, as fronts of the form.
//! - `specs/Machine.antt`: the reader's steps, token by token, of which the public contract says nothing.
//! - `specs/Index.antt`, `specs/Names.antt`: the reader's own maps, of which it says nothing either.
//!
//! `src/driven.rt` makes the reader a machine of `gs_drive`, which cuts the text and hands it the pieces one at a time; `proofs/Laws.antt`
//! proves of it what the driver asks (`IsReader`), and the public clauses are the driver's under this crate's names of refusals.
//!
//! Reading takes one pass over the bytes, and keeps no list of pieces. Names are found by maps that borrow the text, each a list of
//! buckets by a hash of the name, with an ordered map in each. The number of buckets grows with the text, so the time is that of
//! the text's length, and where hashes meet by design at most that times the logarithm of the number of names. Nothing recurses.
//!
//! A new kind of item is a case of `Item` in `specs/Tree.antt`, a row of the table `next`, and an arm of `Reader::enter`.
#![tactic(auto)]

mod build;
mod driven;
mod error;
mod law;
mod machine;
mod names;
mod netlist;
mod nets;
mod parts;
mod read;
mod reader;
#[cfg(test)]
mod tests;

pub use error::VerilogErr;
pub use law::{each_netlist_is_kept, each_text_is_decided};
pub use netlist::Netlist;
pub use parts::{Link, Links, Port, Ports, RawInst, RawInsts};
pub use read::read_netlist;
