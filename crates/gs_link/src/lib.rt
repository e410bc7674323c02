//! The link: from a netlist, a library, wires and constraints to one design, or the first refusal.
//!
//! [`link`] answers the [`Design`](gs_design::Design) of the four, or the first of ten refusals. Its contract says both ways what is
//! linked: `Ok` exactly with the one design, each refusal exactly where it is the first that stands, up to the cycle that a
//! `Loop` carries, and want of memory at any point. [`each_design_is_decided`] is its law.
//!
//! - `specs/Linked.antt`: the instances, nets, endpoints and order of the design.
//! - `specs/Cause.antt`, `Answers.antt`: the cause of a refusal, and what the call answers. The refusals but a cycle are `gs_survey`'s.
//! - The other files of `specs` say what the link has built on its way; no public clause names them.
//!
//! `gs_survey` checks the four in the order of the refusals and keeps what it finds by number; `assemble` builds the design of it.
#![tactic(auto)]

mod assemble;
mod build;
mod columns;
mod ends;
mod give;
mod law;
mod linking;
mod nets;
mod order;
mod pieces;
mod renumber;
mod sinks;
mod stages;
mod values;

pub use gs_survey::{Counted, LinkErr};
pub use law::each_design_is_decided;
pub use linking::link;
