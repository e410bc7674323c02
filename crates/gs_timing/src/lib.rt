//! The timing of a design: the equation of a net, and the one timing that meets it at every net.
//!
//! [`eval_net`] promises the record of one net, from the cells on it and the records of the nets that its driver reads; it takes
//! no memory, and counts as one step. [`time_all`] promises the one list of records that meets the equation of every net. The
//! equation is `local_of` of the crate `gs_design` (`specs/Timing.antt`, `specs/Edges.antt`, `specs/Load.antt`), and nothing of it is
//! stated here.
//!
//! `eval_net` is what a run of sizing does most, so it reads by number alone, searches nothing, and passes through the sinks of the net
//! once. It reads sizes and timings through views, and an overlay of changes is evaluated as a whole design is.
//!
//! Where to change what: the edges that an arc makes in `arc`, those of a driver in `driver`, the load and the bounds of a net in `hung`,
//! the record of a net in `eval`, the pass over all nets in `whole`, and what crates above add and compare with in `laws`.
#![tactic(auto)]

mod arc;
mod driver;
mod edge;
mod eval;
mod hung;
mod laws;
#[cfg(test)]
mod tests;
mod whole;

pub use eval::eval_net;
pub use laws::{arrivals_are_small, loads_are_small, one_timing, record_reads, timing_is_made};
pub use whole::time_all;
