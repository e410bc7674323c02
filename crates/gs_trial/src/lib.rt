//! Trials: what a move would change, and what a judge says of it.
//!
//! [`try_move`] promises the trial of a move at sizes as `trial_of` of `gs_move` says it (`specs/Trial.antt` there): the nets whose records
//! the move changes, each with its new record, and the judge's outcome; where the judge refuses at a glance, that refusal and no net.
//! It changes nothing. [`try_in`] promises the same in memory that is kept from trial to trial, and [`outcome_in`] the judge's outcome alone.
//!
//! A trial retimes the cone of the move (`gs_incr`), and reads of the design what it has seen: a limit on another net can't be broken, and its
//! excess doesn't count. What it computes is stated in `gs_move`; nothing is stated here but the order of limits by number (`specs/Order.antt`),
//! by which the first of several limits is found, and how many nets a trial evaluates (`specs/Steps.antt`). [`try_plainly`] is the same
//! promise kept by two whole timings, for tests to compare with.
//!
//! Where to change what: the leakages of a move in `leaks`, what a net's change does to its limits in `outcome`, the earlier of two limits in
//! `first`, what all nets that are seen say of the limits in `judged`, the records that change in `changed`, the trial in `trial`, and
//! the plain way in `plain`.
#![tactic(auto)]

mod bounded;
mod changed;
mod first;
mod judged;
mod leaks;
mod outcome;
mod plain;
mod trial;

pub use plain::try_plainly;
pub use trial::{outcome_in, try_in, try_move};
