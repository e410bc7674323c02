//! What the sizes of a design leak, and how its timing stands against its limits.
//!
//! The rules are definitions of `gs_design`: `leak_of`, `limits`, `excess_of` and `violations_of` (`specs/Sizes.antt`, `specs/Limits.antt`). This
//! crate computes them, and each contract is an equation with the definition:
//!
//! - [`leakage`] is the sum of the leakages of all instances' cells.
//! - [`excess`] is the sum, over all limits, of what is held above the bound.
//! - [`violations`] lists every limit that isn't met, with what is held and the bound: setup by endpoint, then slew by net, then load by
//!   net. It is the one call here that takes memory.
//! - [`judge_net`] says of one net what a change of its timing does: the first of its limits that was met and no longer is, and the excess over
//!   its limits before and after. It reads the endpoints on that net alone, and no others.
//!
//! Held at the bound is met. A bound that isn't given is always met.
//!
//! Each word of a limit (held, bound, met, over) is one function of a record and a limit in `limit.rt`. To add a kind of limit, add it to the
//! definitions, to those functions and to the lists of kinds in `totals.rt` and `unmet.rt`.
#![tactic(auto)]

mod amount;
mod kind;
mod leak;
mod limit;
mod outcome;
#[cfg(test)]
mod tests;
mod totals;
mod unmet;

pub use leak::leakage;
pub use outcome::{NetOutcome, judge_net};
pub use totals::excess;
pub use unmet::violations;
