//! The survey of a netlist, a library, wires and constraints before they are linked: what they name is looked up once, and is kept by
//! number, or the first refusal is given.
//!
//! [`survey`] checks the four in the order of [`LinkErr`]: instances and driving cells, then nets, then constraints and wires, then the arcs
//! of the cells that are used and how much there is of each kind. Its contract says both what it answers where nothing is refused and
//! which refusal is the first. A cycle of gates is found later, by the link.
//!
//! - `specs/Fault.antt`: the first refusal; `Instances.antt`, `Uses.antt`, `Limits.antt`, `Counts.antt`: the refusals, each a small
//!   function to an `Option`. These are what a reader of the link believes.
//! - `specs/Survey.antt`, `Found.antt`: what has been found, by number.
//!
//! Names are looked up once, all that follows goes by numbers. Cells are found in a map of all cells, ports in a map of the nets up to the
//! last port. The nets of wires are found in one pass where the wires stand in the order of the nets, and else in a map of all nets. A
//! further refusal is a function in `specs` with its line in `first_fault`, and a check in `phases` with its line in `survey_phases`.
#![tactic(auto)]

mod counts;
mod error;
mod instances;
mod limits;
mod names;
mod phases;
mod pins;
mod survey_phases;
mod surveyed;
mod tally;
mod uses;

pub use error::{Counted, LinkErr};
pub use instances::{cell_at_number, cell_for, is_gate_kind, output_of};
pub use names::copy_of;
pub use pins::{inputs, net_at};
pub use survey_phases::survey;
pub use surveyed::{Named, Placed, Survey, Used};
pub use tally::Tally;
