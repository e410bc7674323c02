//! Where a net has two drivers, so that its refusal can show both.
//!
//! [`drivers_of`] reads a library, and answers the places of a netlist at which a net is driven first and a second time. What drives is
//! what the link takes for a driver: the output pin of an instance's cell, and an input port.
//!
//! - `specs/Outputs.antt`: which pin of which cell drives. `specs/Twice.antt`: the two places, by a library that is read from bytes.
//!
//! Cost: the library is read once and the netlist cut twice; at each pin to which the net is connected the cells are looked through for
//! the instance's.
#![tactic(auto)]

mod outputs;
#[cfg(test)]
mod tests;
mod twice;

pub use twice::{Drivers, drivers_of};
