//! What lies of an instance and of a net in one row.
#![tactic(auto)]

use crate::ids::NetId;
use crate::sink::Driver;
use gs_quantity::Micro;

/// The numbers of an instance that timing reads.
#[derive(Clone, Copy, Debug, PartialEq, Eq)]
pub struct InstRow {
    /// Where its alternatives begin in the list of choices.
    pub from: u32,
    /// Where they end.
    pub to: u32,
    /// The place of the netlist's cell among them.
    pub first: u32,
    /// The net at its output pin.
    pub output: NetId,
}

/// The numbers of a net that timing reads, but its sinks.
#[derive(Clone, Copy, Debug, PartialEq, Eq)]
pub struct NetRow {
    /// The capacitance of the wire, in millionths of 1 fF.
    pub wire: Micro,
    /// The load at the port, input or output, that it is, in millionths of 1 fF; 0 where there is none.
    pub port_load: Micro,
    /// What drives it.
    pub driver: Driver,
}
