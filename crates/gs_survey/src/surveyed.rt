//! What is found in the four parsed files while they are checked.
#![tactic(auto)]

use crate::tally::Tally;
use gs_alternatives::Alternatives;
use gs_list::Rows;

/// The numbers of cells.
#[derive(Drop)]
pub struct Placed {
    /// The number of the cell of each instance.
    pub found: Rows<u32>,
    /// The number of the driving cell of each that is given.
    pub driving: Rows<u32>,
}

/// What drives the nets of the netlist, and what reads them.
#[derive(Drop)]
pub struct Used {
    /// The net at the output of each instance.
    pub gates: Rows<u32>,
    /// The nets that are input ports.
    pub inputs: Tally,
    /// The nets that are output ports.
    pub outputs: Tally,
    /// The nets that are driven, one for each output pin and each input port.
    pub driven: Tally,
    /// The nets that are read, one for each input pin and each output port.
    pub read: Tally,
}

/// The numbers of the nets that constraints and wires name.
#[derive(Drop)]
pub struct Named {
    /// Of the ports at which the clock enters.
    pub clocks: Rows<usize>,
    /// Of the ports with an input delay.
    pub inputs: Rows<usize>,
    /// Of the ports with an output delay.
    pub outputs: Rows<usize>,
    /// Of the ports with a load.
    pub loads: Rows<usize>,
    /// Of the ports with a driving cell.
    pub drivers: Rows<usize>,
    /// Of the nets with a wire.
    pub wires: Rows<usize>,
}

/// All that is found.
#[derive(Drop)]
pub struct Survey {
    pub placed: Placed,
    pub used: Used,
    pub named: Named,
    /// The alternatives of all cells.
    pub alternatives: Alternatives,
}
