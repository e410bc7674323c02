//! Endpoints.
#![tactic(auto)]

use crate::ids::{InstId, NetId};
use gs_list::Rows;
use gs_quantity::Micro;

/// Where an endpoint is.
#[derive(Clone, Copy, Debug, PartialEq, Eq)]
pub enum EndPlace {
    /// At an output port.
    Output,
    /// At a data pin of a flip-flop.
    Pin {
        /// The flip-flop.
        inst: InstId,
        /// The pin: its place among the pins of the flip-flop's cell.
        pin: u8,
    },
}

/// An endpoint: where the arrival of a net's edges is bounded.
#[derive(Clone, Copy, Debug, PartialEq, Eq)]
pub struct End {
    /// Where it is.
    pub place: EndPlace,
    /// The net there.
    pub net: NetId,
    /// The latest arrival that is allowed, in millionths of 1 ps.
    pub bound: Micro,
}

/// The endpoints of a design: those at output ports by net, and then those at data pins by instance and pin.
pub type Ends = Rows<End>;
