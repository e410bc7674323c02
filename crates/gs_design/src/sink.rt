//! What drives a net, and what it drives.
#![tactic(auto)]

use crate::ids::{CellId, InstId};
use gs_list::Rows;
use gs_quantity::Micro;

/// An input pin of an instance.
#[derive(Clone, Copy, Debug, PartialEq, Eq)]
pub struct Sink {
    /// The instance.
    pub inst: InstId,
    /// The pin: its place among the pins of the instance's cells.
    pub pin: u8,
}

/// A list of sinks.
pub type Sinks = Rows<Sink>;

/// The cell that is taken to drive an input port, after the SDC command `set_driving_cell`. It isn't an instance: it has no leakage,
/// its pins are on no net, and its output has no bound on the load.
#[derive(Clone, Copy, Debug, PartialEq, Eq)]
pub struct Driven {
    /// The cell.
    pub cell: CellId,
    /// The slew of a rise at each of its inputs (`-input_transition_rise`), in millionths of 1 ps.
    pub rise: Micro,
    /// The slew of a fall at each of its inputs (`-input_transition_fall`), in millionths of 1 ps.
    pub fall: Micro,
}

/// What drives a net.
#[derive(Clone, Copy, Debug, PartialEq, Eq)]
pub enum Driver {
    /// An input port.
    Port {
        /// When its edges arrive (`set_input_delay`), in millionths of 1 ps.
        delay: Micro,
        /// The cell that is taken to drive it, where one is given.
        cell: Option<Driven>,
    },
    /// The output pin of an instance.
    Inst(InstId),
}
