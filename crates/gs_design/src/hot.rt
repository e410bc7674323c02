//! What timing reads of a cell's pin.
#![tactic(auto)]

use gs_quantity::Micro;

/// What timing reads of a cell's pin.
#[derive(Clone, Copy, Debug, PartialEq, Eq)]
pub struct PinData {
    /// What it adds to the load of its net, in millionths of 1 fF.
    pub cap: Micro,
    /// The greatest slew that it allows, its own or else the library's, in millionths of 1 ps.
    pub slew_bound: Option<Micro>,
    /// The greatest load that it drives, in millionths of 1 fF.
    pub load_bound: Option<Micro>,
}
