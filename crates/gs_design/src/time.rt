//! What timing knows of a net.
#![tactic(auto)]

use crate::ids::NetId;
use gs_list::Rows;
use gs_quantity::Micro;

/// A rise or a fall of a net.
#[derive(Clone, Copy, Debug, PartialEq, Eq)]
pub struct Edge {
    /// When it comes at the latest, in millionths of 1 ps.
    pub arrival: Micro,
    /// How long it takes at most, in millionths of 1 ps.
    pub slew: Micro,
}

/// The timing of one net.
#[derive(Clone, Copy, Debug, PartialEq, Eq)]
pub struct NetTime {
    /// The load, in millionths of 1 fF.
    pub load: Micro,
    /// The bound on the load, where there is one.
    pub load_bound: Option<Micro>,
    /// The bound on the slew, where there is one.
    pub slew_bound: Option<Micro>,
    /// The rise.
    pub rise: Edge,
    /// The fall.
    pub fall: Edge,
}

/// The timing of a net, with the net.
#[derive(Clone, Copy, Debug, PartialEq, Eq)]
pub struct NetAt {
    /// The net.
    pub net: NetId,
    /// Its timing.
    pub time: NetTime,
}

/// A list of nets with their timing.
pub type NetTimes = Rows<NetAt>;
