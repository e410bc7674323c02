//! Edges of nets.
#![tactic(auto)]

use gs_design::NetId;

/// The rise of a net, or else its fall.
#[derive(Clone, Copy, Debug)]
pub struct NetEdge {
    pub net: NetId,
    pub rise: bool,
}
