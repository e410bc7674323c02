//! Limits.
#![tactic(auto)]

use crate::ids::NetId;
use gs_quantity::Micro;

/// A limit of a design.
#[derive(Clone, Copy, Debug, PartialEq, Eq)]
pub enum Limit {
    /// The latest arrival at an endpoint, by the endpoint's number from 0.
    Setup(u32),
    /// The greatest slew of a net.
    Slew(NetId),
    /// The greatest load of a net that an instance drives.
    Load(NetId),
    /// The greatest area of the design. No design has this limit yet: it is in no list of limits, and no definition says what it holds.
    Area,
}

/// A limit that isn't met.
#[derive(Clone, Copy, Debug, PartialEq, Eq)]
pub struct Violation {
    /// The limit.
    pub limit: Limit,
    /// What the design holds: more than the bound. In millionths of 1 ps, or of 1 fF for a load.
    pub held: Micro,
    /// The bound, in the same unit.
    pub bound: Micro,
}
