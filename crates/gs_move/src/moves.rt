//! Moves.
#![tactic(auto)]

use gs_design::InstId;

/// A move: an instance takes another cell.
#[derive(Clone, Copy, Debug, PartialEq, Eq)]
pub struct Move {
    /// The instance.
    pub inst: InstId,
    /// The place of its new cell among its alternatives, from 0.
    pub place: u32,
}
