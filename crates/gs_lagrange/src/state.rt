//! What a pass goes on from.
#![tactic(auto)]

use gs_design::{Numbers, Sizes, Timing};

/// Sizes with their timing, and the multipliers of the endpoints.
#[derive(Drop)]
pub struct State {
    pub sizes: Sizes,
    pub timing: Timing,
    pub multipliers: Numbers,
}
