//! What a sweep reads.
#![tactic(auto)]

ghost use Rattle.gs_design.specs.Sizes.{FitSizes};
ghost use Rattle.gs_design.specs.Timing.{IsTiming};

use gs_design::{Design, Sizes, Timing};
use gs_move::Judge;

/// A design at sizes with their timing, and a judge of moves.
#[derive(Drop)]
pub struct Swept<'a, J: Judge> {
    pub design: &'a Design,
    pub sizes: &'a Sizes,
    pub timing: &'a Timing,
    pub judge: &'a J,
    pub ghost fit: { FitSizes design.now sizes.now },
    pub ghost timed: { IsTiming design.now sizes.now timing.now },
}
