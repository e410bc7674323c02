//! What the costs of a pass are reckoned from.
#![tactic(auto)]

ghost use Rattle.std.specs.Prelude.{◌≡◌, length};
ghost use Rattle.gs_lagrange.specs.Flow.{AreLight};
ghost use Rattle.gs_lagrange.specs.Timed.{IsTimed};

use crate::flow::Flows;
use gs_design::{Design, Sizes, Timing};

/// A design at sizes with their timing, and the weights of its nets.
#[derive(Clone, Copy)]
pub struct Weighed<'a> {
    pub design: &'a Design,
    pub sizes: &'a Sizes,
    pub timing: &'a Timing,
    pub flows: &'a Flows,
    pub ghost timed: { IsTimed design.now sizes.now timing.now },
    pub ghost as_many: { length flows.now ≡ length design.now.nets },
    pub ghost light: { AreLight flows.now },
}
