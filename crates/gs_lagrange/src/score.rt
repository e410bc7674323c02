//! What sizes are judged by.
#![tactic(auto)]

ghost use Rattle.std.specs.Prelude.{◌≡◌};
ghost use Rattle.gs_design.specs.Timing.{timing_of};
ghost use Rattle.gs_lagrange.specs.Start.{is_less, score_of};
ghost use Rattle.gs_lagrange.specs.Timed.{IsTimed};

use crate::amount::is_before;
use gs_design::{Design, Sizes, Timing};
use gs_limits::{excess, leakage};
use gs_quantity::Micro;

/// The excess of a timing, in millionths of 1 ps and of 1 fF, and the leakage of its sizes.
#[derive(Clone, Copy, Debug)]
pub struct Score {
    pub excess: u128,
    pub leakage: Micro,
}

/// What sizes with their timing are judged by.
pub fn score_of(design: &Design, sizes: &Sizes, timing: &Timing) -> Score
    requires timed { IsTimed design.now sizes.now timing.now }
    requires made { timing.now ≡ timing_of design.now sizes.now }
    ensures { result ≡ score_of design.now sizes.now }
{
    Score {
        excess: excess(design, timing),
        leakage: leakage(design, sizes),
    }
}

/// Whether one is less than another: by the excess, and then by the leakage.
pub fn is_less(a: &Score, b: &Score) -> bool
    ensures { result ≡ is_less a.now b.now }
{
    a.excess < b.excess || (a.excess == b.excess && is_before(a.leakage, b.leakage))
}
