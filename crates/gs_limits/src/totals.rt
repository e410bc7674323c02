//! The excess of a design.
#![tactic(auto)]

ghost use Rattle.std.specs.Prelude.{◌≡◌, ◌≤◌, ◌<◌, ◌*◌, sum_by};
ghost use Rattle.gs_design.specs.Limits.{excess_of};
ghost use Rattle.gs_design.specs.Timing.{FitTiming};
ghost use Rattle.gs_limits.specs.Kinds.{kind_count, of_kind, over_if};
ghost use Rattle.gs_limits.specs.Limit.{IsPlaced};

use crate::kind::{Kind, count_of, is_one, limit_at};
use crate::limit::{net_of, over};
use gs_design::{Design, Limit, TimeView, Timing};

// By how much a limit is exceeded, if the design has it.
#[inline]
fn over_at(design: &Design, timing: &Timing, limit: &Limit) -> u64
    requires fit { FitTiming design.now timing.now }
    requires placed { IsPlaced design.now limit.now }
    ensures { result ≡ over_if design.now timing.now limit.now }
{
    if is_one(design, limit) {
        let time = timing.at(net_of(design, limit));
        over(design, &time, limit)
    } else {
        0
    }
}

// The excess over the limits of a kind.
fn excess_of_kind(design: &Design, timing: &Timing, kind: Kind) -> u128
    requires { FitTiming design.now timing.now }
    ensures value { result ≡ sum_by (over_if design.now timing.now) (of_kind kind (kind_count design.now kind)) }
    ensures few { result ≤ 18446744073709551615 * 4294967296 }
{
    let mut sum: u128 = 0;
    for number in 0..count_of(design, kind) {
        let limit = limit_at(kind, number);
        sum += over_at(design, timing, &limit) as u128;
    }
    sum
}

/// The excess of a design with this timing: the sum, over all limits, of what is held above the bound, in millionths of 1 ps and of
/// 1 fF. It takes no memory.
pub fn excess(design: &Design, timing: &Timing) -> u128
    requires { FitTiming design.now timing.now }
    ensures { result ≡ excess_of design.now timing.now }
{
    excess_of_kind(design, timing, Kind::Setups)
        + excess_of_kind(design, timing, Kind::Slews)
        + excess_of_kind(design, timing, Kind::Loads)
}
