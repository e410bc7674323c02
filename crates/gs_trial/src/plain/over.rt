//! Excess over the limits of a move's cone, over all nets.
#![tactic(auto)]

ghost use Rattle.std.specs.Prelude.{◌≡◌, ◌<◌, ◌≤◌, ◌+◌, length};
ghost use Rattle.gs_design.specs.Timing.{FitTiming};
ghost use Rattle.gs_move.specs.Change.{over_on};
ghost use Rattle.gs_move.specs.Cone.{in_cone_of};
ghost use Rattle.gs_trial.specs.Over.{over_if};

use crate::outcome::outcome_at;
use crate::plain::cone::in_cone;
use gs_design::{Design, NetId, TimeView, Timing};
use gs_move::Move;

/// Sums of what is held above bounds, in one timing and in another.
#[derive(Clone, Copy, Debug)]
pub struct Overs {
    /// In the timing before a move.
    pub old: u128,
    /// In the timing after it.
    pub new: u128,
}

// The sums with one net more, if it is in the cone.
fn with_net(
    design: &Design,
    mv: &Move,
    old: &Timing,
    new: &Timing,
    net: NetId,
    so_far: &Overs,
) -> Overs
    requires inst { mv.now.inst < length design.now.insts }
    requires net { net < length design.now.nets }
    requires old { FitTiming design.now old.now }
    requires new { FitTiming design.now new.now }
    requires room_old { so_far.now.old < 85070591730234615865843651857942052864 }
    requires room_new { so_far.now.new < 85070591730234615865843651857942052864 }
    ensures old { result.old ≡ so_far.now.old + over_if (in_cone_of design.now mv.now old.now new.now) design.now old.now net }
    ensures new { result.new ≡ so_far.now.new + over_if (in_cone_of design.now mv.now old.now new.now) design.now new.now net }
    ensures near_old { result.old ≤ so_far.now.old + 309485046714833216143884288 }
    ensures near_new { result.new ≤ so_far.now.new + 309485046714833216143884288 }
{
    if in_cone(design, mv, old, new, net) {
        let outcome = outcome_at(design, net, &old.at(net), &new.at(net));
        Overs {
            old: so_far.old + outcome.over_old,
            new: so_far.new + outcome.over_new,
        }
    } else {
        *so_far
    }
}

/// The sums over the limits of the nets of a move's cone.
pub fn over_cone(design: &Design, mv: &Move, old: &Timing, new: &Timing) -> Overs
    requires inst { mv.now.inst < length design.now.insts }
    requires old { FitTiming design.now old.now }
    requires new { FitTiming design.now new.now }
    ensures old { result.old ≡ over_on (in_cone_of design.now mv.now old.now new.now) design.now old.now }
    ensures new { result.new ≡ over_on (in_cone_of design.now mv.now old.now new.now) design.now new.now }
    ensures few_old { result.old < 85070591730234615865843651857942052864 }
    ensures few_new { result.new < 85070591730234615865843651857942052864 }
{
    let mut overs = Overs { old: 0, new: 0 };
    for number in 0..design.nets.len() as u32 {
        overs = with_net(design, mv, old, new, NetId(number), &overs);
    }
    overs
}
