//! What the nets of a move's cone say of its limits.
#![tactic(auto)]

ghost use Rattle.std.specs.Prelude.{◌≡◌, ◌+◌, ◌<◌, ◌≤◌, None, length, sum_by, true};
ghost use Rattle.gs_design.specs.Limits.{limits_at, over_in};
ghost use Rattle.gs_design.specs.Sizes.{FitSizes};
ghost use Rattle.gs_design.specs.Times.{time_at};
ghost use Rattle.gs_design.specs.Timing.{FitTiming, IsTiming};
ghost use Rattle.gs_incr.specs.Seen.{seen_of};
ghost use Rattle.gs_limits.specs.Outcome.{first_broken};
ghost use Rattle.gs_move.specs.Change.{change_of};
ghost use Rattle.gs_move.specs.Moves.{is_move};
ghost use Rattle.gs_trial.specs.Order.{earlier};

use crate::first::earlier;
use crate::outcome::outcome_at;
use gs_design::{Design, NetAt, Sizes, TimeView, Timing};
use gs_incr::cones_are_whole;
use gs_limits::NetOutcome;
use gs_move::{Move, moves_fit};
use gs_timing::timing_is_made;

// The outcome of no net. It names no limit.
fn nothing() -> NetOutcome
    ensures { result ≡ record { broken = None; over_old = 0; over_new = 0 } }
{
    NetOutcome {
        broken: None,
        over_old: 0,
        over_new: 0,
    }
}

// The outcome of some nets, with one net more.
#[inline]
fn with_net(design: &Design, timing: &Timing, so_far: &NetOutcome, seen: &NetAt) -> NetOutcome
    requires net { seen.now.net < length design.now.nets }
    requires timing { FitTiming design.now timing.now }
    requires room_old { so_far.now.over_old < 85070591730234615865843651857942052864 }
    requires room_new { so_far.now.over_new < 85070591730234615865843651857942052864 }
    ensures broken { result.broken ≡ earlier design.now so_far.now.broken (first_broken design.now (time_at timing.now seen.now.net) seen.now.time (limits_at design.now seen.now.net)) }
    ensures old { result.over_old ≡ so_far.now.over_old + sum_by (over_in design.now (time_at timing.now seen.now.net)) (limits_at design.now seen.now.net) }
    ensures new { result.over_new ≡ so_far.now.over_new + sum_by (over_in design.now seen.now.time) (limits_at design.now seen.now.net) }
    ensures near_old { result.over_old ≤ so_far.now.over_old + 309485046714833216143884288 }
    ensures near_new { result.over_new ≤ so_far.now.over_new + 309485046714833216143884288 }
{
    let outcome = outcome_at(design, seen.net, &timing.at(seen.net), &seen.time);
    NetOutcome {
        broken: earlier(design, &so_far.broken, &outcome.broken),
        over_old: so_far.over_old + outcome.over_old,
        over_new: so_far.over_new + outcome.over_new,
    }
}

/// What a move does to its limits, from what is seen of it: the first limit that is met before and not after, and the sums over the limits of
/// the nets that are seen.
pub fn judge_seen(
    design: &Design,
    sizes: &Sizes,
    timing: &Timing,
    mv: &Move,
    seen: &[NetAt],
) -> NetOutcome
    requires sizes { FitSizes design.now sizes.now }
    requires timing { IsTiming design.now sizes.now timing.now }
    requires mv { is_move design.now sizes.now mv.now ≡ true }
    requires seen { seen.now ≡ seen_of design.now sizes.now mv.now }
    ensures broken { result.broken ≡ (change_of design.now sizes.now mv.now).broken }
    ensures old { result.over_old ≡ (change_of design.now sizes.now mv.now).over_old }
    ensures new { result.over_new ≡ (change_of design.now sizes.now mv.now).over_new }
    ensures few_old { result.over_old < 85070591730234615865843651857942052864 }
    ensures few_new { result.over_new < 85070591730234615865843651857942052864 }
{
    moves_fit(design);
    timing_is_made(design);
    cones_are_whole(design);
    let mut so_far = nothing();
    for net in seen {
        so_far = with_net(design, timing, &so_far, net);
    }
    so_far
}
