//! The first limit that is met in one timing and not in another, over all nets.
#![tactic(auto)]

ghost use Rattle.std.specs.Prelude.{◌≡◌, find};
ghost use Rattle.gs_design.specs.Limits.{limits};
ghost use Rattle.gs_design.specs.Timing.{FitTiming};
ghost use Rattle.gs_move.specs.Change.{is_lost};

use crate::first::earlier;
use gs_design::{Design, Limit, NetId, TimeView, Timing};
use gs_limits::judge_net;

/// The first limit, in the order of the limits of a design, that is met in one timing and not in the other.
pub fn first_lost(design: &Design, old: &Timing, new: &Timing) -> Option<Limit>
    requires old { FitTiming design.now old.now }
    requires new { FitTiming design.now new.now }
    ensures { result ≡ find (is_lost design.now old.now new.now) (limits design.now) }
{
    let mut first = None;
    for number in 0..design.nets.len() as u32 {
        let net = NetId(number);
        let outcome = judge_net(design, net, &old.at(net), &new.at(net));
        first = earlier(design, &first, &outcome.broken);
    }
    first
}
