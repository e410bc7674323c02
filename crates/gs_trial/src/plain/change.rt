//! What a judge sees of a move between two whole timings.
#![tactic(auto)]

ghost use Rattle.std.specs.Prelude.{◌≡◌, true};
ghost use Rattle.gs_design.specs.Sizes.{FitSizes};
ghost use Rattle.gs_design.specs.Timing.{FitTiming};
ghost use Rattle.gs_move.specs.Change.{change_between, facts_of};
ghost use Rattle.gs_move.specs.Moves.{is_move};

use crate::leaks::{new_leak, present_leak};
use crate::plain::first::first_lost;
use crate::plain::over::over_cone;
use gs_design::{Design, Sizes, Timing};
use gs_move::{Change, Move};

/// What a move changes from one timing to another.
pub fn change_between(
    design: &Design,
    sizes: &Sizes,
    mv: &Move,
    old: &Timing,
    new: &Timing,
) -> Change
    requires sizes { FitSizes design.now sizes.now }
    requires mv { is_move design.now sizes.now mv.now ≡ true }
    requires old { FitTiming design.now old.now }
    requires new { FitTiming design.now new.now }
    ensures { facts_of result ≡ change_between design.now sizes.now mv.now old.now new.now }
{
    let leak_old = present_leak(design, sizes, mv);
    let leak_new = new_leak(design, sizes, mv);
    let broken = first_lost(design, old, new);
    let overs = over_cone(design, mv, old, new);
    Change {
        leak_old,
        leak_new,
        broken,
        over_old: overs.old,
        over_new: overs.new,
    }
}
