//! Trials by two whole timings: the plain way, which tests compare with.
#![tactic(auto)]

ghost use Rattle.std.specs.Prelude.{◌≡◌, IfOk, true};
ghost use Rattle.gs_design.specs.Sizes.{FitSizes};
ghost use Rattle.gs_design.specs.Timing.{FitTiming, IsTiming, timing_of};
ghost use Rattle.gs_move.specs.Change.{change_of};
ghost use Rattle.gs_move.specs.Moves.{after, is_move};
ghost use Rattle.gs_move.specs.Trial.{trial_of};

mod change;
mod changed;
mod cone;
mod first;
mod over;
mod same;

use crate::leaks::{new_leak, present_leak};
use crate::trial::made;
use change::change_between;
use changed::changed_records;
use gs_design::{Design, NetTimes, Sizes, Timing};
use gs_list::Rows;
use gs_move::{Judge, Move, Outcome, Trial, judges_are_lawful, moves_fit};
use gs_quantity::Mem;
use gs_timing::{time_all, timing_is_made};
use std::alloc::Global;

// The timing after a move.
fn timing_after(alloc: Global, design: &Design, sizes: &Sizes, mv: &Move) -> Result<Timing, Mem>
    requires sizes { FitSizes design.now sizes.now }
    requires mv { is_move design.now sizes.now mv.now ≡ true }
    ensures value { IfOk result (λ t. t ≡ timing_of design.now (after sizes.now mv.now)) }
    ensures fit { IfOk result (λ t. FitTiming design.now t) }
{
    timing_is_made(design);
    moves_fit(design);
    let mut changed = sizes.copy(alloc)?;
    changed.set(mv.inst, mv.place);
    time_all(alloc, design, &changed)
}

// The timing before it.
fn timing_before(design: &Design, sizes: &Sizes, timing: &Timing)
    requires sizes { FitSizes design.now sizes.now }
    requires timing { IsTiming design.now sizes.now timing.now }
    ensures { timing.now ≡ timing_of design.now sizes.now }
{
    let _ = sizes;
    let _ = timing;
    timing_is_made(design);
}

/// The trial of a move, as [`try_move`](crate::try_move) promises it, by two whole timings that are compared net by net. It is slow, and there
/// to compare with.
///
/// # Errors
///
/// `Mem` is want of memory.
pub fn try_plainly<J: Judge>(
    alloc: Global,
    design: &Design,
    sizes: &Sizes,
    timing: &Timing,
    front: u64,
    worker: u32,
    mv: Move,
    judge: &J,
) -> Result<Trial, Mem>
    requires sizes { FitSizes design.now sizes.now }
    requires timing { IsTiming design.now sizes.now timing.now }
    requires mv { is_move design.now sizes.now mv ≡ true }
    ensures trial { IfOk result (λ t. t ≡ trial_of (J.answers judge.now) design.now sizes.now mv front worker) }
    // at a glance too, by the law of judges
    ensures judged { IfOk result (λ t. t.outcome ≡ (J.answers judge.now).judge (change_of design.now sizes.now mv)) }
{
    judges_are_lawful(judge);
    timing_before(design, sizes, timing);
    let leak_old = present_leak(design, sizes, &mv);
    let leak_new = new_leak(design, sizes, &mv);
    match judge.glance(leak_old, leak_new) {
        Some(why) => {
            let outcome = Outcome::NotFair(why);
            Ok(made(alloc, mv, front, worker, Rows::empty(alloc), outcome))
        }
        None => {
            let new = timing_after(alloc, design, sizes, &mv)?;
            let change = change_between(design, sizes, &mv, timing, &new);
            let nets = changed_records(alloc, timing, &new, design.nets.len() as u32)?;
            Ok(made(alloc, mv, front, worker, nets, judge.judge(&change)))
        }
    }
}
