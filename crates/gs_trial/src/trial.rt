//! Trials.
#![tactic(auto)]

ghost use Rattle.std.specs.Prelude.{◌≡◌, ◌+◌, IfOk, None, OnErr, length, true};
ghost use Rattle.gs_design.specs.Sizes.{FitSizes};
ghost use Rattle.gs_design.specs.Timing.{IsTiming};
ghost use Rattle.gs_incr.specs.Seen.{seen_of};
ghost use Rattle.gs_move.specs.Change.{change_of, facts_of};
ghost use Rattle.gs_move.specs.Fair.{new_leak, present_leak};
ghost use Rattle.gs_move.specs.Moves.{is_move};
ghost use Rattle.gs_move.specs.Trial.{trial_of, trial_with};
ghost use Rattle.gs_trial.specs.Steps.{steps_of};

use crate::changed::changed_nets;
use crate::judged::judge_seen;
use crate::leaks::{new_leak, present_leak};
use gs_design::{Design, NetAt, NetTimes, Sizes, Timing};
use gs_incr::Scratch;
use gs_list::Rows;
use gs_move::{Change, Delta, Judge, Move, Outcome, Trial, judges_are_lawful};
use gs_quantity::{Mem, Steps};
use std::alloc::Global;
use std::sync::ledger::Ledger;

/// A trial with these records and this outcome.
pub fn made(
    alloc: Global,
    mv: Move,
    front: u64,
    worker: u32,
    nets: NetTimes,
    outcome: Outcome,
) -> Trial
    ensures { result ≡ trial_with mv front worker nets outcome }
{
    let delta = Delta {
        inst: mv.inst,
        place: mv.place,
        nets,
    };
    Trial {
        mv,
        front,
        worker,
        reads: Rows::empty(alloc),
        delta,
        outcome,
    }
}

// What a judge sees of a move.
fn change_seen(design: &Design, sizes: &Sizes, timing: &Timing, mv: &Move, seen: &[NetAt]) -> Change
    requires sizes { FitSizes design.now sizes.now }
    requires timing { IsTiming design.now sizes.now timing.now }
    requires mv { is_move design.now sizes.now mv.now ≡ true }
    requires seen { seen.now ≡ seen_of design.now sizes.now mv.now }
    ensures { facts_of result ≡ change_of design.now sizes.now mv.now }
{
    let leak_old = present_leak(design, sizes, mv);
    let leak_new = new_leak(design, sizes, mv);
    let judged = judge_seen(design, sizes, timing, mv, seen);
    Change {
        leak_old,
        leak_new,
        broken: judged.broken,
        over_old: judged.over_old,
        over_new: judged.over_new,
    }
}

/// What a judge says of a move at sizes with their timing, in the memory of a [`Scratch`] for the design; it takes little more. Conditions
/// and steps are those of [`try_move`].
///
/// # Errors
///
/// `Mem` is want of memory.
pub fn outcome_in<J: Judge, L: Ledger>(
    scratch: &mut Scratch,
    design: &Design,
    sizes: &Sizes,
    timing: &Timing,
    mv: &Move,
    judge: &J,
    steps: &mut Steps<L>,
) -> Result<Outcome, Mem>
    requires nets { scratch.old.nets ≡ length design.now.nets }
    requires sizes { FitSizes design.now sizes.now }
    requires timing { IsTiming design.now sizes.now timing.now }
    requires mv { is_move design.now sizes.now mv.now ≡ true }
    ensures nets { scratch.new.nets ≡ scratch.old.nets }
    ensures outcome { IfOk result (λ o. o ≡ (J.answers judge.now).judge (change_of design.now sizes.now mv.now)) }
    ensures steps { IfOk result (λ _. steps.new ≡ steps.old + steps_of (J.answers judge.now) design.now sizes.now mv.now) }
    // What is refused at a glance is told, whatever memory there is.
    ensures told { OnErr result ((J.answers judge.now).glance (present_leak design.now sizes.now mv.now) (new_leak design.now mv.now) ≡ None) }
{
    judges_are_lawful(judge);
    let leak_old = present_leak(design, sizes, mv);
    let leak_new = new_leak(design, sizes, mv);
    match judge.glance(leak_old, leak_new) {
        Some(why) => Ok(Outcome::NotFair(why)),
        None => {
            scratch.retime(design, sizes, timing, mv, steps)?;
            let change = change_seen(design, sizes, timing, mv, scratch.seen());
            Ok(judge.judge(&change))
        }
    }
}

/// Tries a move as [`try_move`] does, in the memory of a [`Scratch`] for the design.
///
/// # Errors
///
/// `Mem` is want of memory.
pub fn try_in<J: Judge, L: Ledger>(
    alloc: Global,
    scratch: &mut Scratch,
    design: &Design,
    sizes: &Sizes,
    timing: &Timing,
    front: u64,
    worker: u32,
    mv: Move,
    judge: &J,
    steps: &mut Steps<L>,
) -> Result<Trial, Mem>
    requires nets { scratch.old.nets ≡ length design.now.nets }
    requires sizes { FitSizes design.now sizes.now }
    requires timing { IsTiming design.now sizes.now timing.now }
    requires mv { is_move design.now sizes.now mv ≡ true }
    ensures nets { scratch.new.nets ≡ scratch.old.nets }
    ensures trial { IfOk result (λ t. t ≡ trial_of (J.answers judge.now) design.now sizes.now mv front worker) }
    ensures judged { IfOk result (λ t. t.outcome ≡ (J.answers judge.now).judge (change_of design.now sizes.now mv)) }
    ensures steps { IfOk result (λ _. steps.new ≡ steps.old + steps_of (J.answers judge.now) design.now sizes.now mv) }
    // What is refused at a glance is told, whatever memory there is.
    ensures told { OnErr result ((J.answers judge.now).glance (present_leak design.now sizes.now mv) (new_leak design.now mv) ≡ None) }
{
    judges_are_lawful(judge);
    let leak_old = present_leak(design, sizes, &mv);
    let leak_new = new_leak(design, sizes, &mv);
    match judge.glance(leak_old, leak_new) {
        Some(why) => {
            let outcome = Outcome::NotFair(why);
            Ok(made(alloc, mv, front, worker, Rows::empty(alloc), outcome))
        }
        None => {
            scratch.retime(design, sizes, timing, &mv, steps)?;
            let change = change_seen(design, sizes, timing, &mv, scratch.seen());
            let nets = changed_nets(alloc, design, sizes, timing, &mv, scratch.seen())?;
            Ok(made(alloc, mv, front, worker, nets, judge.judge(&change)))
        }
    }
}

/// Tries a move at sizes with their timing: what it would change, and what the judge says of it. Nothing is changed. `front` and
/// `worker` are noted in the trial. Conditions: the timing is that of the sizes, and the move is one at the sizes.
///
/// It evaluates the nets of the move's cone, each of which counts as one step, and none where the judge refuses at a glance. The list of
/// reads is empty. It makes its own memory, which takes time by the size of the design: a caller with many moves calls [`try_in`].
///
/// # Errors
///
/// `Mem` is want of memory.
pub fn try_move<J: Judge, L: Ledger>(
    alloc: Global,
    design: &Design,
    sizes: &Sizes,
    timing: &Timing,
    front: u64,
    worker: u32,
    mv: Move,
    judge: &J,
    steps: &mut Steps<L>,
) -> Result<Trial, Mem>
    requires sizes { FitSizes design.now sizes.now }
    requires timing { IsTiming design.now sizes.now timing.now }
    requires mv { is_move design.now sizes.now mv ≡ true }
    ensures trial { IfOk result (λ t. t ≡ trial_of (J.answers judge.now) design.now sizes.now mv front worker) }
    // at a glance too, by the law of judges
    ensures judged { IfOk result (λ t. t.outcome ≡ (J.answers judge.now).judge (change_of design.now sizes.now mv)) }
    // the nets of the cone, or none at a glance
    ensures steps { IfOk result (λ _. steps.new ≡ steps.old + steps_of (J.answers judge.now) design.now sizes.now mv) }
{
    let mut scratch = Scratch::new(alloc, design)?;
    try_in(
        alloc,
        &mut scratch,
        design,
        sizes,
        timing,
        front,
        worker,
        mv,
        judge,
        steps,
    )
}
